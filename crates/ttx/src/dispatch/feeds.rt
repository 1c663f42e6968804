//! The command that judges what comes back from the air: `monitor`.

use super::Outcome;
use super::inputs::{Claim, ClaimReaders, RecordedInput, recorded};
use crate::devices::{Input, open_input};
use crate::reports::{status_of, told};
use std::io;
use ttx_arguments::MonitorOrder;
use ttx_cycle::Counted;
use ttx_kinds::Place;
use ttx_monitor::Asked;
use ttx_tool::commands::monitor::Judged;
use ttx_tool::commands::monitor_reports::Reported;
use ttx_tool::{ToolFault, commands};

// The status of a command on a claim and a feed; says which input is of another kind than its place takes.
fn feed_told(
    rt: &HostRuntime,
    readers: &ClaimReaders,
    feed: &RecordedInput,
    answer: Result<u8, ToolFault>,
) -> u8 {
    let status = readers.told(rt, status_of(rt, answer));
    told(rt, Place::Feed, feed.get_ref().kept(), status)
}

fn monitor_feed(rt: &HostRuntime, claim: Claim, feed: Input, how: Judged) -> Result<u8, ToolFault> {
    let mut readers = claim.readers(rt)?;
    let mut feed = recorded(rt, feed)?;
    let mut writer = Counted::new(io::writer(rt));
    let answer = commands::monitor::run(
        rt.alloc(),
        &mut readers.cycle,
        &mut readers.service,
        &mut readers.text,
        how,
        &mut feed,
        &mut writer,
    );
    Ok(feed_told(rt, &readers, &feed, answer))
}

fn report_feed(
    rt: &HostRuntime,
    claim: Claim,
    feed: Input,
    how: Reported,
) -> Result<u8, ToolFault> {
    let mut readers = claim.readers(rt)?;
    let mut feed = recorded(rt, feed)?;
    let mut writer = Counted::new(io::writer(rt));
    let answer = commands::monitor_reports::run(
        rt.alloc(),
        &mut readers.cycle,
        &mut readers.service,
        &mut readers.text,
        how,
        &mut feed,
        &mut writer,
    );
    Ok(feed_told(rt, &readers, &feed, answer))
}

/// Opens the cycle, the service, the certificate and the feed, and judges the feed, or reports it while it comes.
pub fn monitor(rt: &HostRuntime, order: &MonitorOrder<'_>) -> Outcome {
    let claim = Claim::open(rt, order.cycle, order.service, order.certificate)?;
    let feed = open_input(rt, order.feed)?;
    if !order.all && order.every.is_none() {
        let how = Judged {
            start: order.start,
            by_rows: order.rows,
            json: order.json,
        };
        return Ok(status_of(rt, monitor_feed(rt, claim, feed, how)));
    }
    let asked = Asked {
        start: order.start,
        all: order.all,
        every: match order.every {
            Some(fields) => Some(fields.count()),
            None => None,
        },
    };
    let how = Reported {
        asked,
        json: order.json,
    };
    Ok(status_of(rt, report_feed(rt, claim, feed, how)))
}
