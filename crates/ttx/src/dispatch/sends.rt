//! The command that sends a cycle: `send`.

use super::Outcome;
use super::inputs::buffered;
use super::zones::{begin_ahead, begin_zoned, zones_with};
use crate::devices::{Input, open_input};
use crate::reports::{report, report_refusal, status_of};
use std::io;
use std::io::IsTerminal;
use ttx_arguments::{Clock as AskedClock, Offset, SendOrder, Sending};
use ttx_cycle::Counted;
use ttx_moment::ZoneClock;
use ttx_send::Clock;
use ttx_tool::{AirRefusal, ToolFault, commands};

fn send_input<C: Clock>(
    rt: &HostRuntime,
    input: Input,
    clock: &C,
    sending: &Sending,
) -> Result<u8, ToolFault> {
    let mut reader = buffered(rt, input)?;
    let mut writer = Counted::new(io::writer(rt));
    commands::send::run(rt.alloc(), &mut reader, clock, sending, &mut writer).map(|()| 0)
}

// Opens the cycle, and sends it by this clock.
fn send_by<C: Clock>(rt: &HostRuntime, order: &SendOrder<'_>, clock: &C) -> Outcome {
    let input = open_input(rt, order.cycle)?;
    Ok(status_of(rt, send_input(rt, input, clock, &order.sending)))
}

fn send_ahead(rt: &HostRuntime, order: &SendOrder<'_>, offset: &Offset) -> Outcome {
    match begin_ahead(rt, &order.timing.start, offset) {
        Some(start) => send_by(rt, order, &start),
        None => Ok(report_refusal(rt, AirRefusal::Time)),
    }
}

// Sends by the rules of the time zone of this name.
fn send_zoned(rt: &HostRuntime, order: &SendOrder<'_>, name: &str) -> Outcome {
    let zones = match zones_with(rt, name) {
        Ok(zones) => zones,
        Err(fault) => return Ok(report(rt, &fault)),
    };
    let Ok(zone) = zones.get(name) else {
        return Ok(report_refusal(rt, AirRefusal::Zone));
    };
    match begin_zoned(rt, &order.timing.start, &zone) {
        Some(start) => send_by(rt, order, &ZoneClock::new(start, zone)),
        None => Ok(report_refusal(rt, AirRefusal::Time)),
    }
}

/// Finds the moment and the clock that are asked for, opens the cycle, and sends it again and again, with the time.
pub fn send(rt: &HostRuntime, order: &SendOrder<'_>) -> Outcome {
    if !order.force && rt.stdout().is_terminal() {
        return Ok(report_refusal(rt, AirRefusal::Terminal));
    }
    match &order.timing.clock {
        AskedClock::Ahead(offset) => send_ahead(rt, order, offset),
        AskedClock::Zone(name) => send_zoned(rt, order, name),
    }
}
