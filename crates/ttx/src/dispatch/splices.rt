//! `splice`: the change from an old cycle to a new one.

use super::Outcome;
use super::inputs::Claim;
use crate::devices::{Input, open_input};
use crate::reports::status_of;
use std::io;
use ttx_arguments::SpliceOrder;
use ttx_cycle::Counted;
use ttx_tool::commands::splice::Splicing;
use ttx_tool::{ToolFault, commands};

fn splice_claims(
    rt: &HostRuntime,
    old: Claim,
    new: Claim,
    order: &SpliceOrder<'_>,
) -> Result<u8, ToolFault> {
    let mut old = old.claim(rt)?;
    let mut new = new.claim(rt)?;
    let mut writer = Counted::new(io::writer(rt));
    let splicing = Splicing {
        sent: order.sent,
        late: order.late,
    };
    commands::splice::run(rt.alloc(), &mut old, &mut new, splicing, &mut writer)
}

// Opens two inputs.
fn open_two(rt: &HostRuntime, old: &str, new: &str) -> io::Result<(Input, Input)> {
    let old = open_input(rt, old)?;
    let new = open_input(rt, new)?;
    Ok((old, new))
}

/// Opens the cycles, the services and the certificates, and judges the change from the old cycle to the new one.
pub fn splice(rt: &HostRuntime, order: &SpliceOrder<'_>) -> Outcome {
    let cycles = open_two(rt, order.old, order.new)?;
    let services = open_two(rt, order.old_service, order.new_service)?;
    let certificates = open_two(rt, order.old_certificate, order.new_certificate)?;
    let old = Claim {
        cycle: cycles.0,
        service: services.0,
        text: certificates.0,
    };
    let new = Claim {
        cycle: cycles.1,
        service: services.1,
        text: certificates.1,
    };
    Ok(status_of(rt, splice_claims(rt, old, new, order)))
}
