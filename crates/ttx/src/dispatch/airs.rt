//! The command that puts a service on the air: `air`.

use super::Outcome;
use super::zones::{begin_ahead, begin_zoned, zones_with};
use crate::devices::create_log;
use crate::reports::{report, report_refusal, status_of};
use std::io::{IsTerminal, Write};
use std::{fs, io};
use ttx_arguments::{AirOrder, Clock as AskedClock, Offset};
use ttx_cycle::Counted;
use ttx_moment::ZoneClock;
use ttx_send::Clock;
use ttx_tool::{AirRefusal, BroadcastFault, LogCopy, Outputs, ServiceFile, ToolFault, commands};

// Reports why a broadcast ended before its time, and returns the status.
fn status_of_air(rt: &HostRuntime, ended: Result<(), BroadcastFault>) -> u8 {
    let Err(fault) = ended else {
        return 0;
    };
    let mut errors = Counted::new(rt.stderr());
    status_of(rt, commands::air::report(rt.alloc(), &fault, &mut errors))
}

// Puts the service on the air, with this log.
fn air_with<C: Clock, L: Write + Drop>(
    rt: &HostRuntime,
    order: &AirOrder<'_>,
    clock: &C,
    log: L,
) -> u8 {
    let source = ServiceFile {
        files: rt,
        path: order.service,
    };
    let mut outputs = Outputs {
        log: Counted::new(log),
        packets: Counted::new(io::writer(rt)),
    };
    let ended = commands::air::run(rt.alloc(), order, clock, source, &mut outputs);
    status_of_air(rt, ended)
}

// The same by this clock. The log goes to standard error, and to a file if one is named, which must not be the service.
fn air_by<C: Clock>(rt: &HostRuntime, order: &AirOrder<'_>, clock: &C) -> Outcome {
    let Some(name) = order.log else {
        let _ = fs::metadata(rt, order.service)?;
        return Ok(air_with(rt, order, clock, rt.stderr()));
    };
    match create_log(rt, order.service, name)? {
        Some(file) => Ok(air_with(rt, order, clock, LogCopy::new(file, rt.stderr()))),
        None => Ok(report(rt, &ToolFault::Same)),
    }
}

fn air_ahead(rt: &HostRuntime, order: &AirOrder<'_>, offset: &Offset) -> Outcome {
    match begin_ahead(rt, &order.timing.start, offset) {
        Some(start) => air_by(rt, order, &start),
        None => Ok(report_refusal(rt, AirRefusal::Time)),
    }
}

// The same by the rules of the time zone of this name.
fn air_zoned(rt: &HostRuntime, order: &AirOrder<'_>, name: &str) -> Outcome {
    let zones = match zones_with(rt, name) {
        Ok(zones) => zones,
        Err(fault) => return Ok(report(rt, &fault)),
    };
    let Ok(zone) = zones.get(name) else {
        return Ok(report_refusal(rt, AirRefusal::Zone));
    };
    match begin_zoned(rt, &order.timing.start, &zone) {
        Some(start) => air_by(rt, order, &ZoneClock::new(start, zone)),
        None => Ok(report_refusal(rt, AirRefusal::Time)),
    }
}

/// Finds the moment and the clock that are asked for, and puts the service on the air.
pub fn air(rt: &HostRuntime, order: &AirOrder<'_>) -> Outcome {
    if !order.force && rt.stdout().is_terminal() {
        return Ok(report_refusal(rt, AirRefusal::Terminal));
    }
    match &order.timing.clock {
        AskedClock::Ahead(offset) => air_ahead(rt, order, offset),
        AskedClock::Zone(name) => air_zoned(rt, order, name),
    }
}
