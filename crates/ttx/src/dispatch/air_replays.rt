//! The command that puts on the air again what a log says: `air --replay`.

use super::Outcome;
use super::zones::zones_with;
use crate::reports::{memory_fault, report, report_refusal, status_of};
use std::alloc::AllocError;
use std::fs::File;
use std::io::IsTerminal;
use std::{fs, io};
use ttx_archive::FiledText;
use ttx_arguments::AirReplayOrder;
use ttx_cycle::{Counted, MOST_BYTES, TextFault, read_text};
use ttx_logbook::{ClockName, Log, read_log};
use ttx_moment::ZoneClock;
use ttx_send::Clock;
use ttx_tool::{AirRefusal, Outputs, begin_of, commands, is_same_so_far, replay};

// The most bytes of a log (1 GiB).
const MOST_LOG: usize = 1_073_741_824;

// Whether there is a file of this name. A pipe or a device might never end.
fn is_file(rt: &HostRuntime, path: &str) -> bool {
    match fs::metadata(rt, path) {
        Ok(known) => known.is_file(),
        Err(_) => false,
    }
}

// Adds the text of a file. One that is too long for a service, or cannot be read, was never on the air.
fn add_text(rt: &HostRuntime, archive: &mut Vec<FiledText>, path: &str) -> io::Result<()> {
    if !is_file(rt, path) {
        return Ok(());
    }
    let file = File::open(rt, path)?;
    match read_text(rt.alloc(), &mut Counted::new(file), MOST_BYTES) {
        Ok(text) => archive.push(FiledText::new(rt.alloc(), text)?)?,
        Err(TextFault::NoMemory) => return Err(io::Error::from(AllocError)),
        Err(TextFault::Read | TextFault::TooLong) => {}
    }
    Ok(())
}

// The texts of a folder.
fn archive_in(rt: &HostRuntime, folder: &str) -> io::Result<Vec<FiledText>> {
    let mut archive = Vec::new(rt.alloc());
    for entry in fs::read_dir(rt, folder)? {
        let entry = entry?;
        add_text(rt, &mut archive, entry.path().as_str())?;
    }
    Ok(archive)
}

// Whether a line says that memory ran out.
fn is_lack(line: &str) -> bool {
    line.ends_with(": out of memory")
}

// Whether memory ran out for a change that the given log records: the first line that the replay's own log has otherwise says so.
fn ran_out(own: &[u8], given: &str) -> bool {
    let Ok(own) = std::str::from_utf8(own) else {
        return false;
    };
    let mut others = given.lines();
    for line in own.lines() {
        let other = others.next().unwrap_or("");
        if line != other {
            return is_lack(line) && !is_lack(other);
        }
    }
    false
}

// Puts on the air again what the log in this text says, by this clock.
fn replay_by<C: Clock>(
    rt: &HostRuntime,
    text: &str,
    log: &Log<'_>,
    archive: &[FiledText],
    clock: &C,
) -> u8 {
    let mut outputs = Outputs {
        log: Counted::new(Vec::new(rt.alloc())),
        packets: Counted::new(io::writer(rt)),
    };
    let outcome = replay(rt.alloc(), log, clock, archive, &mut outputs);
    if outputs.log.faults() != 0 {
        return memory_fault(rt);
    }
    let own = outputs.log.into_inner();
    let is_same = is_same_so_far(own.as_slice(), text.as_bytes());
    if !is_same && ran_out(own.as_slice(), text) {
        return memory_fault(rt);
    }
    let mut errors = Counted::new(rt.stderr());
    status_of(
        rt,
        commands::replay_air::report(rt.alloc(), &outcome, is_same, &mut errors),
    )
}

fn replay_ahead(
    rt: &HostRuntime,
    text: &str,
    log: &Log<'_>,
    archive: &[FiledText],
    seconds: i32,
) -> u8 {
    match begin_of(&log.settings.begin, seconds) {
        Some(begin) => replay_by(rt, text, log, archive, &begin),
        None => report_refusal(rt, AirRefusal::Time),
    }
}

// The same by the rules of the time zone of this name.
fn replay_zoned(
    rt: &HostRuntime,
    text: &str,
    log: &Log<'_>,
    archive: &[FiledText],
    name: &str,
) -> u8 {
    let zones = match zones_with(rt, name) {
        Ok(zones) => zones,
        Err(fault) => return report(rt, &fault),
    };
    let Ok(zone) = zones.get(name) else {
        return report_refusal(rt, AirRefusal::Zone);
    };
    match begin_of(&log.settings.begin, 0) {
        Some(begin) => replay_by(rt, text, log, archive, &ZoneClock::new(begin, zone)),
        None => report_refusal(rt, AirRefusal::Time),
    }
}

// Reports why a log is not read, and returns the status.
fn unread(rt: &HostRuntime, fault: TextFault) -> u8 {
    let line = match fault {
        TextFault::Read => "fault: read",
        TextFault::TooLong => "refused: log too-long",
        TextFault::NoMemory => return memory_fault(rt),
    };
    let _ = rt.eprintln(line);
    if matches!(fault, TextFault::Read) {
        3
    } else {
        2
    }
}

// Puts on the air again what the log in this text says.
fn replay_text(rt: &HostRuntime, text: &str, folder: &str) -> Outcome {
    let log = match read_log(rt.alloc(), text) {
        Ok(log) => log,
        Err(fault) => {
            let mut errors = Counted::new(rt.stderr());
            return Ok(status_of(
                rt,
                commands::replay_air::report_log(rt.alloc(), &fault, &mut errors),
            ));
        }
    };
    let archive = archive_in(rt, folder)?;
    let texts = archive.as_slice();
    match log.settings.clock {
        ClockName::Ahead(seconds) => Ok(replay_ahead(rt, text, &log, texts, seconds)),
        ClockName::Zone(name) => Ok(replay_zoned(rt, text, &log, texts, name)),
    }
}

/// Reads the log, and the texts that a folder has, and puts the service on the air again.
pub fn replay_air(rt: &HostRuntime, order: &AirReplayOrder<'_>) -> Outcome {
    if !order.force && rt.stdout().is_terminal() {
        return Ok(report_refusal(rt, AirRefusal::Terminal));
    }
    let file = File::open(rt, order.log)?;
    let bytes = match read_text(rt.alloc(), &mut Counted::new(file), MOST_LOG) {
        Ok(bytes) => bytes,
        Err(fault) => return Ok(unread(rt, fault)),
    };
    match std::str::from_utf8(bytes.as_slice()) {
        Ok(text) => replay_text(rt, text, order.texts),
        Err(_) => {
            let _ = rt.eprintln("refused: log utf-8");
            Ok(2)
        }
    }
}
