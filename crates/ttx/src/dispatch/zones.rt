//! The rules of time zones, and the machine's clock.

use jiff::Timestamp;
use jiff::tz::{TimeZone, TimeZoneDatabase};
use std::fs::File;
use std::{env, fs};
use ttx_arguments::{Offset, Start};
use ttx_cycle::{Counted, TextFault};
use ttx_files::{FilesFault, read_text};
use ttx_send::Moment;
use ttx_tool::ToolFault;
use ttx_tool::commands::beginnings;

// Where systems keep the rules of time zones.
const FOLDERS: [&str; 3] = [
    "/usr/share/zoneinfo",
    "/usr/share/lib/zoneinfo",
    "/etc/zoneinfo",
];

// Whether a name leads to a file below a folder, and nowhere else.
fn is_zone_name(name: &str) -> bool {
    !name.is_empty() && !name.starts_with('/') && !name.contains("..")
}

// Whether there is a file of this name. A pipe or a device might never end.
fn is_file(rt: &HostRuntime, path: &str) -> bool {
    match fs::metadata(rt, path) {
        Ok(known) => known.is_file(),
        Err(_) => false,
    }
}

// The bytes of the zone's file in a folder, if there is one.
fn rules_in(rt: &HostRuntime, folder: &str, name: &str) -> Result<Option<Vec<u8>>, ToolFault> {
    let Ok(path) = format!(in rt.alloc(); "{folder}/{name}") else {
        return Err(ToolFault::Files(FilesFault::NoMemory));
    };
    if !is_file(rt, path.as_str()) {
        return Ok(None);
    }
    let Ok(file) = File::open(rt, path.as_str()) else {
        return Ok(None);
    };
    match read_text(rt.alloc(), &mut Counted::new(file)) {
        Ok(bytes) => Ok(Some(bytes)),
        Err(TextFault::NoMemory) => Err(ToolFault::Files(FilesFault::NoMemory)),
        Err(_) => Ok(None),
    }
}

// The same in the folder that TZDIR names or, without it, in the first that has the file.
fn rules(rt: &HostRuntime, name: &str) -> Result<Option<Vec<u8>>, ToolFault> {
    if let Ok(folder) = env::var(rt, "TZDIR") {
        return rules_in(rt, folder.as_str(), name);
    }
    for folder in FOLDERS {
        let found = rules_in(rt, folder, name)?;
        if found.is_some() {
            return Ok(found);
        }
    }
    Ok(None)
}

/// A database with the time zone of this name, if there is one.
pub fn zones_with(rt: &HostRuntime, name: &str) -> Result<TimeZoneDatabase, ToolFault> {
    let mut zones = TimeZoneDatabase::new(rt.alloc());
    if is_zone_name(name) {
        if let Some(bytes) = rules(rt, name)? {
            let _ = zones.insert(name, bytes.as_slice());
        }
    }
    Ok(zones)
}

// What the machine's clock shows, if a start asks for that.
fn now_for(rt: &HostRuntime, start: &Start<'_>) -> Option<Timestamp> {
    match start {
        Start::Now => Timestamp::now(rt).ok(),
        _ => Some(Timestamp::UNIX_EPOCH),
    }
}

/// When a sending begins by a clock so many half hours ahead of UTC.
pub fn begin_ahead(rt: &HostRuntime, start: &Start<'_>, offset: &Offset) -> Option<Moment> {
    beginnings::ahead(start, now_for(rt, start)?, offset)
}

/// When a sending begins by the clock of a zone.
pub fn begin_zoned(rt: &HostRuntime, start: &Start<'_>, zone: &TimeZone<'_>) -> Option<Moment> {
    beginnings::zoned(start, now_for(rt, start)?, zone)
}
