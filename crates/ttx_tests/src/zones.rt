//! Clocks that show the time of a zone, with values that Python's zoneinfo gives.

use crate::base::{HEADER, beginning};
use crate::service_packets::SENT;
use jiff::tz::TimeZone;
use std::test::Fail;
use ttx_cycle::faulty::FaultyWriter;
use ttx_cycle::{Counted, Cycle};
use ttx_moment::{ZoneClock, moment_by_clock};
use ttx_send::iso_texts::{clock_text, date_text, offset_text};
use ttx_send::{Clock, Moment, send, timed};

const BERLIN: &str = "CET-1CEST,M3.5.0,M10.5.0/3";

const NEW_YORK: &str = "EST5EDT,M3.2.0,M11.1.0";

const KATHMANDU: &str = "<+0545>-5:45";

const NEWFOUNDLAND: &str = "NST3:30NDT,M3.2.0,M11.1.0";

// What a clock shows so many seconds after the second of a day in UTC, and byte 11 of packets 8/30.
struct Shown {
    zone: &'static str,
    mjd: u32,
    second: u32,
    later: u32,
    text: &'static [u8],
    offset: u8,
}

#[rattlefmt::skip]
static SHOWN: [Shown; 12] = [
    Shown { zone: BERLIN, mjd: 61_128, second: 3_599, later: 0, text: b"2026-03-29T01:59:59+01:00", offset: 0x85 },
    Shown { zone: BERLIN, mjd: 61_128, second: 3_599, later: 1, text: b"2026-03-29T03:00:00+02:00", offset: 0x89 },
    Shown { zone: BERLIN, mjd: 61_338, second: 3_599, later: 0, text: b"2026-10-25T02:59:59+02:00", offset: 0x89 },
    Shown { zone: BERLIN, mjd: 61_338, second: 3_599, later: 1, text: b"2026-10-25T02:00:00+01:00", offset: 0x85 },
    Shown { zone: BERLIN, mjd: 61_128, second: 3_599, later: 18_144_001, text: b"2026-10-25T02:00:00+01:00", offset: 0x85 },
    Shown { zone: BERLIN, mjd: 61_405, second: 84_600, later: 0, text: b"2027-01-01T00:30:00+01:00", offset: 0x85 },
    Shown { zone: NEW_YORK, mjd: 61_128, second: 3_599, later: 1, text: b"2026-03-28T21:00:00-04:00", offset: 0xd1 },
    Shown { zone: NEW_YORK, mjd: 61_405, second: 84_600, later: 0, text: b"2026-12-31T18:30:00-05:00", offset: 0xd5 },
    Shown { zone: KATHMANDU, mjd: 61_405, second: 84_600, later: 0, text: b"2027-01-01T05:15:00+05:45", offset: 0x97 },
    Shown { zone: NEWFOUNDLAND, mjd: 61_128, second: 3_599, later: 0, text: b"2026-03-28T22:29:59-02:30", offset: 0xcb },
    Shown { zone: NEWFOUNDLAND, mjd: 61_405, second: 84_600, later: 0, text: b"2026-12-31T20:00:00-03:30", offset: 0xcf },
    Shown { zone: "UTC0", mjd: 61_099, second: 86_399, later: 1, text: b"2026-03-01T00:00:00+00:00", offset: 0x81 },
];

// The clock of a zone from a second of a day in UTC on.
fn clock_of(zone: &str, mjd: u32, second: u32) -> Option<ZoneClock<'static>> {
    match (Moment::new(mjd, second, 0), TimeZone::posix(zone)) {
        (Some(start), Ok(zone)) => Some(ZoneClock::new(start, zone)),
        _ => None,
    }
}

#[test]
fn clocks_show_daylight_saving(rt: HostRuntime) {
    for shown in &SHOWN {
        let Some(clock) = clock_of(shown.zone, shown.mjd, shown.second) else {
            panic!(rt; "there is no clock");
        };
        let moment = clock.after(shown.later);
        let (date, time) = (date_text(&moment), clock_text(&moment));
        let offset = offset_text(&moment);
        assert!(rt; shown.text.get(..10) == Some(date.as_slice()));
        assert!(rt; shown.text.get(11..19) == Some(time.as_slice()));
        assert!(rt; shown.text.get(19..) == Some(offset.as_slice()));
        let info = timed(&SENT, moment);
        assert!(rt; info[11] == shown.offset);
    }
}

// What the clock of a zone shows, and the second of a day in UTC at which it does: an ordinary time, one that the clock shows twice, and
// one that it skips.
#[rattlefmt::skip]
static NAMED: [(&str, (u32, u32), (u32, u32), &[u8]); 3] = [
    (KATHMANDU, (61_406, 18_900), (61_405, 84_600), b"2027-01-01T05:15:00"),
    (BERLIN, (61_338, 9_000), (61_338, 1_800), b"2026-10-25T02:30:00"),
    (BERLIN, (61_128, 9_000), (61_128, 5_400), b"2026-03-29T03:30:00"),
];

#[test]
fn moments_by_the_clock_of_a_zone(rt: HostRuntime) {
    for (name, shown, utc, text) in &NAMED {
        let Ok(zone) = TimeZone::posix(name) else {
            panic!(rt; "there is no zone");
        };
        let Some(moment) = moment_by_clock(shown.0, shown.1, &zone) else {
            panic!(rt; "there is no moment");
        };
        assert!(rt; (moment.mjd(), moment.second()) == *utc);
        let (date, time) = (date_text(&moment), clock_text(&moment));
        assert!(rt; text.get(..10) == Some(date.as_slice()));
        assert!(rt; text.get(11..) == Some(time.as_slice()));
        assert!(rt; moment_by_clock(100_000, 0, &zone).is_none());
        assert!(rt; moment_by_clock(shown.0, 86_400, &zone).is_none());
    }
}

// 02:59:59 and 02:00:00 in odd parity.
const BEFORE: [u8; 8] = [0xb0, 0x32, 0xba, 0xb5, 0xb9, 0xba, 0xb5, 0xb9];

const AFTER: [u8; 8] = [0xb0, 0x32, 0xba, 0xb0, 0xb0, 0xba, 0xb0, 0xb0];

#[test]
fn summer_time_ends_between_two_fields(rt: HostRuntime) -> Result<(), Fail> {
    let slots = Vec::from_slice(rt.alloc(), &[beginning(&HEADER)])?;
    let (Some(cycle), Some(clock)) = (Cycle::of(slots), clock_of(BERLIN, 61_338, 3_599)) else {
        panic!(rt; "there is no cycle or no clock");
    };
    let mut packets = [0; 2_520];
    let mut writer = Counted::new(FaultyWriter::new(&mut packets, 1_000, None));
    assert!(rt; send(&cycle, &clock, 1, 0, 60, &mut writer).is_ok());
    let sent = writer.get_ref().taken();
    assert!(rt; sent.get(34..42) == Some(BEFORE.as_slice()));
    assert!(rt; sent.get(49 * 42 + 34..50 * 42) == Some(BEFORE.as_slice()));
    assert!(rt; sent.get(50 * 42 + 34..51 * 42) == Some(AFTER.as_slice()));
    Ok(())
}
