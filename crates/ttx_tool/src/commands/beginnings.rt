//! The moment at which `send` and `air` begin.

ghost use Rattle.std.specs.Prelude.{◌≡◌, ◌<◌};
ghost use Rattle.jiff.specs.Words.{plain_zone};
ghost use Rattle.ttx_arguments.specs.Timings.{start_view};
ghost use Rattle.ttx_moment.specs.Instants as instants;
ghost use Rattle.ttx_tool.specs.Beginnings.{BeginsAt, Begins, BeginsAhead};

use jiff::Timestamp;
use jiff::tz::{Offset as ZoneOffset, TimeZone};
use ttx_arguments::{Offset, Start};
use ttx_moment::{moment_of, read_instant};
use ttx_send::Moment;

// The moment that a text names, by the clock of the zone.
fn named(text: &str, zone: &TimeZone<'_>) -> Option<Moment>
    ensures { BeginsAt (plain_zone zone.now) text.now result }
{
    let Some(instant) = read_instant(text, zone) else {
        return None;
    };
    moment_of(instant, zone)
}

// The same for any start; a moment in UTC is given a clock that is `ahead` seconds ahead.
fn begun(start: &Start<'_>, now: Timestamp, zone: &TimeZone<'_>, ahead: u32) -> Option<Moment>
    requires { ahead < 86400 }
    ensures { Begins (plain_zone zone.now) now.nanosecond ahead (start_view start.now) result }
{
    match start {
        Start::Now => moment_of(now, zone),
        Start::Utc(moment) => Moment::new(moment.mjd(), moment.second(), ahead),
        Start::Named(text) => named(text, zone),
    }
}

/// The moment at which a sending begins whose clock keeps the rules of a zone, where the machine's clock shows the instant `now`. `None` if a text
/// names no time, or one that is not on the air.
pub fn zoned(start: &Start<'_>, now: Timestamp, zone: &TimeZone<'_>) -> Option<Moment>
    ensures { Begins (plain_zone zone.now) now.nanosecond 0 (start_view start.now) result }
{
    begun(start, now, zone, 0)
}

// How many seconds a clock at this offset is ahead of UTC, within a day.
fn seconds_ahead(offset: i32) -> u32
    ensures value { result ≡ instants.ahead offset }
    ensures range { result < 86400 }
{
    ((i64::from(offset) + 172_800).unsigned_abs() % 86_400) as u32
}

/// The same by a clock that is so many half hours ahead of UTC.
pub fn ahead(start: &Start<'_>, now: Timestamp, offset: &Offset) -> Option<Moment>
    ensures { BeginsAhead offset.now now.nanosecond (start_view start.now) result }
{
    let seconds = offset.seconds();
    let zone = TimeZone::fixed(ZoneOffset::from_seconds(seconds).unwrap());
    begun(start, now, &zone, seconds_ahead(seconds))
}
