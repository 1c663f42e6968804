//! The moment of an instant.

ghost use Rattle.std.specs.Prelude.{◌≡◌, SomeIff};
ghost use Rattle.jiff.specs.Words.{plain_zone, offset_at};
ghost use Rattle.ttx_moment.specs.Instants.{ahead, moment_of_instant, IsOnTheAir};

use jiff::Timestamp;
use jiff::tz::TimeZone;
use ttx_send::Moment;

// How many seconds a clock at this offset is ahead of UTC, within a day.
pub(crate) fn ahead(offset: i32) -> u32
    ensures { result ≡ ahead offset }
{
    ((i64::from(offset) + 172_800).unsigned_abs() % 86_400) as u32
}

/// The moment of an instant, with a clock that shows the time of the zone. `None` before 1970, and from MJD 100,000 on (in the year 2132).
pub fn moment_of(instant: Timestamp, zone: &TimeZone<'_>) -> Option<Moment>
    ensures { SomeIff result (IsOnTheAir instant.nanosecond (offset_at (plain_zone zone.now) instant.nanosecond))
        (moment_of_instant instant.nanosecond (offset_at (plain_zone zone.now) instant.nanosecond)) }
{
    let nanos = instant.as_nanosecond();
    if nanos < 0 {
        return None;
    }
    let seconds = nanos.unsigned_abs() / 1_000_000_000;
    let days = seconds / 86_400;
    if days >= 59_413 {
        return None;
    }
    let ahead = ahead(zone.to_offset(instant).seconds());
    Moment::new(40_587 + days as u32, (seconds % 86_400) as u32, ahead)
}
