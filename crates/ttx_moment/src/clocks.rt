//! Moments by a zone's clock.

ghost use Rattle.std.specs.Prelude.{◌≡◌, MatchOption};
ghost use Rattle.jiff.specs.Words.{plain_zone};
ghost use Rattle.ttx_moment.specs.Clocks.{IsNoClockTime, IsShown, IsNamed};

use crate::instants::moment_of;
use jiff::Timestamp;
use jiff::civil::DateTime;
use jiff::tz::{Offset, TimeZone};
use ttx_send::Moment;

// What a clock shows at this second of the day with this Modified Julian Date.
fn clock_time(mjd: u32, second: u32) -> Option<DateTime>
    ensures { MatchOption result (IsNoClockTime mjd second) (IsShown mjd second) }
{
    if mjd >= 100_000 || second >= 86_400 {
        return None;
    }
    let seconds = (i64::from(mjd) - 40_587) * 86_400 + i64::from(second);
    match Timestamp::from_second(seconds) {
        Ok(instant) => Some(Offset::UTC.to_datetime(instant)),
        Err(_) => None,
    }
}

/// The moment at which the clock of the zone shows a Modified Julian Date and a second of its day. If the clock shows the time twice, it is the earlier
/// one; if it skips the time, the offset before counts. `None` if the date has more than five digits, if the second is not below 86,400, or if
/// the moment is before 1970 or from MJD 100,000 on, in UTC.
pub fn moment_by_clock(mjd: u32, second: u32, zone: &TimeZone<'_>) -> Option<Moment>
    ensures { IsNamed (plain_zone zone.now) mjd second result }
{
    let Some(datetime) = clock_time(mjd, second) else {
        return None;
    };
    match zone.to_timestamp(datetime) {
        Ok(instant) => moment_of(instant, zone),
        Err(_) => None,
    }
}
