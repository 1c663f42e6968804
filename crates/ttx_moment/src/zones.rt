//! Clocks that show the time of a zone.

ghost use Rattle.std.specs.Prelude.{◌≡◌};
ghost use Rattle.jiff.specs.Words.{plain_zone};
ghost use Rattle.ttx_moment.specs.Zones.{instant_after, zone_time};

use crate::instants::ahead;
use jiff::Timestamp;
use jiff::tz::TimeZone;
use ttx_send::{Clock, LocalOffset, Moment};

/// A clock that shows the time of a zone by its rules, daylight saving included: in page headers, and as the local offset in packets 8/30.
#[derive(Clone, Copy)]
pub struct ZoneClock<'a> {
    start: Moment,
    zone: TimeZone<'a>,
}

impl<'a> ZoneClock<'a> {
    /// The clock of a zone that starts with the date and the time in UTC of this moment.
    pub fn new(start: Moment, zone: TimeZone<'a>) -> ZoneClock<'a>
        ensures start { result.start ≡ start }
        ensures zone { plain_zone result.zone ≡ plain_zone zone.entry }
    {
        ZoneClock { start, zone }
    }
}

// The instant so many seconds after a moment.
fn instant_after(start: &Moment, seconds: u32) -> Timestamp
    ensures { result.nanosecond ≡ instant_after start.now seconds }
{
    let days = i64::from(start.mjd()) - 40_587;
    let second = days * 86_400 + i64::from(start.second()) + i64::from(seconds);
    match Timestamp::from_second(second) {
        Ok(instant) => instant,
        Err(_) => unreachable!(),
    }
}

impl Clock for ZoneClock<'_> {
    ghost use Rattle.jiff.specs.Words.{plain_zone};
    ghost use Rattle.ttx_moment.specs.Zones.{zone_time};

    ghost shows = { λ clock seconds. zone_time (plain_zone clock.zone) clock.start seconds };

    /// Looks at the rules of the zone once.
    fn after(&self, seconds: u32) -> Moment {
        let offset = self
            .zone
            .to_offset(instant_after(&self.start, seconds))
            .seconds();
        let moment = self.start.after(seconds);
        moment.by_clock(ahead(offset), LocalOffset::of_seconds(offset))
    }
}

/// A clock with one offset, or that of a zone.
#[derive(Clone, Copy)]
pub enum AirClock<'a> {
    Fixed(Moment),
    Zone(ZoneClock<'a>),
}

impl Clock for AirClock<'_> {
    ghost use Rattle.ttx_moment.specs.AirClocks.{shown_by};

    ghost shows = { shown_by };

    fn after(&self, seconds: u32) -> Moment {
        match self {
            AirClock::Fixed(start) => start.after(seconds),
            AirClock::Zone(clock) => clock.after(seconds),
        }
    }
}
