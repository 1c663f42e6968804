//! Instants as texts.

ghost use Rattle.std.specs.Prelude.{◌≡◌, MatchOption};
ghost use Rattle.jiff.specs.Words.{plain_zone};
ghost use Rattle.ttx_moment.specs.Texts.{IsInstantText, IsNoInstantText, IsDateTimeText, IsNoDateTimeText, IsRead};

use jiff::Timestamp;
use jiff::civil::DateTime;
use jiff::tz::TimeZone;
use std::str::FromStr;

// The instant that the text is.
#[tactic(auto, unfolding(crate::specs::Texts::IsInstantText, crate::specs::Texts::IsNoInstantText))]
fn instant_in(text: &str) -> Option<Timestamp>
    ensures { MatchOption result (IsNoInstantText text.now) (λ t. IsInstantText text.now t.nanosecond) }
{
    match Timestamp::from_str(text) {
        Ok(instant) => Some(instant),
        Err(_) => None,
    }
}

// The date and the time of day that the text is.
#[tactic(auto, unfolding(crate::specs::Texts::IsDateTimeText, crate::specs::Texts::IsNoDateTimeText))]
fn datetime_in(text: &str) -> Option<DateTime>
    ensures { MatchOption result (IsNoDateTimeText text.now) (IsDateTimeText text.now) }
{
    match DateTime::from_str(text) {
        Ok(datetime) => Some(datetime),
        Err(_) => None,
    }
}

/// The instant that an ISO text names: `2026-11-25T12:00:00Z` and the like with an offset, or `2026-11-25T12:00:00` by the clock of the zone. A time
/// that the clock shows twice is the earlier one; for one that it skips, the offset before counts. `None` if the text is neither, or names
/// an instant out of range.
pub fn read_instant(text: &str, zone: &TimeZone<'_>) -> Option<Timestamp>
    ensures { IsRead (plain_zone zone.now) text.now result }
{
    if let Some(instant) = instant_in(text) {
        return Some(instant);
    }
    let Some(datetime) = datetime_in(text) else {
        return None;
    };
    match zone.to_timestamp(datetime) {
        Ok(instant) => Some(instant),
        Err(_) => None,
    }
}
