//! The moment of the first field, and the clock.

ghost use Rattle.std.specs.Prelude.{◌≡◌, ◌<◌, option_map, IfSome};
ghost use Rattle.ttx_logbook.specs.Views.{begin_of, clock_of};
ghost use Rattle.ttx_logbook.specs.SettingsReading as rule;

use crate::cuts::{after, cut};
use crate::numbers::{keyed_number, number};
use crate::values::{Begin, ClockName};
use ttx_digits::two_decimals;

// The second of the day with these digits of hours, minutes and seconds.
#[tactic(auto, unfolding(crate::specs::SettingsReading::second_at))]
fn second_at(word: &[u8; 6]) -> Option<u32>
    ensures value { result ≡ rule.second_at word.now }
    ensures range { IfSome result (λ n. n < 86400) }
{
    let hours = two_decimals(word, 0)?;
    let minutes = two_decimals(word, 2)?;
    let seconds = two_decimals(word, 4)?;
    if hours < 24 && minutes < 60 && seconds < 60 {
        Some(3_600 * u32::from(hours) + 60 * u32::from(minutes) + u32::from(seconds))
    } else {
        None
    }
}

// The second of the day of six digits.
#[tactic(auto, unfolding(crate::specs::SettingsReading::second_in))]
fn second(word: &str) -> Option<u32>
    ensures value { result ≡ rule.second_in word.now }
    ensures range { IfSome result (λ n. n < 86400) }
{
    match word.as_bytes().as_array::<6>() {
        Some(digits) => second_at(digits),
        None => None,
    }
}

/// The moment of the first field, and what follows.
#[tactic(auto, unfolding(crate::specs::SettingsReading::begin_in))]
pub(crate) fn begin<'a>(text: &'a str) -> Option<(Begin, &'a str)>
    ensures { option_map (λ p. (begin_of p.0, p.1.now)) result ≡ rule.begin_in text.now }
{
    let (mjd, rest) = keyed_number(text, "at ", '/')?;
    let (word, rest) = cut(rest, ' ')?;
    let second = second(word)?;
    if mjd < 100_000 {
        Some((Begin { mjd, second }, rest))
    } else {
        None
    }
}

// Seconds of less than a day ahead of UTC, or behind it.
#[tactic(auto, unfolding(crate::specs::SettingsReading::ahead_in))]
fn ahead(word: &str) -> Option<i32>
    ensures { result ≡ rule.ahead_in word.now }
{
    if let Some(digits) = after(word, "-") {
        return match number(digits) {
            Some(seconds) if 0 < seconds && seconds < 86_400 => Some(-(seconds as i32)),
            _ => None,
        };
    }
    match number(word) {
        Some(seconds) if seconds < 86_400 => Some(seconds as i32),
        _ => None,
    }
}

/// How the clock is named.
#[tactic(auto, unfolding(crate::specs::SettingsReading::clock_in))]
pub(crate) fn clock<'a>(text: &'a str) -> Option<ClockName<'a>>
    ensures { option_map clock_of result ≡ rule.clock_in text.now }
{
    if let Some(name) = after(text, "zone ") {
        return Some(ClockName::Zone(name));
    }
    let seconds = ahead(after(text, "ahead ")?)?;
    Some(ClockName::Ahead(seconds))
}
