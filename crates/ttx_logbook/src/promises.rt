//! What viewers are promised, the lines of a field, and how many fields are sent.

ghost use Rattle.std.specs.Prelude.{◌≡◌, ◌≤◌, ◌<◌, IfSome, option_map};
ghost use Rattle.ttx_logbook.specs.Views.{promise_of, size_of};
ghost use Rattle.ttx_logbook.specs.SettingsReading as rule;

use crate::cuts::after;
use crate::numbers::keyed_number;
use crate::values::{Promise, Size};

// Whether the first of two keys stands here, or the second one; and what follows.
#[tactic(auto, unfolding(crate::specs::SettingsReading::either))]
fn either<'a>(text: &'a str, first: &str, second: &str) -> Option<(bool, &'a str)>
    ensures { option_map (λ p. (p.0, p.1.now)) result ≡ rule.either first.now second.now text.now }
{
    if let Some(rest) = after(text, first) {
        return Some((true, rest));
    }
    match after(text, second) {
        Some(rest) => Some((false, rest)),
        None => None,
    }
}

// The number, 1 to the most, after a key and before a space.
#[tactic(auto, unfolding(crate::specs::SettingsReading::ranged_number))]
fn ranged_number<'a>(text: &'a str, key: &str, most: u32) -> Option<(u32, &'a str)>
    ensures value { option_map (λ p. (p.0, p.1.now)) result ≡ rule.ranged_number key.now most text.now }
    ensures range { IfSome result (λ p. (1 ≤ p.0) × (p.0 ≤ most)) }
{
    let (number, rest) = keyed_number(text, key, ' ')?;
    if 1 <= number && number <= most {
        Some((number, rest))
    } else {
        None
    }
}

/// What viewers are promised, and what follows.
#[tactic(auto, unfolding(crate::specs::SettingsReading::promise_in))]
pub(crate) fn promise<'a>(text: &'a str) -> Option<(Promise, &'a str)>
    ensures { option_map (λ p. (promise_of p.0, p.1.now)) result ≡ rule.promise_in text.now }
{
    let (within, rest) = ranged_number(text, "air within ", 1_000_000)?;
    let (repeat, rest) = ranged_number(rest, "repeat ", 8)?;
    let (late, rest) = either(rest, "late ", "at-once ")?;
    let (spread, rest) = either(rest, "spread ", "plain ")?;
    let promise = Promise {
        within,
        repeat: repeat as u8,
        late,
        spread,
    };
    Some((promise, rest))
}

/// The lines of a field, and how many fields are sent; and what follows.
#[tactic(auto, unfolding(crate::specs::SettingsReading::size_in))]
pub(crate) fn size<'a>(text: &'a str) -> Option<(Size, &'a str)>
    ensures { option_map (λ p. (size_of p.0, p.1.now)) result ≡ rule.size_in text.now }
{
    let (lines, rest) = keyed_number(text, "lines ", ' ')?;
    let (fields, rest) = keyed_number(rest, "fields ", ' ')?;
    Some((Size { lines, fields }, rest))
}
