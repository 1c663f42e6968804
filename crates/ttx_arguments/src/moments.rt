//! Moments on the command line.

ghost use Rattle.std.specs.Prelude.{◌≡◌, ◌≤◌, ◌<◌, ◌+◌, IfSome, length};
ghost use Rattle.ttx_digits.specs.Digits.{two_decimals};
ghost use Rattle.ttx_arguments.specs.Moments as rule;
ghost use Rattle.ttx_arguments.specs.Moments.{moment_of};

use std::marker::Model;
use ttx_digits::{decimal_in, two_decimals};

/// A Modified Julian Date of five digits, and a second of its day in UTC.
#[derive(Clone, Copy)]
pub struct Moment {
    mjd: u32,
    second: u32,
}

impl Model for Moment {
    ghost use Rattle.std.specs.Prelude.{◌<◌, ℕ};

    ghost Value = { ℕ × ℕ };

    ghost view = { λ m. (m.mjd, m.second) };

    ghost inverse = { λ v. record { mjd = v.0; second = v.1 } };

    ghost invariant = { λ m. (m.mjd < 100000) × (m.second < 86400) };
}

impl Moment {
    /// The Modified Julian Date, below 100,000.
    pub fn mjd(&self) -> u32
        ensures value { result ≡ self.now.0 }
        ensures to { result < 100000 }
    {
        self.mjd
    }

    /// The second of the day, below 86,400.
    pub fn second(&self) -> u32
        ensures value { result ≡ self.now.1 }
        ensures to { result < 86400 }
    {
        self.second
    }
}

// The two digits from a place on, where their number is below the limit.
fn below(text: &[u8], at: usize, limit: u8) -> Option<u32>
    requires { at + 2 ≤ length text.now }
    ensures value { result ≡ rule.below limit (two_decimals text.now at) }
    ensures range { IfSome result (λ n. (n < 100) × (n < limit)) }
{
    match two_decimals(text, at) {
        Some(number) if number < limit => Some(u32::from(number)),
        _ => None,
    }
}

// The date, of five digits.
fn date(text: &[u8]) -> Option<u32>
    requires { 5 ≤ length text.now }
    ensures value { result ≡ rule.date_of text.now }
    ensures range { IfSome result (λ n. n < 100000) }
{
    let first = u32::from(decimal_in(text[0])?);
    let high = u32::from(two_decimals(text, 1)?);
    let low = u32::from(two_decimals(text, 3)?);
    Some(10_000 * first + (100 * high + low))
}

// The second of the day, of six digits behind the slash.
fn second(text: &[u8]) -> Option<u32>
    requires { 12 ≤ length text.now }
    ensures value { result ≡ rule.second_of text.now }
    ensures range { IfSome result (λ n. n < 86400) }
{
    let hours = below(text, 6, 24)?;
    let minutes = below(text, 8, 60)?;
    let seconds = below(text, 10, 60)?;
    Some(3600 * hours + (60 * minutes + seconds))
}

/// Whether a text has the form of `MJD/HHMMSS`.
pub(crate) fn is_dated(text: &[u8]) -> bool
    ensures { result ≡ rule.is_dated text.now }
{
    text.len() == 12 && text[5] == b'/'
}

/// The moment that `MJD/HHMMSS` names.
#[tactic(auto, unfolding(crate::specs::Moments::moment_of))]
pub(crate) fn moment_of(text: &str) -> Option<Moment>
    ensures { result ≡ moment_of text.now }
{
    let text = text.as_bytes();
    if !is_dated(text) {
        return None;
    }
    let mjd = date(text)?;
    let second = second(text)?;
    Some(Moment { mjd, second })
}
