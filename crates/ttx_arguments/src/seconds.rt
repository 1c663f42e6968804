//! Seconds on the command line.

ghost use Rattle.std.specs.Prelude.{◌≡◌};
ghost use Rattle.ttx_digits.specs.Digits.{joined_digits};
ghost use Rattle.ttx_arguments.specs.Seconds as rule;

use crate::ranges::Fields;
use ttx_digits::{decimal_in, number, two_decimals};

// The hundredths in one or two decimals.
fn decimals_of(text: &[u8]) -> Option<u32>
    ensures { result ≡ rule.decimals_of text.now }
{
    match text.len() {
        1 => Some(10 * u32::from(decimal_in(text[0])?)),
        2 => Some(u32::from(two_decimals(text, 0)?)),
        _ => None,
    }
}

// A number of whole seconds and one of hundredths, in hundredths.
fn joined(whole: Option<u32>, part: Option<u32>) -> Option<u64>
    ensures { result ≡ joined_digits 100 whole part }
{
    let whole = u64::from(whole?);
    let part = u64::from(part?);
    Some(100 * whole + part)
}

// The hundredths of a second that a text is.
#[tactic(auto, unfolding(crate::specs::Seconds::hundredths_of))]
fn hundredths(text: &str) -> Option<u64>
    ensures { result ≡ rule.hundredths_of text.now }
{
    match text.split_once('.') {
        None => joined(number(text.as_bytes()), Some(0)),
        Some((whole, decimals)) => {
            joined(number(whole.as_bytes()), decimals_of(decimals.as_bytes()))
        }
    }
}

// The whole fields in so many hundredths of a second, from 0.02 to 20000 seconds.
fn whole_fields(hundredths: u64) -> Option<Fields>
    ensures { result ≡ rule.whole_fields hundredths }
{
    if hundredths < 2 || hundredths > 2_000_000 {
        return None;
    }
    Some(Fields::new((hundredths / 2) as u32))
}

/// The whole fields of 0.02 s in the seconds that a text is, from 0.02 to 20000.
#[tactic(auto, unfolding(crate::specs::Seconds::fields_of))]
pub(crate) fn fields_of(text: &str) -> Option<Fields>
    ensures { result ≡ rule.fields_of text.now }
{
    whole_fields(hundredths(text)?)
}
