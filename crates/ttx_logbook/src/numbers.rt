//! Numbers in a log.

ghost use Rattle.std.specs.Prelude.{◌≡◌, ◌≤◌, ◌<◌, ◌^◌, ℤ, pos, neg_ℤ, length, Some, None, if◌then◌else◌, IfSome, option_map};
ghost use Rattle.ttx_digits.specs.Digits.{are_digits, decimal_after};
ghost use Rattle.ttx_logbook.specs.Numbers as rule;

use crate::cuts::{after, cut};
use ttx_digits::decimal_in;

// The number with these digits; `None` if a byte is not a digit.
#[tactic(auto, unfolding(ttx_digits::specs::Digits::decimal_in))]
fn value_of(digits: &[u8]) -> Option<u64>
    requires { length digits.now ≤ 10 }
    ensures { result ≡ (if are_digits digits.now then Some (decimal_after 0 digits.now) else None) }
{
    let mut value = 0;
    for digit in digits {
        value = 10 * value + u64::from(decimal_in(*digit)?);
    }
    Some(value)
}

// A number below 2^32 in decimal. `None` if the word is not 1 to 10 digits without a leading zero, or the number is too large.
#[tactic(auto, unfolding(crate::specs::Numbers::number_in))]
pub(crate) fn number(word: &str) -> Option<u32>
    ensures { result ≡ rule.number_in word.now }
{
    let bytes = word.as_bytes();
    let has_leading_zero = 1 < bytes.len() && bytes[0] == b'0';
    if bytes.is_empty() || bytes.len() > 10 || has_leading_zero {
        return None;
    }
    let value = value_of(bytes)?;
    if value < 0x1_0000_0000 {
        Some(value as u32)
    } else {
        None
    }
}

// The number before the next such character, after a key, and what follows.
#[tactic(auto, unfolding(crate::specs::Numbers::keyed_number))]
pub(crate) fn keyed_number<'a>(text: &'a str, key: &str, mark: char) -> Option<(u32, &'a str)>
    requires { mark < 128 }
    ensures { option_map (λ p. (p.0, p.1.now)) result ≡ rule.keyed_number key.now mark text.now }
{
    let rest = after(text, key)?;
    let (word, rest) = cut(rest, mark)?;
    let number = number(word)?;
    Some((number, rest))
}
