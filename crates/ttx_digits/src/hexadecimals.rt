//! Hexadecimal numbers.

ghost use Rattle.std.specs.Prelude.{◌≡◌, ◌≤◌, ◌<◌, ◌+◌, ◌/◌, ◌%◌, ◌++◌, length, IfSome, OnOk, string_bytes};
ghost use Rattle.ttx_digits.specs.Digits as rule;
ghost use Rattle.ttx_digits.specs.Digits.{hex_digit, hex_byte};

use std::alloc::AllocError;

// The value of each byte as a hexadecimal digit in capitals; 16 marks a byte that is no digit.
#[rattlefmt::skip]
static VALUES: [u8; 256] = [
    16, 16, 16, 16, 16, 16, 16, 16, 16, 16, 16, 16, 16, 16, 16, 16,
    16, 16, 16, 16, 16, 16, 16, 16, 16, 16, 16, 16, 16, 16, 16, 16,
    16, 16, 16, 16, 16, 16, 16, 16, 16, 16, 16, 16, 16, 16, 16, 16,
     0,  1,  2,  3,  4,  5,  6,  7,  8,  9, 16, 16, 16, 16, 16, 16,
    16, 10, 11, 12, 13, 14, 15, 16, 16, 16, 16, 16, 16, 16, 16, 16,
    16, 16, 16, 16, 16, 16, 16, 16, 16, 16, 16, 16, 16, 16, 16, 16,
    16, 16, 16, 16, 16, 16, 16, 16, 16, 16, 16, 16, 16, 16, 16, 16,
    16, 16, 16, 16, 16, 16, 16, 16, 16, 16, 16, 16, 16, 16, 16, 16,
    16, 16, 16, 16, 16, 16, 16, 16, 16, 16, 16, 16, 16, 16, 16, 16,
    16, 16, 16, 16, 16, 16, 16, 16, 16, 16, 16, 16, 16, 16, 16, 16,
    16, 16, 16, 16, 16, 16, 16, 16, 16, 16, 16, 16, 16, 16, 16, 16,
    16, 16, 16, 16, 16, 16, 16, 16, 16, 16, 16, 16, 16, 16, 16, 16,
    16, 16, 16, 16, 16, 16, 16, 16, 16, 16, 16, 16, 16, 16, 16, 16,
    16, 16, 16, 16, 16, 16, 16, 16, 16, 16, 16, 16, 16, 16, 16, 16,
    16, 16, 16, 16, 16, 16, 16, 16, 16, 16, 16, 16, 16, 16, 16, 16,
    16, 16, 16, 16, 16, 16, 16, 16, 16, 16, 16, 16, 16, 16, 16, 16,
];

/// The hexadecimal digit of a number below 16, in capitals.
pub fn digit(number: u8) -> char
    requires { number < 16 }
    ensures { result ≡ hex_digit number }
{
    if number < 10 {
        char::from(b'0' + number)
    } else {
        char::from(b'A' - 10 + number)
    }
}

/// Appends the two digits of a byte. `Err` if memory runs out.
pub fn push_byte(text: &mut String, byte: u8) -> Result<(), AllocError>
    ensures { OnOk result (string_bytes text.new ≡ string_bytes text.old ++ hex_byte byte) }
{
    text.push(digit(byte / 16))?;
    text.push(digit(byte % 16))
}

/// Appends the four digits of a subcode. `Err` if memory runs out.
pub fn push_subcode(text: &mut String, sub: u16) -> Result<(), AllocError>
    ensures { OnOk result (string_bytes text.new ≡ string_bytes text.old ++ hex_byte (sub / 256) ++ hex_byte (sub % 256)) }
{
    push_byte(text, (sub / 256) as u8)?;
    push_byte(text, (sub % 256) as u8)
}

// The value of a hexadecimal digit in capitals.
fn hex_in(byte: u8) -> Option<u8>
    ensures value { result ≡ rule.hex_in byte }
    ensures small { IfSome result (λ n. n < 16) }
{
    let value = VALUES[usize::from(byte)];
    if value < 16 { Some(value) } else { None }
}

/// The number in the two digits at bytes `at` and `at + 1`, high digit first; `None` if one of them is not a digit 0 to 9 or A to F.
#[tactic(auto, unfolding(crate::specs::Digits::two_digits))]
pub fn two_digits(text: &[u8], at: usize) -> Option<u8>
    requires { at + 2 ≤ length text.now }
    ensures { result ≡ rule.two_digits text.now at }
{
    let high = hex_in(text[at])?;
    let low = hex_in(text[at + 1])?;
    Some(16 * high + low)
}

/// The number in the four digits from byte `at` on, high digit first; `None` if one of them is not a digit 0 to 9 or A to F.
#[tactic(auto, unfolding(crate::specs::Digits::four_digits))]
pub fn four_digits(text: &[u8], at: usize) -> Option<u16>
    requires { at + 4 ≤ length text.now }
    ensures { result ≡ rule.four_digits text.now at }
{
    let high = two_digits(text, at)?;
    let low = two_digits(text, at + 2)?;
    Some(256 * high as u16 + low as u16)
}
