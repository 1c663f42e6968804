//! Decimal numbers.

ghost use Rattle.std.specs.Prelude.{ℕ, ◌≡◌, ◌≤◌, ◌<◌, ◌+◌, ◌*◌, ◌++◌, length, slice_range, slice_index, take, true, false, Some, None, if◌then◌else◌, IfSome, OnOk, string_bytes};
ghost use Rattle.std.specs.Fmt.{decimal};
ghost use Rattle.std.specs.Str.{IsAscii};
ghost use Rattle.ttx_digits.specs.Digits as rule;
ghost use Rattle.ttx_digits.specs.Digits.{are_digits, is_between, decimal_after, number_in_word};

use itoa::Buffer;
use std::alloc::AllocError;

// The numbers below 100, two digits each.
fn pairs() -> &'static str
    ensures length { length result.now ≡ 200 }
    ensures ascii { IsAscii result.now }
    ensures ones { (n : ℕ) → n < 10 → slice_range result.now (2 * n + 1) (2 * n + 2) ≡ decimal n }
    ensures tens { (n : ℕ) → 10 ≤ n → n < 100 → slice_range result.now (2 * n) (2 * n + 2) ≡ decimal n }
{
    "00010203040506070809101112131415161718192021222324252627282930313233343536373839404142434445464748495051525354555657585960616263646566676869707172737475767778798081828384858687888990919293949596979899"
}

// The digit of a number below 10.
fn one_digit(number: usize) -> &'static str
    requires { number < 10 }
    ensures { result.now ≡ decimal number }
{
    &pairs()[2 * number + 1..2 * number + 2]
}

// The digits of a number from 10 to 99.
fn two_digits(number: usize) -> &'static str
    requires low { 10 ≤ number }
    requires high { number < 100 }
    ensures { result.now ≡ decimal number }
{
    &pairs()[2 * number..2 * number + 2]
}

/// Appends a number in decimal digits. `Err` if memory runs out.
pub fn push_decimal(text: &mut String, number: usize) -> Result<(), AllocError>
    ensures { OnOk result (string_bytes text.new ≡ string_bytes text.old ++ decimal number) }
{
    if number < 10 {
        text.push_str(one_digit(number))
    } else if number < 100 {
        text.push_str(two_digits(number))
    } else {
        text.push_str(Buffer::new().format(number))
    }
}

/// Appends a number below 10 as one digit. `Err` if memory runs out.
#[tactic(auto, using(std::proofs::lemmas::Fmt::decimal_digit))]
pub fn push_digit(text: &mut String, digit: u8) -> Result<(), AllocError>
    requires { digit < 10 }
    ensures { OnOk result (string_bytes text.new ≡ string_bytes text.old ++ decimal digit) }
{
    text.push(char::from(b'0' + digit))
}

/// The value of a decimal digit, 0 to 9; `None` if the byte is not a digit.
#[tactic(auto, unfolding(crate::specs::Digits::decimal_in))]
pub fn decimal_in(byte: u8) -> Option<u8>
    ensures value { result ≡ rule.decimal_in byte }
    ensures range { IfSome result (λ n. n < 10) }
{
    match byte {
        b'0'..=b'9' => Some(byte - b'0'),
        _ => None,
    }
}

/// The number, 0 to 99, in the two decimal digits at bytes `at` and `at + 1`; `None` if one of them is not a digit.
#[tactic(auto, unfolding(crate::specs::Digits::two_decimals))]
pub fn two_decimals(text: &[u8], at: usize) -> Option<u8>
    requires { at + 2 ≤ length text.now }
    ensures value { result ≡ rule.two_decimals text.now at }
    ensures range { IfSome result (λ n. n < 100) }
{
    let high = decimal_in(text[at])?;
    let low = decimal_in(text[at + 1])?;
    Some(10 * high + low)
}

// The number with these digits; `None` if a byte is not a digit.
#[tactic(auto, unfolding(crate::specs::Digits::decimal_in))]
fn value_of(digits: &[u8]) -> Option<u32>
    requires few { length digits.now ≤ 7 }
    ensures { result ≡ (if are_digits digits.now then Some (decimal_after 0 digits.now) else None) }
{
    let mut value = 0;
    for digit in digits {
        value = 10 * value + u32::from(decimal_in(*digit)?);
    }
    Some(value)
}

/// How many digits a text begins with, counted up to 7, and the number that they stand for.
#[tactic(auto, unfolding(crate::specs::Digits::decimal_in))]
pub fn leading_digits(text: &[u8]) -> (usize, u32)
    ensures few { result.0 ≤ 7 }
    ensures within { result.0 ≤ length text.now }
    ensures digits { are_digits (take result.0 text.now) ≡ true }
    ensures value { result.1 ≡ decimal_after 0 (take result.0 text.now) }
    ensures end { result.0 < 7 → result.0 < length text.now → is_between 48 57 (slice_index text.now result.0) ≡ false }
{
    let mut count = 0;
    let mut number = 0;
    while count < 7 && count < text.len() {
        let Some(digit) = decimal_in(text[count]) else {
            return (count, number);
        };
        number = 10 * number + u32::from(digit);
        count += 1;
    }
    (count, number)
}

/// Reads a decimal number below 10,000,000. `None` if the word is not 1 to 7 digits without a leading zero.
pub fn number(word: &[u8]) -> Option<u32>
    ensures value { result ≡ number_in_word word.now }
{
    let has_leading_zero = 1 < word.len() && word[0] == b'0';
    if word.is_empty() || word.len() > 7 || has_leading_zero {
        return None;
    }
    value_of(word)
}
