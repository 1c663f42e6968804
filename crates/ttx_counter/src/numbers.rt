//! The numbers in a text.

ghost use Rattle.std.specs.Prelude.{◌≡◌, ◌∷◌, [], ◌++◌, true, length, map, take, drop, slice_index, IfOk, OnOk};
ghost use Rattle.ttx_counter.specs.CounterReading.{is_digit, at_most, digit_after, closed, line_numbers, is_one};

use std::alloc::Global;
use ttx_witness::NoMemory;

fn is_digit(byte: u8) -> bool
    ensures { result ≡ is_digit byte }
{
    b'0' <= byte && byte <= b'9'
}

// A number, limited to 2^32 - 1.
fn clipped(number: u64) -> u32
    ensures { result ≡ at_most 4294967295 number }
{
    if number < 4_294_967_295 {
        number as u32
    } else {
        4_294_967_295
    }
}

// The number after one more digit, limited to 2^32 - 1.
fn digit_after(begun: Option<u32>, byte: u8) -> u32
    requires { is_digit byte ≡ true }
    ensures { result ≡ digit_after begun byte }
{
    let digit = byte - b'0';
    match begun {
        Some(number) => clipped(10 * u64::from(number) + u64::from(digit)),
        None => u32::from(digit),
    }
}

// Appends the number that has ended, if one has.
fn keep(numbers: &mut Vec<u32>, ended: Option<u32>) -> Result<(), NoMemory>
    ensures { OnOk result (numbers.new.items ≡ numbers.old.items ++ closed ended []) }
{
    if let Some(number) = ended {
        if numbers.push(number).is_err() {
            return Err(NoMemory);
        }
    }
    Ok(())
}

/// The numbers in a text: its runs of digits. A number of 2^32 or more becomes 2^32 - 1.
#[tactic(auto, unfolding(crate::specs::CounterReading::numbers_after), using(crate::proofs::ReadParts::closed_more))]
pub fn line_numbers(alloc: Global, bytes: &[u8]) -> Result<Vec<u32>, NoMemory>
    ensures { IfOk result (λ numbers. numbers.items ≡ line_numbers bytes.now) }
{
    let mut numbers = Vec::new(alloc);
    let mut begun = None;
    for byte in bytes {
        if is_digit(*byte) {
            begun = Some(digit_after(begun, *byte));
        } else {
            keep(&mut numbers, begun)?;
            begun = None;
        }
    }
    keep(&mut numbers, begun)?;
    Ok(numbers)
}

/// The number at an index; 0 beyond the end.
pub fn number_at(numbers: &[u32], place: usize) -> u32
    ensures { result ≡ slice_index numbers.now place }
{
    if place < numbers.len() {
        numbers[place]
    } else {
        0
    }
}

/// The first `count` numbers, or all if there are fewer.
#[tactic(auto, using(crate::proofs::ReadParts::all_of))]
pub fn first_of(numbers: &[u32], count: usize) -> &[u32]
    ensures { result.now ≡ take count numbers.now }
{
    if count < numbers.len() {
        &numbers[..count]
    } else {
        numbers
    }
}

/// The numbers after the first `count`.
#[tactic(auto, using(crate::proofs::ReadParts::past_end))]
pub fn after_first(numbers: &[u32], count: usize) -> &[u32]
    ensures { result.now ≡ drop count numbers.now }
{
    if count < numbers.len() {
        &numbers[count..]
    } else {
        &numbers[numbers.len()..]
    }
}

/// Whether a number is not 0.
pub fn is_one(number: u32) -> bool
    ensures { result ≡ is_one number }
{
    number != 0
}
