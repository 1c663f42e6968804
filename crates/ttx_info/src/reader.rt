//! Reads packet 8/30 format 1.

ghost use Rattle.std.specs.Prelude.{◌≡◌, ◌-◌, ◌<◌, ◌%◌, true, IfSome, SomeIff, IfOk, slice_range, map};
ghost use Rattle.std.specs.List.{list_all};
ghost use Rattle.ttx_code.specs.Words.{is_odd};
ghost use Rattle.ttx_info.specs.Infos.{is_half_digit, are_clock_digits, date_digits, time_digits, value_of, DecidesLink, info_of};

use crate::faults::InfoFault;
use crate::fields::Info;
use ttx_code::{odd_of, unham};
use ttx_links::{Target, read_link};

// Whether each half byte is a digit plus one.
fn are_digits(halves: &[u8]) -> bool
    ensures { result ≡ list_all is_half_digit halves.now }
{
    halves.iter().all(|half| 1 <= *half && *half <= 10)
}

// The digit that a half byte stands for.
fn digit(half: u8) -> u32
    ensures value { result ≡ half - 1 }
    ensures range { result < 256 }
{
    u32::from(half.saturating_sub(1))
}

// The Modified Julian Date. `None` if one of its half bytes is not a digit plus one.
fn date_of(bytes: &[u8; 42]) -> Option<u32>
    ensures value { SomeIff result (list_all is_half_digit (date_digits bytes.now) ≡ true) (value_of (date_digits bytes.now)) }
    ensures range { IfSome result (λ mjd. mjd < 100000) }
{
    let [a, b, c] = [bytes[12], bytes[13], bytes[14]];
    if !are_digits(&[a % 16, b / 16, b % 16, c / 16, c % 16]) {
        return None;
    }
    let high = 10_000 * digit(a % 16) + 1_000 * digit(b / 16) + 100 * digit(b % 16);
    Some(high + 10 * digit(c / 16) + digit(c % 16))
}

// UTC. `None` if one of its half bytes is not a digit plus one.
fn time_of(bytes: &[u8; 42]) -> Option<u32>
    ensures value { SomeIff result (list_all is_half_digit (time_digits bytes.now) ≡ true) (value_of (time_digits bytes.now)) }
    ensures range { IfSome result (λ utc. utc < 1000000) }
{
    let [a, b, c] = [bytes[15], bytes[16], bytes[17]];
    if !are_digits(&[a / 16, a % 16, b / 16, b % 16, c / 16, c % 16]) {
        return None;
    }
    let high = 100_000 * digit(a / 16) + 10_000 * digit(a % 16) + 1_000 * digit(b / 16);
    Some(high + 100 * digit(b % 16) + 10 * digit(c / 16) + digit(c % 16))
}

// Whether all bytes have odd parity.
fn are_odd(bytes: &[u8]) -> bool
    ensures { result ≡ list_all is_odd bytes.now }
{
    bytes.iter().all(|b| odd_of(*b).is_some())
}

// The codes of the 20 characters.
fn text_of(bytes: &[u8; 42]) -> [u8; 20]
    ensures { result ≡ map (λ b. b % 128) (slice_range bytes.now 22 42) }
{
    let mut text = [0; 20];
    for i in 0..20 {
        text[i] = bytes[22 + i] % 128;
    }
    text
}

fn network_of(bytes: &[u8; 42]) -> [u8; 2]
    ensures { result ≡ slice_range bytes.now 9 11 }
{
    let mut network = [0; 2];
    network.copy_from_slice(&bytes[9..11]);
    network
}

// The date and the time. `None` if one of their half bytes is not a digit plus one.
fn date_and_time(bytes: &[u8; 42]) -> Option<(u32, u32)>
    ensures value { SomeIff result (are_clock_digits bytes.now ≡ true) (value_of (date_digits bytes.now), value_of (time_digits bytes.now)) }
    ensures range { IfSome result (λ clock. (clock.0 < 100000) × (clock.1 < 1000000)) }
{
    match (date_of(bytes), time_of(bytes)) {
        (Some(mjd), Some(utc)) => Some((mjd, utc)),
        _ => None,
    }
}

// The designation and the initial page, or the first fault of bytes 2 to 8.
#[tactic(auto, unfolding(crate::specs::Infos::info_of))]
fn designation_and_initial(bytes: &[u8; 42]) -> Result<(u8, Option<Target>), InfoFault>
    ensures value { DecidesLink bytes.now result }
    ensures range { IfOk result (λ link. link.0 < 2) }
{
    let Some(designation) = unham(bytes[2]) else {
        return Err(InfoFault::Hamming);
    };
    if designation > 1 {
        return Err(InfoFault::Designation);
    }
    match read_link(8, bytes, 3) {
        Some(initial) => Ok((designation, initial)),
        None => Err(InfoFault::Hamming),
    }
}

/// Reads the fields of packet 8/30 format 1 from bytes 2 to 41 (EN 300 706, 9.8.1). The address is not looked at.
///
/// The first of these faults is returned: byte 2 unreadable (`Hamming`), a designation above 1 (`Designation`), one of bytes
/// 3 to 8 unreadable (`Hamming`), a half byte of date or time that is not 1 to 10 (`Digit`), a character with even parity
/// (`Parity`).
#[tactic(auto, unfolding(crate::specs::Infos::info_behind_link))]
pub fn read_info(bytes: &[u8; 42]) -> Result<Info, InfoFault>
    ensures { result ≡ info_of bytes.now }
{
    let (designation, initial) = designation_and_initial(bytes)?;
    let Some((mjd, utc)) = date_and_time(bytes) else {
        return Err(InfoFault::Digit);
    };
    if !are_odd(&bytes[22..42]) {
        return Err(InfoFault::Parity);
    }
    Ok(Info {
        designation,
        initial,
        network: network_of(bytes),
        halves: bytes[11] / 2 % 32,
        west: bytes[11] / 64 % 2 == 1,
        mjd,
        utc,
        text: text_of(bytes),
    })
}
