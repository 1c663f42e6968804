//! Writes packet 8/30 format 1.

ghost use Rattle.std.specs.Prelude.{◌≡◌, ◌<◌, ◌++◌, ◌∷◌, [], All, map};
ghost use Rattle.ttx_code.specs.Words.{odd_byte};
ghost use Rattle.ttx_info.specs.Infos.{half_byte, offset_byte, date_bytes, time_bytes, info_bytes};

use crate::fields::Info;
use ttx_code::{ham, odd};
use ttx_header::parts::put;
use ttx_links::write_link;
use ttx_packet::address;

// A decimal digit plus one; `unit` is 1 for the last digit, 10 for the one before it.
fn half_byte(n: u32, unit: u32) -> u8
    requires { 0 < unit }
    ensures value { result ≡ half_byte n unit }
    ensures range { result < 11 }
{
    (n / unit % 10) as u8 + 1
}

// Bytes 11 to 21: offset, date, time, and four bytes that readers ignore.
fn clock_of(info: &Info) -> [u8; 11]
    ensures { result ≡ offset_byte info.now.halves info.now.west ∷ date_bytes info.now.mjd
        ++ time_bytes info.now.utc ++ 0 ∷ 0 ∷ 0 ∷ 0 ∷ [] }
{
    let mjd = info.mjd();
    let utc = info.utc();
    let sign = if info.west() { 64 } else { 0 };
    [
        129 + 2 * info.halves() + sign,
        half_byte(mjd, 10_000),
        16 * half_byte(mjd, 1_000) + half_byte(mjd, 100),
        16 * half_byte(mjd, 10) + half_byte(mjd, 1),
        16 * half_byte(utc, 100_000) + half_byte(utc, 10_000),
        16 * half_byte(utc, 1_000) + half_byte(utc, 100),
        16 * half_byte(utc, 10) + half_byte(utc, 1),
        0,
        0,
        0,
        0,
    ]
}

// The bytes of the 20 characters, with odd parity.
fn characters(text: &[u8; 20]) -> [u8; 20]
    requires { All (λ c. c < 128) text.now }
    ensures { result ≡ map odd_byte text.now }
{
    let mut bytes = [0; 20];
    for i in 0..20 {
        bytes[i] = odd(text[i]);
    }
    bytes
}

/// The 42 bytes of packet 8/30 format 1 (EN 300 706, 9.8.1).
pub fn write_info(info: &Info) -> [u8; 42]
    ensures { result ≡ info_bytes info.now }
{
    let [low, high] = address(8, 30);
    let mut bytes = [0; 42];
    put(&mut bytes, 0, &[low, high, ham(info.designation())]);
    put(&mut bytes, 3, &write_link(8, info.initial()));
    put(&mut bytes, 9, &info.network());
    put(&mut bytes, 11, &clock_of(info));
    put(&mut bytes, 22, &characters(info.text()));
    bytes
}
