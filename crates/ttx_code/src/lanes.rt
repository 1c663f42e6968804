//! Odd parity, 32 bytes at once.

ghost use Rattle.std.specs.Prelude.{◌≡◌, ◌%◌, length, map, not};
ghost use Rattle.std.specs.List.{list_all};
ghost use Rattle.std.specs.Simd.Lanes.{mask_l, zip2};
ghost use Rattle.ttx_code.specs.Words.{ones, is_odd, stored};

use std::simd::prelude::*;

// The parity of each of 32 bytes. Each step folds the bits of a byte: to four, to two, to one.
fn parities(bytes: &[u8]) -> u8x32
    requires { length bytes.now ≡ 32 }
    ensures { result ≡ map (λ b. ones b % 2) bytes.now }
{
    let all = u8x32::from_slice(bytes);
    let halves = all ^ (all >> u8x32::splat(4));
    let quarters = halves ^ (halves >> u8x32::splat(2));
    let eighths = quarters ^ (quarters >> u8x32::splat(1));
    eighths & u8x32::splat(1)
}

// One bit for each of 32 bytes: 1 if the byte has even parity.
fn even_mask(bytes: &[u8]) -> u64
    requires { length bytes.now ≡ 32 }
    ensures { result ≡ mask_l (map (λ b. not (is_odd b)) bytes.now) }
{
    parities(bytes).simd_eq(u8x32::splat(0)).to_bitmask()
}

// Whether all 32 bytes have odd parity.
pub(crate) fn all_odd(bytes: &[u8]) -> bool
    requires { length bytes.now ≡ 32 }
    ensures { result ≡ list_all is_odd bytes.now }
{
    even_mask(bytes) == 0
}

// Stores the character of each of the 32 bytes that has odd parity, and leaves the places of the others unchanged.
pub(crate) fn strip(bytes: &[u8], codes: &mut [u8])
    requires bytes { length bytes.now ≡ 32 }
    requires codes { length codes.old ≡ 32 }
    ensures { codes.new ≡ zip2 stored bytes.now codes.old }
{
    let former = u8x32::from_slice(codes);
    let sent = u8x32::from_slice(bytes) & u8x32::splat(127);
    parities(bytes)
        .simd_eq(u8x32::splat(1))
        .select(sent, former)
        .copy_to_slice(codes);
}
