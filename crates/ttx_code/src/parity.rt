//! Odd parity (EN 300 706, 8.1): a character of seven bits in a byte with an odd number of ones. Bit 0 is the lowest.

ghost use Rattle.std.specs.Prelude.{◌≡◌, ◌<◌, ◌%◌, ◌↔◌, IsTrue, SomeIff, All};
ghost use Rattle.std.specs.Simd.Lanes.{zip2};
ghost use Rattle.ttx_code.specs.Words.{IsOdd, odd_byte, stored};

use crate::{lanes, plain};

// The byte that sends each character.
#[rattlefmt::skip]
static ODD_BYTES: [u8; 128] = [
    128,   1,   2, 131,   4, 133, 134,   7,   8, 137, 138,  11, 140,  13,  14, 143,
     16, 145, 146,  19, 148,  21,  22, 151, 152,  25,  26, 155,  28, 157, 158,  31,
     32, 161, 162,  35, 164,  37,  38, 167, 168,  41,  42, 171,  44, 173, 174,  47,
    176,  49,  50, 179,  52, 181, 182,  55,  56, 185, 186,  59, 188,  61,  62, 191,
     64, 193, 194,  67, 196,  69,  70, 199, 200,  73,  74, 203,  76, 205, 206,  79,
    208,  81,  82, 211,  84, 213, 214,  87,  88, 217, 218,  91, 220,  93,  94, 223,
    224,  97,  98, 227, 100, 229, 230, 103, 104, 233, 234, 107, 236, 109, 110, 239,
    112, 241, 242, 115, 244, 117, 118, 247, 248, 121, 122, 251, 124, 253, 254, 127,
];

/// The byte that sends a character below 128: bits 0 to 6 hold the character, and bit 7 makes the parity odd.
pub fn odd(c: u8) -> u8
    requires { c < 128 }
    ensures { result ≡ odd_byte c }
{
    ODD_BYTES[usize::from(c)]
}

/// The character that the byte sends; `None` if its parity is even.
pub fn odd_of(b: u8) -> Option<u8>
    ensures { SomeIff result (IsOdd b) (b % 128) }
{
    if b.count_ones() % 2 == 1 {
        Some(b % 128)
    } else {
        None
    }
}

/// Whether all 40 bytes have odd parity.
pub fn all_odd(bytes: &[u8; 40]) -> bool
    ensures { IsTrue result ↔ All IsOdd bytes.now }
{
    // 32 bytes at once, then the last eight one by one
    let (block, rest) = bytes.split_at(32);
    lanes::all_odd(block) && plain::all_odd(rest)
}

/// Stores the character of each byte that has odd parity, and leaves the places of the others unchanged.
pub fn strip(bytes: &[u8; 40], codes: &mut [u8; 40])
    ensures { codes.new ≡ zip2 stored bytes.now codes.old }
{
    let (block, rest) = bytes.split_at(32);
    let (codes_of_block, codes_of_rest) = codes.split_at_mut(32);
    lanes::strip(block, codes_of_block);
    plain::strip(rest, codes_of_rest);
}
