//! Odd parity, byte by byte.

ghost use Rattle.std.specs.Prelude.{◌≡◌, length};
ghost use Rattle.std.specs.List.{list_all};
ghost use Rattle.std.specs.Simd.Lanes.{zip2};
ghost use Rattle.ttx_code.specs.Words.{is_odd, stored};

use crate::parity::odd_of;

// Whether all bytes have odd parity.
pub(crate) fn all_odd(bytes: &[u8]) -> bool
    ensures { result ≡ list_all is_odd bytes.now }
{
    bytes.iter().all(|b| odd_of(*b).is_some())
}

// Stores the character of each byte that has odd parity, and leaves the places of the others unchanged.
pub(crate) fn strip(bytes: &[u8], codes: &mut [u8])
    requires { length bytes.now ≡ length codes.old }
    ensures { codes.new ≡ zip2 stored bytes.now codes.old }
{
    for i in 0..bytes.len() {
        if let Some(code) = odd_of(bytes[i]) {
            codes[i] = code;
        }
    }
}
