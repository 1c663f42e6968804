//! Texts of characters, page numbers, subcodes and links.

ghost use Rattle.std.specs.Prelude.{◌≡◌, ◌≢◌, ◌≤◌, ◌<◌, ◌+◌, ◌-◌, ◌++◌, length, replicate, nat_lt, slice_index, ℕ, Err, IfSome, IfOk};
ghost use Rattle.std.specs.List.{list_all};
ghost use Rattle.std.specs.Str.{chars};
ghost use Rattle.ttx_header.specs.Ids.{IsSubcode};
ghost use Rattle.ttx_source.specs.Values as rule;
ghost use Rattle.ttx_source.specs.KeyFaults.{key_outcome, key_fault_of, key_name};

use crate::key_faults::KeyFault;
use crate::keys::Key;
use ttx_digits::{first_number, four_digits, two_digits};
use ttx_links::Target;

/// The subcode that means any subpage in a link.
pub const ANY_SUBCODE: u16 = 0x3F7F;

// The number of characters in a text.
fn char_count(text: &str) -> usize
    ensures { result ≡ length (chars text.now) }
{
    text.chars().count()
}

// Whether all bytes are below 128, that is, bit 7 is not set in their union.
fn is_plain(bytes: &[u8]) -> bool
    ensures { result ≡ list_all (λ b. nat_lt b 128) bytes.now }
{
    let mut union = 0;
    for i in 0..bytes.len() {
        union |= bytes[i];
    }
    union < 128
}

// The fault of a text that has more bytes than it may have characters.
fn long_fault(text: &str, most: usize) -> KeyFault
    requires { most < length text.now }
    ensures { Err (key_fault_of result) ≡ rule.characters most text.now }
{
    if char_count(text) > most {
        KeyFault::RowTooLong
    } else {
        KeyFault::Character
    }
}

fn spaces<const N: usize>() -> [u8; N]
    ensures { result ≡ replicate N 32 }
{
    [b' '; N]
}

// Writes the bytes, filled with spaces at the end.
fn pad<const N: usize>(codes: &mut [u8; N], bytes: &[u8])
    requires { length bytes.now ≤ N }
    ensures { codes.new ≡ bytes.now ++ replicate (N - length bytes.now) 32 }
{
    *codes = spaces();
    codes[..bytes.len()].copy_from_slice(bytes);
}

/// Writes the character codes of a text of at most `N` characters, filled with spaces. `RowTooLong` or `Character` otherwise.
pub fn write_characters<const N: usize>(codes: &mut [u8; N], text: &str) -> Result<(), KeyFault>
    ensures value { key_outcome (λ _. codes.new) result ≡ rule.characters N text.now }
    ensures codes { IfOk result (λ _. (c : ℕ) → slice_index codes.new c < 128) }
{
    let bytes = text.as_bytes();
    if bytes.len() > N {
        return Err(long_fault(text, N));
    }
    pad(codes, bytes);
    if is_plain(codes) {
        Ok(())
    } else {
        Err(KeyFault::Character)
    }
}

/// The character codes of a text of at most `N` characters, filled with spaces. `RowTooLong` or `Character` otherwise.
pub fn characters<const N: usize>(text: &str) -> Result<[u8; N], KeyFault>
    ensures value { key_outcome (λ r. r) result ≡ rule.characters N text.now }
    ensures codes { IfOk result (λ row. (c : ℕ) → slice_index row c < 128) }
{
    let mut codes = spaces();
    write_characters(&mut codes, text)?;
    Ok(codes)
}

/// The magazine and the page number of a text `MPP`; `PageNumber` if it is not one.
#[tactic(auto, unfolding(crate::specs::Values::page_number))]
pub fn page_number(text: &str) -> Result<(u8, u8), KeyFault>
    ensures value { key_outcome (λ n. n) result ≡ rule.page_number text.now }
    ensures ranges { IfOk result (λ n. (1 ≤ n.0) × (n.0 ≤ 8) × (n.1 ≢ 0xff)) }
{
    let text = text.as_bytes();
    if text.len() != 3 {
        return Err(KeyFault::PageNumber);
    }
    match first_number(text) {
        None => Err(KeyFault::PageNumber),
        Some(number) => Ok(number),
    }
}

// Whether a number is inside the mask 3F7F.
fn is_inside_mask(sub: u16) -> bool
    ensures { result ≡ rule.is_inside_mask sub }
{
    sub < 0x4000 && sub / 128 % 2 == 0
}

/// The subcode of a page, four hexadecimal digits; `Subcode` if it is not one, is outside 3F7F, or is 3F7F.
#[tactic(auto, unfolding(crate::specs::Values::subcode))]
pub fn subcode(text: &str) -> Result<u16, KeyFault>
    ensures value { key_outcome (λ n. n) result ≡ rule.subcode text.now }
    ensures ranges { IfOk result (λ sub. IsSubcode sub × (sub ≢ 0x3f7f)) }
{
    let text = text.as_bytes();
    if text.len() != 4 {
        return Err(KeyFault::Subcode);
    }
    match four_digits(text, 0) {
        Some(sub) if is_inside_mask(sub) && sub != ANY_SUBCODE => Ok(sub),
        _ => Err(KeyFault::Subcode),
    }
}

/// Two bytes from four hexadecimal digits; `Range` with the key if the text is not that.
#[tactic(auto, unfolding(crate::specs::Values::byte_pair))]
pub fn byte_pair(text: &str, key: Key) -> Result<[u8; 2], KeyFault>
    ensures { key_outcome (λ b. b) result ≡ rule.byte_pair (key_name key) text.now }
{
    let text = text.as_bytes();
    if text.len() != 4 {
        return Err(KeyFault::Range { key });
    }
    match (two_digits(text, 0), two_digits(text, 2)) {
        (Some(high), Some(low)) => Ok([high, low]),
        _ => Err(KeyFault::Range { key }),
    }
}

// The target of a link, from both parts of its text, if they are numbers.
fn target(number: Option<(u8, u8)>, sub: Option<u16>) -> Result<Option<Target>, KeyFault>
    requires { IfSome number (λ n. (1 ≤ n.0) × (n.0 ≤ 8) × (n.1 ≢ 0xff)) }
    ensures { key_outcome (λ l. l) result ≡ rule.link_to number sub }
{
    let (Some((mag, page)), Some(sub)) = (number, sub) else {
        return Err(KeyFault::PageNumber);
    };
    match Target::new(mag, page, sub) {
        None => Err(KeyFault::Subcode),
        Some(target) => Ok(Some(target)),
    }
}

/// A link: an empty text is no link, `MPP` is any subpage, `MPP/SSSS` is one subpage.
#[tactic(auto, unfolding(crate::specs::Values::link))]
pub fn link(text: &str) -> Result<Option<Target>, KeyFault>
    ensures { key_outcome (λ l. l) result ≡ rule.link text.now }
{
    let text = text.as_bytes();
    match text.len() {
        0 => Ok(None),
        3 => target(first_number(text), Some(ANY_SUBCODE)),
        8 if text[3] == b'/' => target(first_number(text), four_digits(text, 4)),
        _ => Err(KeyFault::PageNumber),
    }
}
