//! Whether 42 bytes read as a packet of teletext.

ghost use Rattle.std.specs.Prelude.{◌≡◌, ◌≤◌, ◌*◌, nat_le, length, drop, slice_range};
ghost use Rattle.ttx_code.specs.Words.{is_odd};
ghost use Rattle.ttx_packet.specs.Slots.{is_empty, are_words};
ghost use Rattle.ttx_recognition.specs.Packets.{odd_to, is_text, reads};

use ttx_code::{is_word, odd_of};
use ttx_packet::{Slot, slot_of};

// Whether a byte has odd parity.
fn is_odd(byte: u8) -> bool
    ensures { result ≡ is_odd byte }
{
    odd_of(byte).is_some()
}

// How many bytes have odd parity.
#[tactic(auto, unfolding(crate::specs::Packets::odd_to))]
fn odd_bytes(bytes: &[u8]) -> usize
    ensures odd { result ≡ odd_to bytes.now (length bytes.now) }
    ensures few { result ≤ length bytes.now }
{
    let mut count = 0;
    for i in 0..bytes.len() {
        if is_odd(bytes[i]) {
            count += 1;
        }
    }
    count
}

// Whether `odd` is at least three quarters of `count`.
fn are_most(odd: usize, count: usize) -> bool
    requires few { count ≤ 42 }
    requires odd { odd ≤ count }
    ensures { result ≡ nat_le (3 * count) (4 * odd) }
{
    3 * count <= 4 * odd
}

// Whether at least three bytes of four have odd parity.
fn is_text(bytes: &[u8]) -> bool
    requires { length bytes.now ≤ 42 }
    ensures { result ≡ is_text bytes.now }
{
    are_most(odd_bytes(bytes), bytes.len())
}

/// Whether all bytes are zero.
pub fn is_blank(packet: &[u8; 42]) -> bool
    ensures { result ≡ is_empty packet.now }
{
    packet.iter().all(|b| *b == 0)
}

// Whether all bytes are code words.
fn are_words(bytes: &[u8]) -> bool
    ensures { result ≡ are_words bytes.now }
{
    bytes.iter().all(|b| is_word(*b))
}

// Whether the text of a header is one.
fn is_header_text(packet: &[u8; 42]) -> bool
    ensures { result ≡ is_text (drop 10 packet.now) }
{
    is_text(packet.last_chunk::<32>().unwrap())
}

// Whether the text of a row is one.
fn is_row_text(packet: &[u8; 42]) -> bool
    ensures { result ≡ is_text (drop 2 packet.now) }
{
    is_text(packet.last_chunk::<40>().unwrap())
}

// Whether the first three bytes are code words.
fn begins_with_words(packet: &[u8; 42]) -> bool
    ensures { result ≡ are_words (slice_range packet.now 0 3) }
{
    are_words(&packet[0..3])
}

/// Whether 42 bytes read as a packet of teletext, even if some of its bits are wrong: a page header or a row whose text has odd parity in
/// three bytes of four, or another packet whose first three bytes are code words.
pub fn reads(packet: &[u8; 42]) -> bool
    ensures { result ≡ reads packet.now }
{
    match slot_of(packet) {
        Slot::Empty | Slot::Unreadable => false,
        Slot::Header(_, _) => is_header_text(packet),
        Slot::Row(_, _) => is_row_text(packet),
        Slot::Links(_, _) | Slot::Info(_, _) | Slot::Other(_) => begins_with_words(packet),
    }
}
