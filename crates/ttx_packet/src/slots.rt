//! The kinds of slots. Bytes are counted from 0, after clock run-in and framing code.

ghost use Rattle.std.specs.Prelude.{◌≡◌, drop};
ghost use Rattle.ttx_packet.specs.Slots.{is_empty, packet_kind, read_number, is_clean};
ghost use Rattle.ttx_packet.specs.Lent.{Lends, ShowsAs};

use crate::place::Address;
use ttx_code::{are_readable, are_words, is_word, number_of, unham};

/// What the 42 bytes of a slot are: the kind of packet, its address, and the bytes from which more can be read.
#[derive(Clone, Copy)]
pub enum Slot<'a> {
    /// 42 zero bytes: nothing was sent.
    Empty,
    /// A byte that decides what the packet is has two or more wrong bits.
    Unreadable,
    /// Packet 0, a page header, with all 42 bytes.
    Header(Address, &'a [u8; 42]),
    /// Packets 1 to 24, rows, with bytes 2 to 41: the 40 characters.
    Row(Address, &'a [u8; 40]),
    /// Packet 27 with designation 0, with all 42 bytes.
    Links(Address, &'a [u8; 42]),
    /// Packet 30 of magazine 8, with all 42 bytes.
    Info(Address, &'a [u8; 42]),
    /// Any other packet.
    Other(Address),
}

// The 40 bytes after the address.
fn text_of(bytes: &[u8; 42]) -> &[u8; 40]
    ensures { result.now ≡ drop 2 bytes.now }
{
    bytes.last_chunk::<40>().unwrap()
}

// Whether all bytes are zero: no bit is set in their union.
fn is_zero(bytes: &[u8]) -> bool
    ensures { result ≡ is_empty bytes.now }
{
    let mut union = 0;
    for i in 0..bytes.len() {
        union |= bytes[i];
    }
    union == 0
}

// Whether the slot is empty. The first byte of a packet is seldom zero, so it is tried first.
#[inline(always)]
fn is_empty_slot(bytes: &[u8; 42]) -> bool
    ensures { result ≡ is_empty bytes.now }
{
    bytes[0] == 0 && is_zero(bytes)
}

// The kind of a packet with this address.
#[tactic(auto, unfolding(crate::specs::Slots::packet_kind))]
fn packet_of<'a>(bytes: &'a [u8; 42], at: Address) -> Slot<'a>
    ensures { ShowsAs result (packet_kind bytes.now at.mag at.number) bytes.now }
{
    match at.number {
        0 => {
            if are_readable(&bytes[2..10]) {
                Slot::Header(at, bytes)
            } else {
                Slot::Unreadable
            }
        }
        1..=24 => Slot::Row(at, text_of(bytes)),
        27 => match unham(bytes[2]) {
            Some(0) => Slot::Links(at, bytes),
            Some(_) => Slot::Other(at),
            None => Slot::Unreadable,
        },
        30 if at.mag == 8 => Slot::Info(at, bytes),
        _ => Slot::Other(at),
    }
}

/// Reads the kind and the address of the 42 bytes of a slot. The first case that fits holds:
///
/// 1. 42 zero bytes are an empty slot. (A single zero byte would read as 1, with one bit corrected.)
/// 2. The slot is unreadable if byte 0 or 1, one of bytes 2 to 9 of packet 0, or byte 2 of packet 27 is unreadable.
/// 3. Otherwise the magazine and packet number give the kind, for packet 27 together with the designation in byte 2.
#[inline(always)]
#[tactic(auto, unfolding(crate::specs::Slots::kind_of))]
pub fn slot_of<'a>(bytes: &'a [u8; 42]) -> Slot<'a>
    ensures { Lends result bytes.now }
{
    if is_empty_slot(bytes) {
        return Slot::Empty;
    }
    let Some(low) = unham(bytes[0]) else {
        return Slot::Unreadable;
    };
    let Some(high) = unham(bytes[1]) else {
        return Slot::Unreadable;
    };
    let mag = if low % 8 == 0 { 8 } else { low % 8 };
    let number = low / 8 + 2 * high;
    packet_of(bytes, Address { mag, number })
}

// The packet number that the address reads as. An unreadable byte counts as 0.
fn packet_number(bytes: &[u8; 42]) -> u8
    ensures { result ≡ read_number bytes.now }
{
    number_of(bytes[0]) / 8 + 2 * number_of(bytes[1])
}

/// Whether the slot is clean: one wrong bit in each byte cannot turn it into another packet. It is empty, or the bytes
/// that decide its kind are code words: bytes 0 and 1, bytes 2 to 9 of packet 0, and byte 2 of packet 27.
#[tactic(auto, unfolding(crate::specs::Slots::is_clean))]
pub fn clean(bytes: &[u8; 42]) -> bool
    ensures { result ≡ is_clean bytes.now }
{
    is_empty_slot(bytes)
        || are_words(&bytes[0..2])
            && match packet_number(bytes) {
                0 => are_words(&bytes[2..10]),
                27 => is_word(bytes[2]),
                _ => true,
            }
}
