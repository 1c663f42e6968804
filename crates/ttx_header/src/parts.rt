//! Reads and writes parts of a packet, for all readers and writers of packets.

ghost use Rattle.std.specs.Prelude.{◌≡◌, ◌+◌, ◌<◌, ◌≤◌, ◌++◌, length, take};
ghost use Rattle.ttx_packet.specs.Slots.{are_readable};
ghost use Rattle.ttx_header.specs.Headers.{number};

use ttx_code::{are_readable, number_of};

/// Whether all bytes are readable as Hamming 8/4.
#[inline(always)]
pub fn is_readable(bytes: &[u8]) -> bool
    ensures { result ≡ are_readable bytes.now }
{
    are_readable(bytes)
}

/// The number, 0 to 15, that byte `at` of a packet reads as; 0 if the byte is unreadable.
#[inline(always)]
pub fn number_at(bytes: &[u8; 42], at: usize) -> u8
    requires { at < 42 }
    ensures value { result ≡ number bytes.now at }
    ensures range { result < 16 }
{
    number_of(bytes[at])
}

/// Overwrites a part of a packet, from byte `at` on. The bytes before it are unchanged.
#[tactic(auto, using(std::proofs::lemmas::Slice::overwrites))]
pub fn put(bytes: &mut [u8; 42], at: usize, part: &[u8])
    requires { at + length part.now ≤ 42 }
    ensures { take (at + length part.now) bytes.new ≡ take at bytes.old ++ part.now }
{
    bytes[at..at + part.len()].copy_from_slice(part);
}
