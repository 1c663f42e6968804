//! The packets that a receiver uses.

ghost use Rattle.ttx_page.specs.Packets.{packet_of};
ghost use Rattle.ttx_receiver.specs.Reading.{LendsPacket};

use ttx_packet::place::Address;
use ttx_packet::slots::{Slot, slot_of};

/// What a receiver reads in a slot: a page header or an X/27/0, with all 42 bytes; a row, with its 40 characters; or nothing that
/// could change what it holds.
#[derive(Clone, Copy)]
pub(crate) enum Packet<'a> {
    Header(&'a [u8; 42]),
    Row(Address, &'a [u8; 40]),
    Links(Address, &'a [u8; 42]),
    Nothing,
}

/// Reads a slot.
#[tactic(auto, unfolding(ttx_page::specs::Packets::packet_of))]
pub(crate) fn packet_in<'a>(slot: &'a [u8; 42]) -> Packet<'a>
    ensures { LendsPacket result (packet_of slot.now) }
{
    ttx_packet::laws::rows_are_numbered();
    ttx_header::laws::headers_have_fields();
    match slot_of(slot) {
        Slot::Header(_, bytes) => Packet::Header(bytes),
        Slot::Row(at, text) => Packet::Row(at, text),
        Slot::Links(at, bytes) => Packet::Links(at, bytes),
        Slot::Empty => Packet::Nothing,
        Slot::Unreadable => Packet::Nothing,
        Slot::Info(_, _) => Packet::Nothing,
        Slot::Other(_) => Packet::Nothing,
    }
}
