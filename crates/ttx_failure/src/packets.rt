//! The packets that are named in sentences.

ghost use Rattle.std.specs.Prelude.{◌≡◌, ◌++◌, OnOk, string_bytes};
ghost use Rattle.ttx_failure.specs.NamedPackets.{named, header_name, row_number, of_magazine, row_name, links_name};
ghost use Rattle.ttx_packet.specs.Slots.{kind_of};

use std::alloc::AllocError;
use ttx_packet::{Slot, slot_of};

/// A packet as it is named in a sentence: with its magazine, and a row with its number.
#[derive(Clone, Copy)]
pub enum NamedPacket {
    /// A page header.
    Header(u8),
    /// A row.
    Row(u8, u8),
    /// An X/27/0.
    Links(u8),
    /// Any other slot.
    Another,
}

/// The packet in a slot.
pub(crate) fn named(slot: &[u8; 42]) -> NamedPacket
    ensures { result ≡ named (kind_of slot.now) }
{
    match slot_of(slot) {
        Slot::Header(at, _) => NamedPacket::Header(at.mag),
        Slot::Row(at, _) => NamedPacket::Row(at.mag, at.number),
        Slot::Links(at, _) => NamedPacket::Links(at.mag),
        Slot::Empty => NamedPacket::Another,
        Slot::Unreadable => NamedPacket::Another,
        Slot::Info(_, _) => NamedPacket::Another,
        Slot::Other(_) => NamedPacket::Another,
    }
}

/// Appends the name of a packet.
#[tactic(auto, unfolding(crate::specs::NamedPackets::header_name))]
pub(crate) fn push_header_name(text: &mut String, mag: u8) -> Result<(), AllocError>
    ensures { OnOk result (string_bytes text.new ≡ string_bytes text.old ++ header_name mag) }
{
    write!(text, "header of magazine {mag}")
}

#[tactic(auto, unfolding(crate::specs::NamedPackets::row_number))]
fn push_row_number(text: &mut String, number: u8) -> Result<(), AllocError>
    ensures { OnOk result (string_bytes text.new ≡ string_bytes text.old ++ row_number number) }
{
    write!(text, "row {number}")
}

#[tactic(auto, unfolding(crate::specs::NamedPackets::of_magazine))]
fn push_of_magazine(text: &mut String, mag: u8) -> Result<(), AllocError>
    ensures { OnOk result (string_bytes text.new ≡ string_bytes text.old ++ of_magazine mag) }
{
    write!(text, " of magazine {mag}")
}

/// Appends the name of a packet.
#[tactic(auto, unfolding(crate::specs::NamedPackets::row_name))]
pub(crate) fn push_row_name(text: &mut String, number: u8, mag: u8) -> Result<(), AllocError>
    ensures { OnOk result (string_bytes text.new ≡ string_bytes text.old ++ row_name number mag) }
{
    push_row_number(text, number)?;
    push_of_magazine(text, mag)
}

/// Appends the name of a packet.
#[tactic(auto, unfolding(crate::specs::NamedPackets::links_name))]
pub(crate) fn push_links_name(text: &mut String, mag: u8) -> Result<(), AllocError>
    ensures { OnOk result (string_bytes text.new ≡ string_bytes text.old ++ links_name mag) }
{
    write!(text, "links of magazine {mag}")
}
