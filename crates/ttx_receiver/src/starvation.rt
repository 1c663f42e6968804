//! One step of a receiver that takes every choice and is starved of an item: it misses what it may miss, and where it would take the
//! item's first character, that character is received with a wrong bit.

ghost use Rattle.std.specs.Prelude.{◌≡◌, ◌≤◌, ◌<◌, ◌==◌, ◌&&◌, true, if◌then◌else◌};
ghost use Rattle.ttx_header.specs.Headers.{is_header, id_of};
ghost use Rattle.ttx_page.specs.Packets.{packet_of};
ghost use Rattle.ttx_page.specs.Pages.{matches, selected_mag};
ghost use Rattle.ttx_page.specs.Receivers.{has_choice, older};
ghost use Rattle.ttx_page.specs.Streams.{heads_matched};
ghost use Rattle.ttx_page.specs.Views.{memory_of};
ghost use Rattle.ttx_page.specs.declared.class.Class.TheVariants.{Any};
ghost use Rattle.ttx_page.specs.declared.item.Item.TheVariants.{Row as TheRow};
ghost use Rattle.ttx_receiver.specs.Starving.{spoilt, is_bound, takes, first_byte, heard, is_received_wrong, careful_after};

use crate::packets::{Packet, packet_in};
use crate::steps::{chooses, magazine_of};
use crate::tuning::Tuning;
use ttx_header::read_header;
use ttx_packet::place::Address;
use ttx_page::{Class, Item, PageMemory, Selection};

// Whether a receiver cannot miss the next packet.
fn is_bound_next(memory: &PageMemory, lines: u8) -> bool
    requires { lines ≤ 32 }
    ensures { result ≡ is_bound lines (older (memory_of memory.now)) }
{
    memory.storing() && memory.age() >= lines
}

/// Whether the selection matches a page header.
pub(crate) fn is_matched(selection: &Selection, bytes: &[u8; 42]) -> bool
    requires { is_header bytes.now ≡ true }
    ensures { result ≡ matches selection.now (id_of bytes.now) }
{
    match read_header(bytes) {
        Some(header) => selection.matches(header.id()),
        None => false,
    }
}

// Whether it takes row 0 from a slot.
fn takes_head(selection: &Selection, slot: &[u8; 42]) -> bool
    ensures { result ≡ heads_matched selection.now (packet_of slot.now) }
{
    match packet_in(slot) {
        Packet::Header(bytes) => is_matched(selection, bytes),
        Packet::Row(_, _) => false,
        Packet::Links(_, _) => false,
        Packet::Nothing => false,
    }
}

// Whether it takes row `row` from a row with this address.
fn takes_row_at(memory: &PageMemory, lines: u8, selection: &Selection, row: u8, at: Address) -> bool
    requires { lines ≤ 32 }
    ensures { result ≡ (((at.mag == selected_mag selection.now) && (at.number == row)) && is_bound lines (older (memory_of memory.now))) }
{
    at.mag == magazine_of(selection) && at.number == row && is_bound_next(memory, lines)
}

// Whether it takes row `row` from the next slot.
fn takes_row(
    memory: &PageMemory,
    lines: u8,
    selection: &Selection,
    row: u8,
    slot: &[u8; 42],
) -> bool
    requires { lines ≤ 32 }
    ensures { result ≡ takes lines selection.now (TheRow row) (older (memory_of memory.now)) (packet_of slot.now) }
{
    match packet_in(slot) {
        Packet::Header(_) => false,
        Packet::Row(at, _) => takes_row_at(memory, lines, selection, row, at),
        Packet::Links(_, _) => false,
        Packet::Nothing => false,
    }
}

// Whether the next slot is received with a wrong bit.
fn hits(memory: &PageMemory, lines: u8, selection: &Selection, item: &Item, slot: &[u8; 42]) -> bool
    requires { lines ≤ 32 }
    ensures { result ≡ is_received_wrong lines selection.now item.now (memory_of memory.now) slot.now }
{
    match item {
        Item::Head => takes_head(selection, slot),
        Item::Row(row) => takes_row(memory, lines, selection, row.number(), slot),
        Item::Links => false,
    }
}

/// The byte in the slot of an item's first character; 0 for the links.
pub fn first_byte_of(item: &Item) -> u8
    ensures value { result ≡ first_byte item.now }
    ensures low { result < 42 }
{
    match item {
        Item::Head => 10,
        Item::Row(_) => 2,
        Item::Links => 0,
    }
}

// A slot; if it is hit, with the lowest bit of one byte wrong.
fn spoil(slot: &[u8; 42], hit: bool, byte: usize) -> [u8; 42]
    requires { byte < 42 }
    ensures { result ≡ (if hit then spoilt slot.now byte else slot.now) }
{
    let mut bytes = *slot;
    if hit {
        bytes[byte] = bytes[byte] ^ 1;
    }
    bytes
}

/// Takes one slot with a receiver that takes every choice and is starved of the item. Returns whether the slot is received with
/// a wrong bit, and whether there was a choice.
pub fn starve(
    memory: &mut PageMemory,
    lines: u8,
    selection: &Selection,
    item: &Item,
    slot: &[u8; 42],
) -> (bool, bool)
    requires { lines ≤ 32 }
    ensures hit { result.0 ≡ is_received_wrong lines selection.now item.now (memory_of memory.old) slot.now }
    ensures choice { result.1 ≡ has_choice Any lines selection.now (older (memory_of memory.old))
        (packet_of (heard lines selection.now item.now (memory_of memory.old) slot.now)) }
    ensures memory { memory_of memory.new ≡ careful_after lines selection.now (memory_of memory.old)
        (heard lines selection.now item.now (memory_of memory.old) slot.now) }
{
    let hit = hits(memory, lines, selection, item, slot);
    let received = spoil(slot, hit, usize::from(first_byte_of(item)));
    memory.grow_older();
    let choice = chooses(memory, lines, selection, &received);
    let tuning = Tuning {
        class: Class::Any,
        lines,
        selection: *selection,
    };
    tuning.take_slot(memory, true, &received);
    (hit, choice)
}
