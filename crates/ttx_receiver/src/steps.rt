//! What a slot does to a memory, by the receiver's choice.

ghost use Rattle.std.specs.Prelude.{◌≡◌, ◌≤◌, ◌++◌, ℕ, Bool, IsTrue, drop, slice_index, true, ◌==◌, ◌&&◌, nat_le};
ghost use Rattle.ttx_code.specs.Words.{reading};
ghost use Rattle.ttx_header.specs.Headers.{is_header, id_of, control_of};
ghost use Rattle.ttx_links.specs.Sets.{links_of};
ghost use Rattle.ttx_packet.specs.Slots.{magazine};
ghost use Rattle.ttx_page.specs.Packets.{packet_of, Header as HeaderPacket, Row as RowPacket, Links as LinksPacket};
ghost use Rattle.ttx_page.specs.Pages.{selected_mag};
ghost use Rattle.ttx_page.specs.Receivers.{after, erases, has_choice, misses};
ghost use Rattle.ttx_page.specs.Views.{memory_of};
ghost use Rattle.ttx_page.specs.Memories.{Memory};
ghost use Rattle.ttx_page.specs.declared.class.Class.{Class as ClassValue};
ghost use Rattle.ttx_page.specs.declared.class.Class.TheVariants.{Any};
ghost use Rattle.ttx_receiver.specs.Reading.{names_magazine, names_packet_0};
ghost use Rattle.ttx_receiver.specs.Tuning.{tuned_after};

use crate::packets::{Packet, packet_in};
use crate::tuning::Tuning;
use ttx_code::unham;
use ttx_header::{Header, read_header};
use ttx_links::read_links;
use ttx_packet::place::Address;
use ttx_page::{Class, PageMemory, Selection};

// The slot in which nothing is sent.
pub(crate) const EMPTY: [u8; 42] = [0; 42];

/// The magazine that a receiver listens to.
pub(crate) fn magazine_of(selection: &Selection) -> u8
    ensures { result ≡ selected_mag selection.now }
{
    match selection {
        Selection::Exact(id) => id.mag(),
        Selection::AnySub(mag, _) => *mag,
    }
}

// The magazine, from the number in byte 0.
fn magazine_in(low: u8) -> u8
    ensures { result ≡ magazine low }
{
    if low % 8 == 0 { 8 } else { low % 8 }
}

// Whether the address is of this magazine.
fn is_of(slot: &[u8; 42], mag: u8) -> bool
    ensures { result ≡ names_magazine mag (reading (slice_index slot.now 0)) }
{
    match unham(slot[0]) {
        Some(low) => magazine_in(low) == mag,
        None => false,
    }
}

// Whether the address is that of packet 0.
fn is_packet_0(slot: &[u8; 42]) -> bool
    ensures { result ≡ names_packet_0 (reading (slice_index slot.now 0)) (reading (slice_index slot.now 1)) }
{
    matches!(unham(slot[1]), Some(0)) && matches!(unham(slot[0]), Some(0..=7))
}

/// Whether the address alone shows that the slot does not change the memory: the packet is not a page header, and it is of another
/// magazine or the memory is not storing.
pub(crate) fn is_passed(slot: &[u8; 42], selection: &Selection, storing: bool) -> bool
    ensures { IsTrue result → (class : ClassValue) (lines : ℕ) (choice : Bool) (m : Memory) → m.storing ≡ storing →
        m ≡ after class lines selection.now choice m (packet_of slot.now) }
{
    !is_packet_0(slot) && !(storing && is_of(slot, magazine_of(selection)))
}

impl Tuning {
    // Whether a header that the selection matches erases.
    fn is_erasing(&self, memory: &PageMemory, choice: bool, header: &Header) -> bool
        ensures { result ≡ erases self.now.class choice (memory_of memory.now) header.now.control }
    {
        let erases_page = header.control().erases_page();
        match self.class {
            Class::Any => erases_page || memory.fresh() && choice,
            Class::Clearing => erases_page || memory.fresh(),
        }
    }

    // Whether a row or an X/27/0 of the magazine is missed.
    fn is_missed(&self, memory: &PageMemory, choice: bool) -> bool
        ensures { result ≡ misses self.now.lines choice (memory_of memory.now) }
    {
        choice && memory.age() <= self.lines
    }

    fn take_header(&self, memory: &mut PageMemory, choice: bool, header: &Header)
        ensures { memory_of memory.new ≡ tuned_after self.now choice (memory_of memory.old)
            (HeaderPacket header.now.id header.now.control (header.now.text ++ header.now.clock)) }
    {
        if self.selection.matches(header.id()) {
            if self.is_erasing(memory, choice, header) {
                memory.erase();
            }
            memory.begin(header);
        } else if header.id().mag() == magazine_of(&self.selection) {
            memory.end_storing();
        } else if header.control().is_serial() && choice {
            memory.end_storing();
        }
    }

    // Takes a page header, given its bytes.
    fn take_header_bytes(&self, memory: &mut PageMemory, choice: bool, bytes: &[u8; 42])
        requires { is_header bytes.now ≡ true }
        ensures { memory_of memory.new ≡ tuned_after self.now choice (memory_of memory.old)
            (HeaderPacket (id_of bytes.now) (control_of bytes.now) (drop 10 bytes.now)) }
    {
        if let Some(header) = read_header(bytes) {
            self.take_header(memory, choice, &header);
        }
    }

    fn take_row(&self, memory: &mut PageMemory, choice: bool, at: Address, text: &[u8; 40])
        requires { at.number ≤ 24 }
        ensures { memory_of memory.new ≡ tuned_after self.now choice (memory_of memory.old) (RowPacket at.mag at.number text.now) }
    {
        if at.mag == magazine_of(&self.selection)
            && memory.storing()
            && !self.is_missed(memory, choice)
        {
            memory.store_row(at.number, text);
        }
    }

    // Takes an X/27/0, given its bytes.
    fn take_links(&self, memory: &mut PageMemory, choice: bool, at: Address, bytes: &[u8; 42])
        ensures { memory_of memory.new ≡ tuned_after self.now choice (memory_of memory.old) (LinksPacket at.mag (links_of at.mag bytes.now)) }
    {
        if at.mag == magazine_of(&self.selection)
            && memory.storing()
            && !self.is_missed(memory, choice)
        {
            if let Some(links) = read_links(at.mag, bytes) {
                memory.store_links(&links);
            }
        }
    }

    /// Takes one slot by the receiver's choice. The age of the memory has already grown.
    #[inline(never)]
    pub(crate) fn take_slot(&self, memory: &mut PageMemory, choice: bool, slot: &[u8; 42])
        ensures { memory_of memory.new ≡ tuned_after self.now choice (memory_of memory.old) (packet_of slot.now) }
    {
        match packet_in(slot) {
            Packet::Header(bytes) => self.take_header_bytes(memory, choice, bytes),
            Packet::Row(at, text) => self.take_row(memory, choice, at, text),
            Packet::Links(at, bytes) => self.take_links(memory, choice, at, bytes),
            Packet::Nothing => {}
        }
    }
}

// Whether a header gives a choice: to erase, or to end storing.
fn chooses_at_header(
    memory: &PageMemory,
    lines: u8,
    selection: &Selection,
    bytes: &[u8; 42],
) -> bool
    requires { is_header bytes.now ≡ true }
    ensures { result ≡ has_choice Any lines selection.now (memory_of memory.now)
        (HeaderPacket (id_of bytes.now) (control_of bytes.now) (drop 10 bytes.now)) }
{
    match read_header(bytes) {
        Some(header) => {
            let control = header.control();
            if selection.matches(header.id()) {
                memory.fresh() && !control.erases_page()
            } else {
                header.id().mag() != magazine_of(selection)
                    && control.is_serial()
                    && memory.storing()
            }
        }
        None => false,
    }
}

// Whether a row or an X/27/0 of magazine `mag` may be missed.
fn chooses_at_packet(memory: &PageMemory, lines: u8, selection: &Selection, mag: u8) -> bool
    ensures { result ≡ ((mag == selected_mag selection.now) && (memory_of memory.now).storing && nat_le (memory_of memory.now).age lines) }
{
    mag == magazine_of(selection) && memory.storing() && memory.age() <= lines
}

/// Whether a receiver of class any has a choice at a slot. The age of the memory has already grown.
pub(crate) fn chooses(
    memory: &PageMemory,
    lines: u8,
    selection: &Selection,
    slot: &[u8; 42],
) -> bool
    ensures { result ≡ has_choice Any lines selection.now (memory_of memory.now) (packet_of slot.now) }
{
    match packet_in(slot) {
        Packet::Header(bytes) => chooses_at_header(memory, lines, selection, bytes),
        Packet::Row(at, _) => chooses_at_packet(memory, lines, selection, at.mag),
        Packet::Links(at, _) => chooses_at_packet(memory, lines, selection, at.mag),
        Packet::Nothing => false,
    }
}
