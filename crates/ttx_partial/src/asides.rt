//! Cycles whose headers of a page number are time-filling ones.

ghost use Rattle.std.specs.Prelude.{◌≡◌, ◌≤◌, IfOk, length};
ghost use Rattle.ttx_cycle.specs.Cycles.{slots_of};
ghost use Rattle.ttx_page.specs.Packets.{packet_of};
ghost use Rattle.ttx_partial.specs.Asides.{same_number, is_numbered, time_filled, slot_aside, aside};

use std::alloc::{AllocError, Global};
use ttx_cycle::Cycle;
use ttx_header::PageId;
use ttx_witness::header_in;

// The code word of F.
const FILLING: u8 = 0xEA;

// Whether two pages have one number.
fn is_same_number(page: PageId, other: PageId) -> bool
    ensures { result ≡ same_number page other }
{
    page.mag() == other.mag() && page.page() == other.page()
}

// Whether a slot is a header of the number of a page.
fn is_numbered(page: PageId, slot: &[u8; 42]) -> bool
    ensures { result ≡ is_numbered page (packet_of slot.now) }
{
    ttx_cycle::arrays::is_slot(slot);
    match header_in(slot) {
        Some(header) => is_same_number(page, header.id()),
        None => false,
    }
}

// The header with page number FF.
fn time_filled(slot: &[u8; 42]) -> [u8; 42]
    ensures { result ≡ time_filled slot.now }
{
    let mut filled = *slot;
    filled[2] = FILLING;
    filled[3] = FILLING;
    filled
}

// The slot, or the time-filling header in its place.
fn slot_aside(page: PageId, slot: &[u8; 42]) -> [u8; 42]
    ensures { result ≡ slot_aside page slot.now }
{
    if is_numbered(page, slot) {
        time_filled(slot)
    } else {
        *slot
    }
}

// The slots with time-filling headers in the place of those of the page's number.
fn aside_slots(alloc: Global, page: PageId, slots: &[[u8; 42]]) -> Result<Vec<[u8; 42]>, AllocError>
    ensures { IfOk result (λ all. all.items ≡ aside page slots.now) }
{
    let mut all = Vec::with_capacity(alloc, slots.len())?;
    for i in 0..slots.len() {
        all.push(slot_aside(page, &slots[i]))?;
    }
    Ok(all)
}

/// The cycle with a time-filling header in the place of each header of a page's number, so that nothing of these pages is sent.
pub fn set_aside(alloc: Global, page: PageId, cycle: &Cycle) -> Result<Cycle, AllocError>
    ensures { IfOk result (λ other. slots_of other ≡ aside page (slots_of cycle.now)) }
{
    let slots = aside_slots(alloc, page, cycle.slots())?;
    Ok(Cycle::of(slots).unwrap())
}

/// The same cycle once more.
pub fn copied(alloc: Global, cycle: &Cycle) -> Result<Cycle, AllocError>
    ensures { IfOk result (λ other. slots_of other ≡ slots_of cycle.now) }
{
    let mut slots = Vec::with_capacity(alloc, cycle.slots().len())?;
    slots.extend_from_slice(cycle.slots())?;
    Ok(Cycle::of(slots).unwrap())
}
