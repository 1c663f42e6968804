//! Turns of a cycle.

ghost use Rattle.std.specs.Prelude.{◌≡◌, ◌++◌, drop, true, IfOk, OnOk};
ghost use Rattle.ttx_cycle.specs.Cycles.{slots_of};
ghost use Rattle.ttx_press.specs.Turns as rule;

use std::alloc::{AllocError, Global};
use ttx_cycle::Cycle;
use ttx_header::{PageId, read_header};

// The page whose header is in the slot. A time-filling header begins none.
fn page_begun(slot: &[u8; 42]) -> Option<PageId>
    ensures { result ≡ rule.page_begun slot.now }
{
    let id = read_header(slot)?.id();
    if id.page() == 0xff && id.sub() == 0x3f7f {
        None
    } else {
        Some(id)
    }
}

// The first page that the cycle begins.
fn first_begun(cycle: &Cycle) -> Option<PageId>
    ensures { result ≡ rule.first_begun (slots_of cycle.now) }
{
    for slot in cycle.slots() {
        if let Some(id) = page_begun(slot) {
            return Some(id);
        }
    }
    None
}

// Whether the page is this one.
fn is_one(first: &Option<PageId>, id: PageId) -> bool
    ensures { result ≡ rule.is_one first.now id }
{
    match first {
        Some(first) => id == *first,
        None => false,
    }
}

// Whether the slot begins this page, or another one.
fn is_place(first: &Option<PageId>, same: bool, slot: &[u8; 42]) -> bool
    ensures { result ≡ rule.is_place first.now same (rule.page_begun slot.now) }
{
    match page_begun(slot) {
        Some(id) => is_one(first, id) == same,
        None => false,
    }
}

// Appends the slots after slot 0 that begin this page, or another one.
fn push_places(
    places: &mut Vec<usize>,
    cycle: &Cycle,
    first: &Option<PageId>,
    same: bool,
) -> Result<(), AllocError>
    ensures { OnOk result (places.new.items ≡ places.old.items ++ rule.places first.now same 1 (drop 1 (slots_of cycle.now))) }
{
    let slots = cycle.slots();
    for at in 1..slots.len() {
        if is_place(first, same, &slots[at]) {
            places.push(at)?;
        }
    }
    Ok(())
}

/// The slots at which the new cycle may begin, those first that begin the page with which the old cycle begins again.
pub fn turns(alloc: Global, old: &Cycle, new: &Cycle) -> Result<Vec<usize>, AllocError>
    ensures { IfOk result (λ places. places.items ≡ rule.turns (slots_of old.now) (slots_of new.now)) }
{
    let first = first_begun(old);
    let mut places = Vec::new(alloc);
    push_places(&mut places, new, &first, true)?;
    push_places(&mut places, new, &first, false)?;
    Ok(places)
}

/// The cycle that begins with this slot; after the last slot, the cycle as it is.
pub fn turned(alloc: Global, cycle: &Cycle, at: usize) -> Result<Cycle, AllocError>
    ensures { IfOk result (λ other. slots_of other ≡ rule.turned at (slots_of cycle.now)) }
{
    let slots = cycle.slots();
    let at = at.min(slots.len());
    let mut turned = Vec::with_capacity(alloc, slots.len())?;
    turned.extend_from_slice(&slots[at..])?;
    turned.extend_from_slice(&slots[..at])?;
    Ok(Cycle::of(turned).unwrap())
}
