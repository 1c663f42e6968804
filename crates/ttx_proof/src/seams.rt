//! Finds the seam of a page: a slot of the new cycle that is still stored under an old header, and differs from the page.

ghost use Rattle.std.specs.Prelude.{◌≡◌, ◌<◌, ◌↔◌, IsTrue, true, negsuc, length};
ghost use Rattle.ttx_page.specs.Pages.{needed};
ghost use Rattle.ttx_page.specs.Views.{page_of};
ghost use Rattle.ttx_witness.specs.faults.Comparing.{compared_item, sends, IsWrong};
ghost use Rattle.ttx_cycle.specs.Cycles.{slots_of};
ghost use Rattle.ttx_packet.specs.Slots.{IsSlot};
ghost use Rattle.ttx_page.specs.Packets.{packet_of};
ghost use Rattle.ttx_page.specs.Streams.{repeated, heads, heads_page};
ghost use Rattle.ttx_page.specs.declared.item.Item.TheVariants.{Row as TheRow, Links as TheLinks};
ghost use Rattle.ttx_proof.specs.Seams.{TellsLatest, AreLatest, IsLeftTo, IsWrongAs, IsWrongSlot, TellsOver};
ghost use Rattle.ttx_proof.specs.Splices.{Splice};
ghost use Rattle.ttx_proof.specs.Verdicts.{TellsSeam};

use ttx_cycle::Cycle;
use ttx_header::PageId;
use ttx_page::{Page, RowNumber, needed};
use ttx_witness::{Check, header_in, heads_page, is_wrong, row_in, sends};

// Whether the slot is a header of the magazine.
pub(crate) fn heads(mag: u8, slot: &[u8; 42]) -> bool
    requires { IsSlot slot.now }
    ensures { result ≡ heads mag (packet_of slot.now) }
{
    match header_in(slot) {
        Some(header) => header.id().mag() == mag,
        None => false,
    }
}

/// The latest header of the magazine before slot 0, as a number of slots before the last one of the period.
pub fn latest_header(old: &Cycle, mag: u8) -> Option<usize>
    ensures { TellsLatest (slots_of old.now) mag result }
{
    ttx_page::laws::each_slot_turns();
    let slots = old.slots();
    for back in 0..slots.len() {
        if heads(mag, &slots[slots.len() - 1 - back]) {
            return Some(back);
        }
    }
    None
}

/// The same for all eight magazines.
pub fn latest_headers(old: &Cycle) -> [Option<usize>; 8]
    ensures { AreLatest (slots_of old.now) result }
{
    let mut latest = [None; 8];
    for m in 0..8u8 {
        latest[usize::from(m)] = latest_header(old, m + 1);
    }
    latest
}

// Whether the slot `back` slots before the last one of the period is a header of the page.
pub(crate) fn is_its_header(old: &Cycle, back: usize, page: PageId) -> bool
    requires { back < length (slots_of old.now) }
    ensures { result ≡ heads_page page (packet_of (repeated (slots_of old.now) (negsuc back))) }
{
    let slots = old.slots();
    heads_page(page, &slots[slots.len() - 1 - back])
}

// Whether the latest header of the page's magazine before slot 0 is one of the page. Then whatever the new cycle sends in this magazine
// before its first header there is still stored in the page.
fn is_left(old: &Cycle, latest: &[Option<usize>; 8], page: PageId) -> bool
    requires { AreLatest (slots_of old.now) latest.now }
    ensures { IsTrue result ↔ IsLeftTo (repeated (slots_of old.now)) page }
{
    match latest[usize::from(page.mag()) - 1] {
        Some(back) => is_its_header(old, back, page),
        None => false,
    }
}

// Whether the slot carries the item of the check, a viewer sees this item, and the slot differs from the page.
fn is_wrong_slot(page: &Page, check: &Check, slot: &[u8; 42]) -> bool
    requires slot { IsSlot slot.now }
    ensures { IsTrue result ↔ ((sends (page_of page.now).id (compared_item check.now) (packet_of slot.now) true ≡ true)
        × (needed (page_of page.now) (compared_item check.now) ≡ true) × IsWrong (page_of page.now) check.now slot.now) }
{
    sends(page.id(), check.item(), slot, true)
        && needed(page, check.item())
        && is_wrong(page, check, slot)
}

// The same for the row with this number.
fn is_wrong_row(page: &Page, number: u8, slot: &[u8; 42]) -> bool
    requires { IsSlot slot.now }
    ensures { IsTrue result ↔ IsWrongAs (page_of page.now) slot.now (TheRow number) }
{
    let Some(row) = RowNumber::new(number) else {
        return false;
    };
    let check = Check::Row(row);
    is_wrong_slot(page, &check, slot)
}

// The same for the links.
fn are_wrong_links(page: &Page, slot: &[u8; 42]) -> bool
    requires { IsSlot slot.now }
    ensures { IsTrue result ↔ IsWrongAs (page_of page.now) slot.now TheLinks }
{
    let check = Check::Links;
    is_wrong_slot(page, &check, slot)
}

// Whether the slot carries any item that a viewer sees, and differs from the page.
fn is_wrong_any(page: &Page, slot: &[u8; 42]) -> bool
    requires { IsSlot slot.now }
    ensures { IsTrue result ↔ IsWrongSlot (page_of page.now) slot.now }
{
    if are_wrong_links(page, slot) {
        return true;
    }
    match row_in(slot) {
        Some(at) => is_wrong_row(page, at.number, slot),
        None => false,
    }
}

// The first slot of the new cycle, before the first header of the page's magazine, that carries an item which a viewer sees, and differs
// from the page. If the old cycle leaves its magazine to the page, this is the seam.
fn first_over(new: &Cycle, page: &Page) -> Option<u32>
    ensures { TellsOver (repeated (slots_of new.now)) (page_of page.now) result }
{
    ttx_page::laws::each_slot_turns();
    let slots = new.slots();
    for j in 0..slots.len() {
        if heads(page.id().mag(), &slots[j]) {
            return None;
        }
        if is_wrong_any(page, &slots[j]) {
            return Some(j as u32);
        }
    }
    None
}

/// The first seam slot of the page; `None` if it has no seam. `latest` are the latest headers of the old cycle.
pub fn first_seam(old: &Cycle, new: &Cycle, latest: &[Option<usize>; 8], page: &Page) -> Option<u32>
    requires { AreLatest (slots_of old.now) latest.now }
    ensures { (c : Splice) → c.old ≡ slots_of old.now → c.new ≡ slots_of new.now → TellsSeam c (page_of page.now) result }
{
    crate::laws::seams_are_left();
    if is_left(old, latest, page.id()) {
        first_over(new, page)
    } else {
        None
    }
}
