//! Finds pages that are not complete when the old cycle ends, and pages in which slots of the new one would be stored.

ghost use Rattle.std.specs.Prelude.{◌≡◌, ◌↔◌, ℕ, ℤ, IsTrue, MatchOption, map, true};
ghost use Rattle.ttx_cycle.specs.Cycles.{slots_of};
ghost use Rattle.ttx_page.specs.Pages.{needed};
ghost use Rattle.ttx_page.specs.Packets.{packet_of};
ghost use Rattle.ttx_page.specs.Streams.{repeated};
ghost use Rattle.ttx_page.specs.Views.{page_of};
ghost use Rattle.ttx_page.specs.declared.item.Item.TheVariants.{Row as TheRow, Links as TheLinks};
ghost use Rattle.ttx_witness.specs.faults.Comparing.{compared_item, sends};
ghost use Rattle.ttx_proof.specs.Seams.{AreLatest};
ghost use Rattle.ttx_proof.specs.LastBlocks.{BringsAs, Brings, GoesOn, IsAmid, NoneIsAmid, IsFirstAmid, TellsLeft, NoneHasSeam, IsFirstStored};
ghost use Rattle.ttx_proof.specs.Splices.{Splice};

use crate::seams::{first_seam, heads, is_its_header, latest_headers};
use ttx_cycle::Cycle;
use ttx_header::PageId;
use ttx_page::{Page, RowNumber, needed};
use ttx_witness::{Check, row_in, sends};

/// A page that is not complete when the old cycle ends.
#[derive(Clone, Copy)]
pub struct Amid {
    pub page: PageId,
    /// The slot of its last header in the old cycle.
    pub slot: usize,
}

/// A page in which a slot of the new cycle would be stored.
#[derive(Clone, Copy)]
pub struct Stored {
    pub page: PageId,
    /// The slot of the new cycle.
    pub slot: u32,
}

// Where the latest header of the page's magazine before slot 0 stands, if it is one of the page.
fn left_header(old: &Cycle, latest: &[Option<usize>; 8], page: PageId) -> Option<usize>
    requires { AreLatest (slots_of old.now) latest.now }
    ensures { TellsLeft (slots_of old.now) page result }
{
    let back = latest[usize::from(page.mag()) - 1]?;
    if is_its_header(old, back, page) {
        Some(back)
    } else {
        None
    }
}

// Whether the slot carries the item of the check, and a viewer sees it.
fn brings(page: &Page, check: &Check, slot: &[u8; 42]) -> bool
    ensures { IsTrue result ↔ ((sends (page_of page.now).id (compared_item check.now) (packet_of slot.now) true ≡ true)
        × (needed (page_of page.now) (compared_item check.now) ≡ true)) }
{
    sends(page.id(), check.item(), slot, true) && needed(page, check.item())
}

// The same for the row with this number.
fn brings_row(page: &Page, number: u8, slot: &[u8; 42]) -> bool
    ensures { IsTrue result ↔ BringsAs (page_of page.now) slot.now (TheRow number) }
{
    let Some(row) = RowNumber::new(number) else {
        return false;
    };
    let check = Check::Row(row);
    brings(page, &check, slot)
}

// The same for the links.
fn brings_links(page: &Page, slot: &[u8; 42]) -> bool
    ensures { IsTrue result ↔ BringsAs (page_of page.now) slot.now TheLinks }
{
    let check = Check::Links;
    brings(page, &check, slot)
}

// Whether the slot carries any item that a viewer sees.
fn brings_any(page: &Page, slot: &[u8; 42]) -> bool
    ensures { IsTrue result ↔ Brings (page_of page.now) slot.now }
{
    if brings_links(page, slot) {
        return true;
    }
    match row_in(slot) {
        Some(at) => brings_row(page, at.number, slot),
        None => false,
    }
}

// Whether such a slot of the cycle stands before the first header of the page's magazine.
fn goes_on(old: &Cycle, page: &Page) -> bool
    ensures { IsTrue result ↔ ((j : ℤ) × GoesOn (repeated (slots_of old.now)) (page_of page.now) j) }
{
    ttx_page::laws::each_slot_turns();
    let slots = old.slots();
    for j in 0..slots.len() {
        if heads(page.id().mag(), &slots[j]) {
            return false;
        }
        if brings_any(page, &slots[j]) {
            return true;
        }
    }
    false
}

// The slot of the page's last header, if the page is amid the end of the cycle.
fn amid_of(old: &Cycle, latest: &[Option<usize>; 8], page: &Page) -> Option<usize>
    requires { AreLatest (slots_of old.now) latest.now }
    ensures { MatchOption result ((slot : ℕ) → IsAmid (slots_of old.now) (page_of page.now) slot → ⊥) (IsAmid (slots_of old.now) (page_of page.now)) }
{
    let back = left_header(old, latest, page.id())?;
    if !goes_on(old, page) {
        return None;
    }
    Some(old.slots().len() - 1 - back)
}

/// The first of the pages of which an item that a viewer sees comes only after the end of the old cycle, under its last header.
pub fn first_amid(old: &Cycle, pages: &[Page]) -> Option<Amid>
    ensures { MatchOption result (NoneIsAmid (slots_of old.now) (map page_of pages.now))
        (λ amid. IsFirstAmid (slots_of old.now) (map page_of pages.now) amid.page amid.slot) }
{
    let latest = latest_headers(old);
    for index in 0..pages.len() {
        let page = &pages[index];
        if let Some(slot) = amid_of(old, &latest, page) {
            let page = page.id();
            return Some(Amid { page, slot });
        }
    }
    None
}

/// The first of the pages in which a slot of the new cycle would be stored under its last header of the old one, and differ from it; and
/// the first such slot.
pub fn first_stored(old: &Cycle, new: &Cycle, pages: &[Page]) -> Option<Stored>
    ensures { (c : Splice) → c.old ≡ slots_of old.now → c.new ≡ slots_of new.now → MatchOption result (NoneHasSeam c (map page_of pages.now))
        (λ stored. IsFirstStored c (map page_of pages.now) stored.page stored.slot) }
{
    let latest = latest_headers(old);
    for index in 0..pages.len() {
        let page = &pages[index];
        if let Some(slot) = first_seam(old, new, &latest, page) {
            let page = page.id();
            return Some(Stored { page, slot });
        }
    }
    None
}
