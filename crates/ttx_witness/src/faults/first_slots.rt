//! For each reason about a page the first slot where it is true, kept while the page's transmissions are taken one by one, in any
//! order; and the first of these reasons.

ghost use Rattle.std.specs.Prelude.{◌≡◌, ◌≢◌, ◌<◌, ◌↔◌, ◌==◌, ℕ, List, IsTrue, true};
ghost use Rattle.ttx_page.specs.Pages as definitions;
ghost use Rattle.ttx_page.specs.Views.{page_of};
ghost use Rattle.ttx_witness.specs.sent.Collected.{item_number};
ghost use Rattle.ttx_witness.specs.faults.Comparing.{IsWrong};
ghost use Rattle.ttx_witness.specs.faults.Faults.{AreFirst, IsPageFault};
ghost use Rattle.ttx_witness.specs.faults.FirstSlots.{earlier, noted, RowWrong, IsAfter, none_yet};

use crate::faults::reason::Reason;
use crate::faults::wrong_slots::{Check, head_faults, is_wrong};
use ttx_header::PageId;
use ttx_page::{Item, Page, RowNumber, needed};

/// Whether the cycle has a header of the page, and for each other reason that concerns only a page and a cycle, the first slot
/// where it is true.
#[derive(Clone, Copy)]
pub struct FirstSlots {
    pub has_header: bool,
    pub other_subpage: Option<u32>,
    pub erased: Option<u32>,
    pub head: Option<u32>,
    pub row: Option<u32>,
    pub links: Option<u32>,
}

/// The first slots before any transmission of the page is taken.
pub fn none_yet() -> FirstSlots
    ensures { result ≡ none_yet }
{
    FirstSlots {
        has_header: false,
        other_subpage: None,
        erased: None,
        head: None,
        row: None,
        links: None,
    }
}

// The earlier of two slots. `None` stands for no slot.
fn earlier(first: Option<u32>, at: u32) -> u32
    ensures { result ≡ earlier first at }
{
    match first {
        Some(i) => { if i <= at { i } else { at } }
        None => at,
    }
}

// The first slot so far, after slot `at`, where the property holds if `is` is true.
fn noted(first: Option<u32>, is: bool, at: u32) -> Option<u32>
    ensures { result ≡ noted first is at }
{
    if is { Some(earlier(first, at)) } else { first }
}

// Whether the slot differs from the page in the row with this number, and a viewer sees the row.
fn is_row_wrong(page: &Page, number: u8, slot: &[u8; 42]) -> bool
    ensures { IsTrue result ↔ RowWrong (page_of page.now) (λ item. item_number item == number) slot.now }
{
    match RowNumber::new(number) {
        Some(row) => is_wrong(page, &Check::Row(row), slot) && needed(page, Item::Row(row)),
        None => false,
    }
}

// Notes slot `at`, which sends a header of the page.
fn note_head(first: &mut FirstSlots, page: &Page, slot: &[u8; 42], at: u32)
    ensures { IsAfter (page_of page.now) (λ item. item_number item == 0) slot.now at first.old first.new }
{
    let faults = head_faults(page, slot);
    first.has_header = true;
    first.erased = noted(first.erased, faults.erases, at);
    first.head = noted(first.head, faults.differs, at);
}

// Notes slot `at`, which sends the links of the page.
fn note_links(first: &mut FirstSlots, page: &Page, slot: &[u8; 42], at: u32)
    ensures { IsAfter (page_of page.now) (λ item. item_number item == 25) slot.now at first.old first.new }
{
    first.links = noted(first.links, is_wrong(page, &Check::Links, slot), at);
}

// Notes slot `at`, which sends row `number` of the page.
fn note_row(first: &mut FirstSlots, page: &Page, number: u8, slot: &[u8; 42], at: u32)
    requires above { 0 < number }
    requires other { number ≢ 25 }
    ensures { IsAfter (page_of page.now) (λ item. item_number item == number) slot.now at first.old first.new }
{
    first.row = noted(first.row, is_row_wrong(page, number, slot), at);
}

/// Notes slot `at`, which sends item `number` of the page.
pub fn note_item(first: &mut FirstSlots, page: &Page, number: u8, slot: &[u8; 42], at: u32)
    ensures { IsAfter (page_of page.now) (λ item. item_number item == number) slot.now at first.old first.new }
{
    match number {
        0 => note_head(first, page, slot, at),
        25 => note_links(first, page, slot, at),
        _ => note_row(first, page, number, slot, at),
    }
}

/// The first slots, with the first header of another subpage.
pub fn with_other_subpage(first: FirstSlots, other_subpage: Option<u32>) -> FirstSlots
    ensures { result ≡ record first { other_subpage = other_subpage } }
{
    FirstSlots {
        other_subpage,
        ..first
    }
}

/// The first fault of the page, in the order of the reasons.
pub fn least_fault(page: PageId, first: FirstSlots) -> Option<Reason>
    ensures { (cycle : List (List ℕ)) (pages : List definitions.Page) (p : definitions.Page) → page ≡ p.id → AreFirst cycle pages p first →
        IsPageFault cycle pages p result }
{
    if !first.has_header {
        return Some(Reason::NoHeader { page });
    }
    if let Some(slot) = first.other_subpage {
        return Some(Reason::OtherSubpage { page, slot });
    }
    if let Some(slot) = first.erased {
        return Some(Reason::Erased { page, slot });
    }
    if let Some(slot) = first.head {
        return Some(Reason::HeadDiffers { page, slot });
    }
    if let Some(slot) = first.row {
        return Some(Reason::RowDiffers { page, slot });
    }
    if let Some(slot) = first.links {
        return Some(Reason::LinksDiffer { page, slot });
    }
    None
}
