//! The first fault of a page: from the slots of a cycle, without allocating memory, or from the transmissions of its items in a period.

ghost use Rattle.std.specs.Prelude.{◌≡◌, ◌<◌, ◌+◌, ◌==◌, [], ℕ, List, None, Some, length, map, pos, slice_get, slice_index_or};
ghost use Rattle.ttx_cycle.specs.Cycles.{slots_of};
ghost use Rattle.ttx_page.specs.Pages as definitions;
ghost use Rattle.ttx_page.specs.Views.{page_of};
ghost use Rattle.ttx_page.specs.Streams.{repeated};
ghost use Rattle.ttx_page.specs.Steady.{OtherSubpageAt};
ghost use Rattle.ttx_page.specs.declared.item.Item.{Item as ItemValue};
ghost use Rattle.ttx_witness.specs.sent.AllSent.{AreAllSent};
ghost use Rattle.ttx_witness.specs.sent.Collected.{IsItem, item_number};
ghost use Rattle.ttx_witness.specs.sent.ItemTransmissions.{owner_scan, entry_owner, sent_in};
ghost use Rattle.ttx_witness.specs.faults.Comparing.{is_mine, is_number_of, OtherHeaderAt};
ghost use Rattle.ttx_witness.specs.faults.Faults.{TellsFirst, IsPageFault};
ghost use Rattle.ttx_witness.specs.faults.FirstSlots.{IsAfter, AreFirstTaken, SentBelow, TakenBelow};

use crate::faults::first_slots::{
    FirstSlots, least_fault, none_yet, note_item, with_other_subpage,
};
use crate::faults::reason::Reason;
use crate::runs::transmissions::Transmission;
use crate::sent::collected::Collected;
use crate::sent::packets::{heads_other_subpage, item_sent, mine_after};
use crate::sent::page_items::item_of;
use ttx_cycle::Cycle;
use ttx_header::PageId;
use ttx_page::{Page, Selection};

// The first header with the page's number and another subcode.
fn first_other_header(cycle: &Cycle, page: PageId) -> Option<u32>
    ensures { TellsFirst (slots_of cycle.now) (OtherHeaderAt (repeated (slots_of cycle.now)) page) result }
{
    let slots = cycle.slots();
    for j in 0..slots.len() {
        if heads_other_subpage(page, &slots[j]) {
            return Some(j as u32);
        }
    }
    None
}

// The first header of another subpage, if the page is the only one of its number.
fn first_other_subpage(cycle: &Cycle, pages: &[Page], index: usize) -> Option<u32>
    requires { index < length pages.now }
    ensures { (p : definitions.Page) → slice_get (map page_of pages.now) index ≡ Some p →
        TellsFirst (slots_of cycle.now) (OtherSubpageAt (repeated (slots_of cycle.now)) (map page_of pages.now) p) result }
{
    let id = pages[index].id();
    if Selection::AnySub(id.mag(), id.page()).fits(pages, index) {
        first_other_header(cycle, id)
    } else {
        None
    }
}

// Whether the latest header of the page's magazine at the end of the period, and so before its start, is the page's.
fn is_mine_at_end(cycle: &Cycle, page: PageId) -> bool
    ensures { result ≡ is_mine (owner_scan page (repeated (slots_of cycle.now)) None (length (slots_of cycle.now))) }
{
    let slots = cycle.slots();
    let mut mine = false;
    for j in 0..slots.len() {
        mine = mine_after(page, &slots[j], mine);
    }
    mine
}

// Notes slot `at`. `sent` is the number of the page's item that the slot sends, if it sends one.
fn note_sent(first: &mut FirstSlots, page: &Page, sent: Option<u8>, slot: &[u8; 42], at: u32)
    ensures { IsAfter (page_of page.now) (λ item. is_number_of item sent) slot.now at first.old first.new }
{
    if let Some(number) = sent {
        note_item(first, page, number, slot, at);
    }
}

// The first slots of the page in a period. `mine` says whether the latest header of its magazine before the period is the page's.
fn first_in_cycle(cycle: &Cycle, page: &Page, mine: bool) -> FirstSlots
    requires { mine ≡ is_mine (entry_owner (slots_of cycle.now) (page_of page.now).id) }
    ensures { AreFirstTaken (page_of page.now) (repeated (slots_of cycle.now)) (SentBelow (page_of page.now).id (repeated (slots_of cycle.now))
        (entry_owner (slots_of cycle.now) (page_of page.now).id) (length (slots_of cycle.now))) result }
{
    let slots = cycle.slots();
    let (mut mine, mut first) = (mine, none_yet());
    for j in 0..slots.len() {
        let sent = item_sent(page.id(), &slots[j], mine);
        note_sent(&mut first, page, sent, &slots[j], j as u32);
        mine = mine_after(page.id(), &slots[j], mine);
    }
    first
}

/// The first reason why the cycle does not send the page at `index` unchanged: the least number, and its least slot. `None` if and
/// only if the page is steady. Allocates no memory; takes time linear in the slots of the cycle.
pub fn page_fault(cycle: &Cycle, pages: &[Page], index: usize) -> Option<Reason>
    requires { index < length pages.now }
    ensures { (p : definitions.Page) → slice_get (map page_of pages.now) index ≡ Some p →
        IsPageFault (slots_of cycle.now) (map page_of pages.now) p result }
{
    let page = &pages[index];
    let mine = is_mine_at_end(cycle, page.id());
    let other_subpage = first_other_subpage(cycle, pages, index);
    let first = first_in_cycle(cycle, page, mine);
    least_fault(page.id(), with_other_subpage(first, other_subpage))
}

// Notes one more transmission of item `number`.
fn note_transmission(
    first: &mut FirstSlots,
    cycle: &Cycle,
    page: &Page,
    number: u8,
    sent: Transmission,
)
    ensures { (j : ℕ) → sent.slot ≡ pos j → j < length (slots_of cycle.now) →
        IsAfter (page_of page.now) (λ item. item_number item == number) (slice_index_or (slots_of cycle.now) j []) j first.old first.new }
{
    let slots = cycle.slots();
    let Ok(at) = usize::try_from(sent.slot) else {
        return;
    };
    if at < slots.len() {
        note_item(first, page, number, &slots[at], at as u32);
    }
}

// Notes all transmissions of item `number` in a period.
fn note_all(first: &mut FirstSlots, cycle: &Cycle, page: &Page, number: u8, sent: &[Transmission])
    ensures { (lines : ℕ) (item : ItemValue) → IsItem item → item_number item ≡ number →
        sent.now ≡ sent_in (slots_of cycle.now) (page_of page.now).id lines item →
        AreFirstTaken (page_of page.now) (repeated (slots_of cycle.now)) (TakenBelow (slots_of cycle.now) (page_of page.now).id number) first.old →
        AreFirstTaken (page_of page.now) (repeated (slots_of cycle.now)) (TakenBelow (slots_of cycle.now) (page_of page.now).id (number + 1)) first.new }
{
    for i in 0..sent.len() {
        note_transmission(first, cycle, page, number, sent[i]);
    }
}

// The first slots of the page among the transmissions that were collected in a period.
fn first_collected(cycle: &Cycle, page: &Page, collected: &Collected, index: usize) -> FirstSlots
    ensures { (pages : List definitions.Page) (lines : ℕ) → AreAllSent (slots_of cycle.now) pages lines collected.now →
        slice_get pages index ≡ Some (page_of page.now) →
        AreFirstTaken (page_of page.now) (repeated (slots_of cycle.now)) (TakenBelow (slots_of cycle.now) (page_of page.now).id 26) result }
{
    let mut first = none_yet();
    for number in 0..26u8 {
        let sent = collected.sent(index, item_of(number));
        note_all(&mut first, cycle, page, number, sent);
    }
    first
}

/// The first reason why the cycle does not send the page unchanged; `None` if the page is steady. `index` is the place of the page
/// among those whose transmissions are collected. Returns what `page_fault` returns, in time linear in the page's transmissions.
/// `other_subpage` is the first slot with a header of the page's number and another subcode, if the page is the only one of its
/// number.
pub fn fault_of(
    cycle: &Cycle,
    page: &Page,
    collected: &Collected,
    index: usize,
    other_subpage: Option<u32>,
) -> Option<Reason>
    ensures { (pages : List definitions.Page) (lines : ℕ) → AreAllSent (slots_of cycle.now) pages lines collected.now →
        slice_get pages index ≡ Some (page_of page.now) →
        TellsFirst (slots_of cycle.now) (OtherSubpageAt (repeated (slots_of cycle.now)) pages (page_of page.now)) other_subpage →
        IsPageFault (slots_of cycle.now) pages (page_of page.now) result }
{
    let first = first_collected(cycle, page, collected, index);
    least_fault(page.id(), with_other_subpage(first, other_subpage))
}
