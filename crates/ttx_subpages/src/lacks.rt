//! Decides whether the subpages of all numbers are sent whole.

ghost use Rattle.std.specs.Prelude.{◌≡◌, ◌≢◌, ◌<◌, ◌↔◌, ℕ, IfOk, IsTrue, MatchOption, Some, length, map, slice_get, pos, true};
ghost use Rattle.std.specs.List.{AllPairs, list_any};
ghost use Rattle.ttx_page.specs.Packets.{packet_of};
ghost use Rattle.ttx_page.specs.Pages as definitions;
ghost use Rattle.ttx_page.specs.Streams.{repeated, heads_page};
ghost use Rattle.ttx_page.specs.Views.{page_of, ids_of};
ghost use Rattle.ttx_cycle.specs.Cycles.{slots_of};
ghost use Rattle.ttx_source.specs.Services.{pages_of};
ghost use Rattle.ttx_witness.specs.sent.AllSent.{AreAllSent};
ghost use Rattle.ttx_subpages.specs.WholeBlocks.{ComesUnder, IsWhole};
ghost use Rattle.ttx_subpages.specs.Numbers.{AllSendWholeAt, AllSendWhole};
ghost use Rattle.ttx_subpages.specs.Lacks.{is_under, IsFirstMissing, IsLackAt, IsFirstLack};

use crate::lack::Lack;
use crate::numbers::count_of;
use std::alloc::Global;
use ttx_cycle::Cycle;
use ttx_header::PageId;
use ttx_late::place_of;
use ttx_page::{Item, Page, needed};
use ttx_source::Service;
use ttx_witness::{Collected, NoMemory, Transmission, collect, header_in, item_of};

// Whether the transmission is a sure one under the header at the slot, in the same period or in the next one.
fn is_under(t: Transmission, at: i32, period: u32) -> bool
    ensures { result ≡ is_under at period t }
{
    t.sure && (t.owner == at || i64::from(t.owner) + i64::from(period) == i64::from(at))
}

// Whether one of the transmissions is.
fn comes_under(sent: &[Transmission], at: i32, period: u32) -> bool
    ensures { result ≡ list_any (is_under at period) sent.now }
{
    sent.iter().any(|t| is_under(*t, at, period))
}

// A cycle, the pages of a list, and all that the cycle sends of them.
#[derive(Clone, Copy)]
struct Sendings<'a> {
    cycle: &'a Cycle,
    pages: &'a [Page],
    lines: u8,
    collected: &'a Collected,
    ghost distinct: { AllPairs (λ a b. a ≢ b) (ids_of pages.now) },
    ghost sent: { AreAllSent (slots_of cycle.now) (map page_of pages.now) lines collected.now },
}

// Whether the item of the page at the index comes under its header at the slot.
fn comes(sendings: &Sendings, index: usize, item: &Item, at: usize) -> bool
    requires { at < length (slots_of sendings.now.cycle.now) }
    ensures { (p : definitions.Page) → slice_get (map page_of sendings.now.pages.now) index ≡ Some p →
        IsTrue result ↔ ComesUnder (repeated (slots_of sendings.now.cycle.now)) p sendings.now.lines item.now (pos at) }
{
    ttx_witness::judging_laws::transmissions_are_listed();
    ttx_page::laws::streams_move();
    ttx_page::laws::cycles_repeat();
    ttx_page::laws::owners_are_unique();
    ttx_page::laws::owners_come_first();
    ttx_page::laws::owners_are_near();
    let period = sendings.cycle.slots().len() as u32;
    comes_under(sendings.collected.sent(index, *item), at as i32, period)
}

// The first item of the page that a viewer sees and that does not come under its header at the slot.
fn missing_item(sendings: &Sendings, index: usize, at: usize) -> Option<Item>
    requires index { index < length sendings.now.pages.now }
    requires at { at < length (slots_of sendings.now.cycle.now) }
    ensures { (p : definitions.Page) → slice_get (map page_of sendings.now.pages.now) index ≡ Some p →
        MatchOption result (IsWhole (repeated (slots_of sendings.now.cycle.now)) p sendings.now.lines (pos at))
        (IsFirstMissing (repeated (slots_of sendings.now.cycle.now)) p sendings.now.lines (pos at)) }
{
    let page = &sendings.pages[index];
    for number in 0..26u8 {
        let item = item_of(number);
        if needed(page, item) && !comes(sendings, index, &item, at) {
            return Some(item);
        }
    }
    None
}

// What the header with this id in the slot lacks.
fn lack_of(sendings: &Sendings, page: PageId, slot: usize) -> Option<Lack>
    requires at { slot < length (slots_of sendings.now.cycle.now) }
    requires header { heads_page page (packet_of (repeated (slots_of sendings.now.cycle.now) (pos slot))) ≡ true }
    ensures { MatchOption result (AllSendWholeAt (repeated (slots_of sendings.now.cycle.now)) (map page_of sendings.now.pages.now) sendings.now.lines (pos slot))
        (IsLackAt (slots_of sendings.now.cycle.now) (map page_of sendings.now.pages.now) sendings.now.lines slot) }
{
    if count_of(sendings.pages, page.mag(), page.page()) < 2 {
        return None;
    }
    match place_of(sendings.pages, page) {
        Some(index) => match missing_item(sendings, index, slot) {
            Some(item) => Some(Lack::Unwhole { page, item, slot }),
            None => None,
        },
        None => Some(Lack::Unlisted { page, slot }),
    }
}

// What the slot lacks, if it is a header.
fn lack_at(sendings: &Sendings, slot: usize) -> Option<Lack>
    requires at { slot < length (slots_of sendings.now.cycle.now) }
    ensures { MatchOption result (AllSendWholeAt (repeated (slots_of sendings.now.cycle.now)) (map page_of sendings.now.pages.now) sendings.now.lines (pos slot))
        (IsLackAt (slots_of sendings.now.cycle.now) (map page_of sendings.now.pages.now) sendings.now.lines slot) }
{
    match header_in(&sendings.cycle.slots()[slot]) {
        Some(header) => lack_of(sendings, header.id(), slot),
        None => None,
    }
}

// What is missing at the first slot at which anything is.
fn lack_among(sendings: &Sendings) -> Option<Lack>
    ensures { MatchOption result (AllSendWhole (repeated (slots_of sendings.now.cycle.now)) (map page_of sendings.now.pages.now) sendings.now.lines)
        (IsFirstLack (slots_of sendings.now.cycle.now) (map page_of sendings.now.pages.now) sendings.now.lines) }
{
    ttx_page::laws::each_slot_turns();
    ttx_page::laws::streams_move();
    for slot in 0..sendings.cycle.slots().len() {
        let lack = lack_at(sendings, slot);
        if lack.is_some() {
            return lack;
        }
    }
    None
}

// What is missing at the first header of a number with several pages at which anything is, for pages with distinct ids.
pub(crate) fn lack_in(
    alloc: Global,
    cycle: &Cycle,
    pages: &[Page],
    lines: u8,
) -> Result<Option<Lack>, NoMemory>
    requires distinct { AllPairs (λ a b. a ≢ b) (ids_of pages.now) }
    ensures { IfOk result (λ lack. MatchOption lack (AllSendWhole (repeated (slots_of cycle.now)) (map page_of pages.now) lines)
        (IsFirstLack (slots_of cycle.now) (map page_of pages.now) lines)) }
{
    let collected = collect(alloc, cycle, pages, lines)?;
    let sendings = Sendings {
        cycle,
        pages,
        lines,
        collected: &collected,
    };
    Ok(lack_among(&sendings))
}

/// The first header of a number with several pages under which not all of its page comes, or which is of none of these pages; of its
/// page the first such item. `None` if the subpages of each such number are sent whole. `lines` is slots in a field, and `Err` says that
/// memory runs out.
pub fn first_lack(
    alloc: Global,
    cycle: &Cycle,
    service: &Service,
    lines: u8,
) -> Result<Option<Lack>, NoMemory>
    ensures { IfOk result (λ lack. MatchOption lack (AllSendWhole (repeated (slots_of cycle.now)) (pages_of service.now) lines)
        (IsFirstLack (slots_of cycle.now) (pages_of service.now) lines)) }
{
    lack_in(alloc, cycle, service.pages(), lines)
}
