//! The headers and the first slots of each page, noted slot by slot.

ghost use Rattle.std.specs.Prelude.{◌≡◌, ℕ, length, map, slice_get, Some, ◌==◌};
ghost use Rattle.ttx_page.specs.Pages as definitions;
ghost use Rattle.ttx_page.specs.Views.{page_of};
ghost use Rattle.ttx_witness.specs.sent.Collected.{item_number};
ghost use Rattle.ttx_certify.specs.declared.walks.page_facts.Facts.{Facts as FactsValue};
ghost use Rattle.ttx_witness.specs.sent.OneSlot.{is_sent};
ghost use Rattle.ttx_witness.specs.Elements.{HoldsAt};
ghost use Rattle.ttx_certify.specs.walks.PageFacts.{Noted, next_head, heads_after, late_of};

use crate::walks::numbered_slot::NumberedSlot;
use ttx_page::Page;
use ttx_witness::first_slots::{FirstSlots, note_item};
use ttx_witness::one_slot::Sent;

/// The first and the last header of a page, and the first header that the next one followed too late.
#[derive(Clone, Copy)]
pub struct Heads {
    pub first: i32,
    pub last: i32,
    pub late: Option<u32>,
}

/// The headers of a page, and for each reason about the contents of its slots the first slot where it is true.
#[derive(Clone, Copy)]
pub struct Facts {
    pub heads: Option<Heads>,
    pub first: FirstSlots,
}

// The headers of a page after one more header, in slot `j`.
fn next_head(heads: Option<Heads>, j: i32, limit: u32) -> Heads
    ensures { result ≡ next_head limit j heads }
{
    let Some(h) = heads else {
        return Heads {
            first: j,
            last: j,
            late: None,
        };
    };
    let is_late = i64::from(h.last) + i64::from(limit) < i64::from(j);
    let late = if h.late.is_none() && is_late {
        Some(h.last.unsigned_abs())
    } else {
        h.late
    };
    Heads {
        first: h.first,
        last: j,
        late,
    }
}

// The headers of a page after slot `j`. `sent` says whether that slot is a header of the page.
fn heads_after(heads: Option<Heads>, j: i32, limit: u32, sent: bool) -> Option<Heads>
    ensures { result ≡ heads_after limit j sent heads }
{
    if sent {
        Some(next_head(heads, j, limit))
    } else {
        heads
    }
}

// Notes a slot that sends item `number` of the page.
fn note_facts(facts: &mut Facts, page: &Page, number: u8, slot: &NumberedSlot, limit: u32)
    ensures { Noted limit (page_of page.now) (λ item. item_number item == number) slot.now.bytes.now slot.now.at facts.old facts.new }
{
    facts.heads = heads_after(facts.heads, slot.at as i32, limit, 0 == number);
    note_item(&mut facts.first, page, number, slot.bytes, slot.at);
}

/// Adds what a slot sends to the facts of its page.
pub fn note_sent(
    all: &mut Vec<Facts>,
    pages: &[Page],
    sent: Option<Sent>,
    slot: &NumberedSlot,
    limit: u32,
)
    ensures count { length all.new.items ≡ length all.old.items }
    ensures noted { (i : ℕ) (p : definitions.Page) (x : FactsValue) → slice_get (map page_of pages.now) i ≡ Some p →
        slice_get all.old.items i ≡ Some x →
        HoldsAt FactsValue all.new.items i (Noted limit p (λ item. is_sent i item sent) slot.now.bytes.now slot.now.at x) }
{
    let Some(s) = sent else {
        return;
    };
    let at = s.page as usize;
    if at < all.len() && at < pages.len() {
        note_facts(&mut all[at], &pages[at], s.number, slot, limit);
    }
}

/// The first header that the next one follows too late. The header after the last one is the first one, a period later.
pub fn late_of(heads: Option<Heads>, period: u32, limit: u32) -> Option<u32>
    ensures { result ≡ late_of limit period heads }
{
    let h = heads?;
    if h.late.is_some() {
        return h.late;
    }
    if i64::from(h.last) + i64::from(limit) < i64::from(h.first) + i64::from(period) {
        Some(h.last.unsigned_abs())
    } else {
        None
    }
}
