//! The pages that the headers of a cycle name.

ghost use Rattle.std.specs.Prelude.{◌≡◌, ◌≢◌, ◌≤◌, ◌<◌, ℕ, Some, IfOk, IfErr, OnOk, MatchOption, length, slice_get};
ghost use Rattle.ttx_header.specs.Ids.{Id};
ghost use Rattle.ttx_cycle.specs.Cycles.{slots_of};
ghost use Rattle.ttx_page.specs.Packets.{packet_of};
ghost use Rattle.ttx_page.specs.Views.{page_of, ids_of};
ghost use Rattle.ttx_extract.specs.NamedPages.{with_id, with_name, named};
ghost use Rattle.ttx_extract.specs.Naming.{IsNamingFault, IsSubcodeFault};

use crate::faults::ExtractFault;
use crate::sent_page::{blank_head, blank_rows};
use indexmap::IndexSet;
use std::alloc::Global;
use ttx_cycle::Cycle;
use ttx_header::{Control, PageId};
use ttx_links::Links;
use ttx_page::Page;
use ttx_source::{SourceError, SourceFault};
use ttx_witness::{NoMemory, header_in};

// The page number of time-filling headers, which belong to no page.
const TIME_FILLING: u8 = 0xff;

// The subcode that no page may have.
const NO_SUBPAGE: u16 = 0x3f7f;

// The most pages of a service.
const MOST_PAGES: usize = 2000;

// Adds the id of a header if it is new.
fn note_id(ids: &mut IndexSet<PageId>, id: PageId) -> Result<(), NoMemory>
    ensures { OnOk result (ids.new.keys ≡ with_id ids.old.keys id) }
{
    if id.page() == TIME_FILLING {
        return Ok(());
    }
    match ids.insert(id) {
        Ok(_) => Ok(()),
        Err(_) => Err(NoMemory),
    }
}

// Adds the id of the header in a slot.
fn note_slot(ids: &mut IndexSet<PageId>, slot: &[u8; 42]) -> Result<(), NoMemory>
    ensures { OnOk result (ids.new.keys ≡ with_name ids.old.keys (packet_of slot.now)) }
{
    ttx_cycle::arrays::is_slot(slot);
    match header_in(slot) {
        Some(header) => note_id(ids, header.id()),
        None => Ok(()),
    }
}

// The ids that headers name, in the order of their first headers.
fn named_ids(alloc: Global, cycle: &Cycle) -> Result<IndexSet<PageId>, NoMemory>
    ensures { IfOk result (λ ids. ids.keys ≡ named (slots_of cycle.now)) }
{
    let slots = cycle.slots();
    let mut ids = IndexSet::new(alloc);
    for j in 0..slots.len() {
        note_slot(&mut ids, &slots[j])?;
    }
    Ok(ids)
}

// A blank page with an id; `None` if no page can have it.
fn blank_page(id: PageId) -> Option<Page>
    requires { id.page ≢ 0xff }
    ensures { MatchOption result (id.sub ≡ 0x3f7f) (λ p. (page_of p).id ≡ id) }
{
    if id.sub() == NO_SUBPAGE {
        return None;
    }
    // its ranges
    let _mag = id.mag();
    let links = Links::new([None; 6], false, [0; 2]);
    Page::new(id, Control(0), blank_head(), blank_rows(), links)
}

// Blank pages with these ids.
fn blank_pages(alloc: Global, ids: &[PageId]) -> Result<Vec<Page>, ExtractFault>
    requires { (n : ℕ) (id : Id) → slice_get ids.now n ≡ Some id → id.page ≢ 0xff }
    ensures pages { IfOk result (λ pages. ids_of pages.items ≡ ids.now) }
    ensures fault { IfErr result (IsSubcodeFault ids.now) }
{
    let mut pages = Vec::new(alloc);
    for index in 0..ids.len() {
        let Some(page) = blank_page(ids[index]) else {
            return Err(ExtractFault::Service(SourceError {
                fault: SourceFault::Subcode,
                page: index + 1,
            }));
        };
        match pages.push(page) {
            Ok(()) => {}
            Err(_) => return Err(ExtractFault::NoMemory),
        }
    }
    Ok(pages)
}

/// Blank pages with the ids that headers name, in the order of their first headers; at most 2,000.
pub fn named_pages(alloc: Global, cycle: &Cycle) -> Result<Vec<Page>, ExtractFault>
    ensures pages { IfOk result (λ pages. ids_of pages.items ≡ named (slots_of cycle.now)) }
    ensures few { IfOk result (λ pages. length (named (slots_of cycle.now)) ≤ 2000) }
    ensures fault { IfErr result (IsNamingFault (named (slots_of cycle.now))) }
{
    let Ok(ids) = named_ids(alloc, cycle) else {
        return Err(ExtractFault::NoMemory);
    };
    if ids.len() > MOST_PAGES {
        return Err(ExtractFault::Service(SourceError {
            fault: SourceFault::Range { key: "page" },
            page: 0,
        }));
    }
    blank_pages(alloc, ids.as_slice())
}
