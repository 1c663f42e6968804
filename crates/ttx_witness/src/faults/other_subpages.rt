//! Headers of other subpages, for all pages at once.

ghost use Rattle.std.specs.Prelude.{◌≡◌, ◌<◌, ◌≤◌, ℕ, IfOk, List, None, get_or, length, map, replicate};
ghost use Rattle.ttx_cycle.specs.Cycles.{slots_of};
ghost use Rattle.ttx_page.specs.Packets.{packet_of};
ghost use Rattle.ttx_page.specs.Views.{page_of};
ghost use Rattle.ttx_header.specs.Ids.{Id};
ghost use Rattle.ttx_witness.specs.faults.OtherSubpages.{place, first_of, heads_other, is_other_id, AreOtherHeaders, AreOtherSubpages};
ghost use Rattle.ttx_witness.specs.sent.IndexedHeaders.{IsHeaderOf};

use crate::faults::subcodes::{NUMBERS, Subcodes, is_other, place, subcodes_of};
use crate::sent::indexed_headers::IndexedHeader;
use crate::sent::packets::id_in;
use std::alloc::Global;
use ttx_certificate::NoMemory;
use ttx_cycle::Cycle;
use ttx_header::PageId;
use ttx_page::Page;

/// For each page number with one listed subcode, the first header with another subcode.
#[derive(Drop)]
pub struct OtherSubpages {
    first: Vec<Option<u32>>,
}

/// The first slot so far where a property holds: the earlier one, or slot `j` if `is` says that the property holds there.
pub fn first_of(first: Option<u32>, is: bool, j: u32) -> Option<u32>
    ensures { result ≡ first_of first is j }
{
    match first {
        Some(i) => Some(i),
        None => { if is { Some(j) } else { None } }
    }
}

// Notes the header of a page in slot `j` if it is the first one with another subcode than the one that is listed for its number.
fn note_id(first: &mut Vec<Option<u32>>, subcodes: &[Subcodes], id: PageId, j: u32)
    requires first { length first.old.items ≡ 2048 }
    requires subcodes { length subcodes.now ≡ 2048 }
    ensures size { length first.new.items ≡ 2048 }
    ensures noted { (mag number : ℕ) → 1 ≤ mag → mag ≤ 8 → number < 256 →
        get_or first.new.items (place mag number) None
        ≡ first_of (get_or first.old.items (place mag number) None) (is_other_id subcodes.now mag number id) j }
{
    let at = place(id);
    first[at] = first_of(first[at], is_other(subcodes[at], id.sub()), j);
}

/// Notes the header in slot `j`, if there is one and it is the first one with another subcode than the one that is listed for its number.
pub fn note_other(
    first: &mut Vec<Option<u32>>,
    subcodes: &[Subcodes],
    header: &Option<IndexedHeader>,
    j: u32,
)
    requires first { length first.old.items ≡ 2048 }
    requires subcodes { length subcodes.now ≡ 2048 }
    ensures size { length first.new.items ≡ 2048 }
    ensures noted { (ids : List Id) (slot : List ℕ) → IsHeaderOf ids slot header.now →
        (mag number : ℕ) → 1 ≤ mag → mag ≤ 8 → number < 256 →
        get_or first.new.items (place mag number) None
        ≡ first_of (get_or first.old.items (place mag number) None) (heads_other subcodes.now mag number (packet_of slot)) j }
{
    if let Some(header) = header {
        note_id(first, subcodes, header.id, j);
    }
}

// The same for the header that is read in the slot.
fn note_slot(first: &mut Vec<Option<u32>>, subcodes: &[Subcodes], slot: &[u8; 42], j: u32)
    requires first { length first.old.items ≡ 2048 }
    requires subcodes { length subcodes.now ≡ 2048 }
    ensures size { length first.new.items ≡ 2048 }
    ensures noted { (mag number : ℕ) → 1 ≤ mag → mag ≤ 8 → number < 256 →
        get_or first.new.items (place mag number) None
        ≡ first_of (get_or first.old.items (place mag number) None) (heads_other subcodes.now mag number (packet_of slot.now)) j }
{
    if let Some((id, _)) = id_in(slot) {
        note_id(first, subcodes, id, j);
    }
}

/// A table of all page numbers, without any header yet. `Err` if memory runs out.
pub fn none_told(alloc: Global) -> Result<Vec<Option<u32>>, NoMemory>
    ensures { IfOk result (λ first. first.items ≡ replicate 2048 None) }
{
    let mut first = Vec::new(alloc);
    for i in 0..NUMBERS {
        if first.push(None).is_err() {
            return Err(NoMemory);
        }
    }
    Ok(first)
}

// For each number with one listed subcode, the first header with another subcode.
fn first_other_headers(
    alloc: Global,
    cycle: &Cycle,
    subcodes: &[Subcodes],
) -> Result<Vec<Option<u32>>, NoMemory>
    requires { length subcodes.now ≡ 2048 }
    ensures size { IfOk result (λ first. length first.items ≡ 2048) }
    ensures first { IfOk result (λ first. AreOtherHeaders (slots_of cycle.now) subcodes.now first.items) }
{
    let slots = cycle.slots();
    let mut first = none_told(alloc)?;
    for j in 0..slots.len() {
        note_slot(&mut first, subcodes, &slots[j], j as u32);
    }
    Ok(first)
}

impl OtherSubpages {
    ghost use Rattle.std.specs.Prelude.{◌≡◌, ◌≤◌, ℕ, IfOk, Some, List, length, map, slice_get};
    ghost use Rattle.ttx_cycle.specs.Cycles.{slots_of};
    ghost use Rattle.ttx_page.specs.Pages as definitions;
    ghost use Rattle.ttx_page.specs.Streams.{repeated};
    ghost use Rattle.ttx_page.specs.Steady.{OtherSubpageAt};
    ghost use Rattle.ttx_page.specs.Views.{page_of};
    ghost use Rattle.ttx_witness.specs.faults.Faults.{TellsFirst};
    ghost use Rattle.ttx_witness.specs.faults.OtherSubpages.{AreOtherSubpages};

    /// Finds the first headers of other subpages for these pages, in time linear in the slots and the pages. `Err` if memory runs out.
    pub fn of(alloc: Global, cycle: &Cycle, pages: &[Page]) -> Result<OtherSubpages, NoMemory>
        ensures { IfOk result (λ others. AreOtherSubpages (slots_of cycle.now) (map page_of pages.now) others) }
    {
        let subcodes = subcodes_of(alloc, pages)?;
        let first = first_other_headers(alloc, cycle, &subcodes)?;
        Ok(OtherSubpages { first })
    }

    /// The first header of another subpage of this listed page, if it is the only one of its number.
    pub fn first(&self, page: PageId) -> Option<u32>
        ensures { (cycle : List (List ℕ)) (pages : List definitions.Page) (n : ℕ) (p : definitions.Page) →
            AreOtherSubpages cycle pages self.now → slice_get pages n ≡ Some p → page ≡ p.id →
            TellsFirst cycle (OtherSubpageAt (repeated cycle) pages p) result }
    {
        match self.first.get(place(page)) {
            Some(first) => *first,
            None => None,
        }
    }
}
