//! The first page of a service that a cycle does not send unchanged.

ghost use Rattle.std.specs.Prelude.{◌≡◌, ℕ, List, MatchOption, Some, map, slice_get};
ghost use Rattle.ttx_cycle.specs.Cycles.{slots_of};
ghost use Rattle.ttx_page.specs.Pages as definitions;
ghost use Rattle.ttx_page.specs.Streams.{repeated};
ghost use Rattle.ttx_page.specs.Steady.{Steady};
ghost use Rattle.ttx_page.specs.Views.{page_of};
ghost use Rattle.ttx_witness.specs.sent.AllSent.{AreAllSent};
ghost use Rattle.ttx_witness.specs.faults.OtherSubpages.{AreOtherSubpages};
ghost use Rattle.ttx_extract.specs.FirstReasons.{TellsPage};

use ttx_cycle::Cycle;
use ttx_header::PageId;
use ttx_page::Page;
use ttx_witness::{Collected, OtherSubpages, Reason, fault_of};

/// A reason, and its page with the page's place.
#[derive(Clone, Copy)]
pub struct Told {
    pub index: usize,
    pub page: PageId,
    pub reason: Reason,
}

/// The first page that isn't sent unchanged, and why.
pub fn first_reason(
    cycle: &Cycle,
    pages: &[Page],
    collected: &Collected,
    others: &OtherSubpages,
) -> Option<Told>
    ensures { (lines : ℕ) → AreAllSent (slots_of cycle.now) (map page_of pages.now) lines collected.now →
        AreOtherSubpages (slots_of cycle.now) (map page_of pages.now) others.now →
        MatchOption result ((n : ℕ) (p : definitions.Page) → slice_get (map page_of pages.now) n ≡ Some p →
        Steady (repeated (slots_of cycle.now)) (map page_of pages.now) p)
        (TellsPage (slots_of cycle.now) (map page_of pages.now)) }
{
    for index in 0..pages.len() {
        let page = &pages[index];
        let other_subpage = others.first(page.id());
        if let Some(reason) = fault_of(cycle, page, collected, index, other_subpage) {
            return Some(Told {
                index,
                page: page.id(),
                reason,
            });
        }
    }
    None
}
