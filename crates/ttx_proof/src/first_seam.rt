//! Finds the first common page with a seam.

ghost use Rattle.std.specs.Prelude.{Contains};
ghost use Rattle.ttx_cycle.specs.Cycles.{slots_of};
ghost use Rattle.ttx_page.specs.Views.{page_of, ids_of};
ghost use Rattle.ttx_witness.specs.sent.Collected.{IsIndex};
ghost use Rattle.ttx_proof.specs.Seams.{AreLatest};
ghost use Rattle.ttx_proof.specs.Splicing.{splice_between, TellsSeamOf, TellsSeams};

use crate::common::equal_place;
use crate::seams::{first_seam, latest_headers};
use crate::sides::Sides;
use crate::verdict::SpliceReason;
use ttx_page::Page;
use ttx_witness::PageIndex;

// The first seam of the page at a place of the new list, if it is common.
fn seam_of(
    sides: &Sides,
    index: &PageIndex,
    latest: &[Option<usize>; 8],
    page: &Page,
) -> Option<u32>
    requires index { IsIndex (ids_of sides.now.old.pages.now) index.now }
    requires latest { AreLatest (slots_of sides.now.old.cycle.now) latest.now }
    ensures { Contains (splice_between sides.now).new_pages (page_of page.now) → TellsSeamOf (splice_between sides.now) (page_of page.now) result }
{
    let (old, new) = (&sides.old, &sides.new);
    let slot = first_seam(old.cycle, new.cycle, latest, page)?;
    match equal_place(old.pages, index, page) {
        Some(_) => Some(slot),
        None => None,
    }
}

/// The first seam of the first common page that has one. The index is that of the old pages.
pub fn find_seam(sides: &Sides, index: &PageIndex) -> Option<SpliceReason>
    requires { IsIndex (ids_of sides.now.old.pages.now) index.now }
    ensures { TellsSeams (splice_between sides.now) result }
{
    let latest = latest_headers(sides.old.cycle);
    let pages = sides.new.pages;
    for place in 0..pages.len() {
        let page = &pages[place];
        if let Some(slot) = seam_of(sides, index, &latest, page) {
            let page = page.id();
            return Some(SpliceReason::Seam { page, slot });
        }
    }
    None
}
