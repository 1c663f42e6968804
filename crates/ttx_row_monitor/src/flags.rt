//! Which slots of a cycle send a row that a viewer sees.

ghost use Rattle.std.specs.Prelude.{List, ◌≡◌, ◌≢◌, ◌<◌, ℤ, pos, ℕ, IfOk, map, length, slice_index_or, None};
ghost use Rattle.std.specs.List.{AllPairs};
ghost use Rattle.ttx_cycle.specs.Cycles.{slots_of};
ghost use Rattle.ttx_page.specs.Views.{page_of, ids_of};
ghost use Rattle.ttx_page.specs.Pages.{needed};
ghost use Rattle.ttx_page.specs.declared.item.Item.TheVariants.{Row as TheRow};
ghost use Rattle.ttx_monitor.specs.Places.{IsTable, IsPlaced};
ghost use Rattle.ttx_row_monitor.specs.Flags.{AreFlags, IsFlag};

use std::alloc::Global;
use ttx_cycle::Cycle;
use ttx_monitor::{RowPlace, table_of};
use ttx_page::{Item, Page, RowNumber, needed};
use ttx_witness::NoMemory;

// Whether a viewer of the page sees this row. Row 0 does not count.
fn is_needed_row(page: &Page, row: u8) -> bool
    ensures { result ≡ needed (page_of page.now) (TheRow row) }
{
    match RowNumber::new(row) {
        Some(row) => needed(page, Item::Row(row)),
        None => false,
    }
}

// Whether a viewer sees the row at a place.
fn is_needed(pages: &[Page], place: Option<RowPlace>) -> bool
    ensures { (cycle : List (List ℕ)) (j : ℕ) → IsPlaced cycle (map page_of pages.now) j place → IsFlag cycle (map page_of pages.now) (pos j) result }
{
    ttx_packet::laws::rows_are_numbered();
    let Some(place) = place else {
        return false;
    };
    match pages.get(place.page as usize) {
        Some(page) => is_needed_row(page, place.row),
        None => false,
    }
}

// The entry at a place of the table.
fn place_at(table: &[Option<RowPlace>], at: usize) -> Option<RowPlace>
    ensures { result ≡ slice_index_or table.now at None }
{
    if at < table.len() { table[at] } else { None }
}

/// For each slot of the cycle, whether it sends a row that a viewer of one of the pages sees. The ids of the pages are distinct.
pub fn flags_of(alloc: Global, cycle: &Cycle, pages: &[Page]) -> Result<Vec<bool>, NoMemory>
    requires distinct { AllPairs (λ a b. a ≢ b) (ids_of pages.now) }
    ensures { IfOk result (λ flags. AreFlags (slots_of cycle.now) (map page_of pages.now) flags.items) }
{
    let table = table_of(alloc, cycle, pages)?;
    let mut flags = Vec::new(alloc);
    for j in 0..table.len() {
        let place = place_at(table.as_slice(), j);
        if flags.push(is_needed(pages, place)).is_err() {
            return Err(NoMemory);
        }
    }
    Ok(flags)
}
