//! Whether a second pass ends with the owners with which it began.

ghost use Rattle.std.specs.Prelude.{◌≡◌, ◌↔◌, IsTrue, ℕ, pos, ◌-ℤ◌, Some, slice_get};
ghost use Rattle.ttx_header.specs.Ids.{Id};
ghost use Rattle.ttx_witness.specs.sent.ItemTransmissions.{owner_moved};
ghost use Rattle.ttx_witness.specs.sent.Collected.{is_page, seen_by, owner_for};
ghost use Rattle.ttx_page.specs.Views.{ids_of};

use ttx_page::Page;
use ttx_witness::Owner;

// Whether this is the page at `index`.
fn is_page(page: Option<u32>, index: usize) -> bool
    ensures { result ≡ is_page index page }
{
    match page {
        Some(page) => page as usize == index,
        None => false,
    }
}

// Whether one owner is the other one `by` slots later, as seen by the page at `index`.
fn is_later(entry: Option<Owner>, exit: Option<Owner>, index: usize, by: u32) -> bool
    ensures { IsTrue result ↔ (owner_moved (pos 0 -ℤ pos by) (seen_by index exit) ≡ seen_by index entry) }
{
    match (entry, exit) {
        (None, None) => true,
        (Some(a), Some(b)) => {
            i64::from(b.slot) - i64::from(by) == i64::from(a.slot)
                && is_page(a.page, index) == is_page(b.page, index)
                && a.tainted == b.tainted
        }
        _ => false,
    }
}

/// Whether the owners at the end are those at the beginning `by` slots later, as each page sees its magazine's owner.
pub fn are_steady(
    pages: &[Page],
    entry: &[Option<Owner>; 8],
    exit: &[Option<Owner>; 8],
    by: u32,
) -> bool
    ensures { IsTrue result ↔ ((i : ℕ) (id : Id) → slice_get (ids_of pages.now) i ≡ Some id →
        owner_moved (pos 0 -ℤ pos by) (owner_for exit.now i id) ≡ owner_for entry.now i id) }
{
    for i in 0..pages.len() {
        let mag = usize::from(pages[i].id().mag()) - 1;
        if !is_later(entry[mag], exit[mag], i, by) {
            return false;
        }
    }
    true
}
