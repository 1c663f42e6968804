//! The warnings about pages.

ghost use Rattle.std.specs.Prelude.{◌≡◌, ◌++◌, ◌||◌, OnOk, map};
ghost use Rattle.std.specs.List.{list_any};
ghost use Rattle.ttx_page.specs.Views.{page_of};
ghost use Rattle.ttx_tallies.specs.Tallies.{times_in};
ghost use Rattle.ttx_check.specs.PageWarnings.{has_box, lacks_box, is_asked_for, has_letter_number, has_letter_subcode, key_warnings, own_warnings};
ghost use Rattle.ttx_check.specs.PageWarnings.{order_warnings, page_warnings, pages_from};

use crate::entries::Entry;
use crate::links::push_links;
use crate::rows::{push_if, push_rows, push_signs};
use crate::warning::Warning;
use std::alloc::AllocError;
use std::collections::BTreeMap;
use ttx_header::PageId;
use ttx_page::{Item, Page, RowNumber, is_blank};
use ttx_tallies::count_of;

// Two of these codes in succession start a box.
const START_BOX: u8 = 0x0b;

/// For each page, by its place in the service: how often it is sent directly behind another subpage of its number, and how often
/// directly behind itself.
#[derive(Drop)]
pub struct Order {
    pub subpages: BTreeMap<usize, usize>,
    pub copies: BTreeMap<usize, usize>,
}

// Whether a box starts in these characters.
fn has_box(row: &[u8]) -> bool
    ensures { result ≡ has_box row.now }
{
    let mut started = false;
    for code in row {
        if started && *code == START_BOX {
            return true;
        }
        started = *code == START_BOX;
    }
    false
}

// Whether a box starts in any of the rows.
fn have_box(rows: &[[u8; 40]]) -> bool
    ensures { result ≡ list_any has_box rows.now }
{
    rows.iter().any(|row| has_box(row))
}

// Whether a newsflash or subtitle page has no box.
fn lacks_box(page: &Page) -> bool
    ensures { result ≡ lacks_box (page_of page.now) }
{
    let control = page.control();
    (control.is_newsflash() || control.is_subtitle())
        && !(has_box(page.head()) || have_box(page.rows()))
}

// Whether row 24 is asked for, and blank.
fn is_asked_for(page: &Page) -> bool
    ensures { result ≡ is_asked_for (page_of page.now) }
{
    page.links().show24() && is_blank(page, Item::Row(RowNumber::new(24).unwrap()))
}

// Whether a page number has a digit from A to F.
fn has_letter_number(page: PageId) -> bool
    ensures { result ≡ has_letter_number page }
{
    page.page() / 16 > 9 || page.page() % 16 > 9
}

// Whether a subcode has a digit from A to F.
fn has_letter_subcode(page: PageId) -> bool
    ensures { result ≡ has_letter_subcode page }
{
    let sub = page.sub();
    (sub / 4096 > 9 || sub / 256 % 16 > 9) || (sub / 16 % 16 > 9 || sub % 16 > 9)
}

// Adds the warnings about `row24`, `number` and `sub`.
#[tactic(auto, unfolding(crate::specs::PageWarnings::key_warnings))]
fn push_keyed(found: &mut Vec<Warning>, page: &Page) -> Result<(), AllocError>
    ensures { OnOk result (found.new.items ≡ found.old.items ++ key_warnings (page_of page.now)) }
{
    let id = page.id();
    push_if(found, is_asked_for(page), Warning::EmptyRow { page: id })?;
    push_if(
        found,
        has_letter_number(id),
        Warning::LetterNumber { page: id },
    )?;
    push_if(
        found,
        has_letter_subcode(id),
        Warning::LetterSubcode { page: id },
    )
}

// Adds the warnings about the rows and keys of a page.
fn push_own(found: &mut Vec<Warning>, page: &Page) -> Result<(), AllocError>
    ensures { OnOk result (found.new.items ≡ found.old.items ++ own_warnings (page_of page.now)) }
{
    push_signs(found, page, 0, page.head())?;
    push_rows(found, page)?;
    push_keyed(found, page)?;
    push_if(found, lacks_box(page), Warning::NoBox { page: page.id() })
}

// Adds the warnings about the order in which the page at this place is sent.
fn push_order(
    found: &mut Vec<Warning>,
    order: &Order,
    place: usize,
    page: &Page,
) -> Result<(), AllocError>
    ensures { OnOk result (found.new.items
        ≡ found.old.items ++ order_warnings (times_in order.now.subpages place) (times_in order.now.copies place) (page_of page.now).id) }
{
    let id = page.id();
    let subpages = count_of(&order.subpages, place);
    let times = count_of(&order.copies, place);
    push_if(found, subpages != 0, Warning::BehindSubpage { page: id })?;
    push_if(found, times != 0, Warning::BehindItself { page: id, times })
}

// Adds the warnings about the page at this place.
fn push_page(
    found: &mut Vec<Warning>,
    entries: &[Entry],
    order: &Order,
    place: usize,
    page: &Page,
) -> Result<(), AllocError>
    ensures { OnOk result (found.new.items
        ≡ found.old.items ++ page_warnings entries.now (times_in order.now.subpages) (times_in order.now.copies) place (page_of page.now)) }
{
    push_links(found, entries, page.id(), page.links().six())?;
    push_own(found, page)?;
    push_order(found, order, place, page)
}

/// Adds the warnings about the pages of a service.
pub fn push_pages(
    found: &mut Vec<Warning>,
    entries: &[Entry],
    order: &Order,
    pages: &[Page],
) -> Result<(), AllocError>
    ensures { OnOk result (found.new.items
        ≡ found.old.items ++ pages_from entries.now (times_in order.now.subpages) (times_in order.now.copies) 0 (map page_of pages.now)) }
{
    for (place, page) in pages.iter().enumerate() {
        push_page(found, entries, order, place, page)?;
    }
    Ok(())
}
