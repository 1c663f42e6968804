//! What a viewer sees of a page.

ghost use Rattle.std.specs.Prelude.{◌≡◌, ◌≤◌, ◌&&◌, not, is_none};
ghost use Rattle.std.specs.List.{list_all};
ghost use Rattle.ttx_page.specs.Pages.{TheRow, needed, has_double_height, is_hidden, page_row, is_blank};
ghost use Rattle.ttx_page.specs.Views.{page_of};

use crate::item::Item;
use crate::page::Page;
use ttx_links::Links;

// The code for double height.
const DOUBLE_HEIGHT: u8 = 0x0d;

// Whether a row, 1 to 24, holds the code for double height.
fn has_double_height(page: &Page, number: u8) -> bool
    requires from { 1 ≤ number }
    requires to { number ≤ 24 }
    ensures { result ≡ has_double_height (page_row (page_of page.now) number) }
{
    page.rows()[usize::from(number) - 1].contains(&DOUBLE_HEIGHT)
}

// Whether a row, 1 to 24, is hidden below a row in double height.
fn is_hidden(page: &Page, number: u8) -> bool
    requires from { 1 ≤ number }
    requires to { number ≤ 24 }
    ensures { result ≡ is_hidden (page_row (page_of page.now)) number }
{
    // In a stack of rows with double height every second one is hidden, so the answer depends on the top of the stack.
    let mut hidden = false;
    let mut at = number;
    while 1 < at && at <= 23 && has_double_height(page, at - 1) {
        at -= 1;
        hidden = !hidden;
    }
    hidden
}

/// Whether a viewer sees the item: the links always; row 0 unless C7 suppresses it; a row 1 to 23 unless C10 inhibits display or
/// the row is hidden; row 24 if the links show it and C10 is clear (EN 300 706, 9.3.1.3; hidden rows: profile).
pub fn needed(page: &Page, item: Item) -> bool
    ensures { result ≡ needed (page_of page.now) item }
{
    match item {
        Item::Head => !page.control().suppresses_header(),
        Item::Row(row) => {
            let number = row.number();
            let shown = if number == 24 {
                page.links().show24()
            } else {
                !is_hidden(page, number)
            };
            !page.control().inhibits_display() && shown
        }
        Item::Links => true,
    }
}

// Whether a row, 1 to 24, is all spaces.
fn is_blank_row(page: &Page, number: u8) -> bool
    requires from { 1 ≤ number }
    requires to { number ≤ 24 }
    ensures { result ≡ is_blank (page_of page.now) (TheRow number) }
{
    page.rows()[usize::from(number) - 1]
        .iter()
        .all(|code| *code == b' ')
}

// Whether there are no links.
fn is_unlinked(links: &Links) -> bool
    ensures { result ≡ list_all is_none links.now.set.six }
{
    links.six().iter().all(|link| link.is_none())
}

// Whether there are no links, and row 24 is not shown.
fn is_blank_links(links: &Links) -> bool
    ensures { result ≡ (list_all is_none links.now.set.six && not links.now.set.show24) }
{
    is_unlinked(links) && !links.show24()
}

/// Whether a receiver that has cleared the page holds the item without receiving it: a row of spaces, or no links and no row
/// 24. The header is never blank.
pub fn is_blank(page: &Page, item: Item) -> bool
    ensures { result ≡ is_blank (page_of page.now) item }
{
    match item {
        Item::Head => false,
        Item::Row(row) => is_blank_row(page, row.number()),
        Item::Links => is_blank_links(page.links()),
    }
}
