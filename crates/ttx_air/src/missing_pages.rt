//! Counts pages that another list does not have.

ghost use Rattle.std.specs.Prelude.{◌≡◌, ◌≤◌, length, map};
ghost use Rattle.ttx_header.specs.Ids.{same_id};
ghost use Rattle.ttx_page.specs.Views.{page_of};
ghost use Rattle.ttx_air.specs.LogLines as rule;

use ttx_header::PageId;
use ttx_page::Page;

fn same_id(a: PageId, b: PageId) -> bool
    ensures { result ≡ same_id a b }
{
    a.mag() == b.mag() && a.page() == b.page() && a.sub() == b.sub()
}

// Whether a page with this id is in the list.
fn lists(pages: &[Page], id: PageId) -> bool
    ensures { result ≡ rule.lists (map page_of pages.now) id }
{
    for page in pages {
        if same_id(page.id(), id) {
            return true;
        }
    }
    false
}

// How many of the pages have an id that no page of the other list has.
pub(crate) fn lacking(others: &[Page], pages: &[Page]) -> usize
    ensures { result ≡ rule.lacking (map page_of others.now) (map page_of pages.now) }
{
    let mut count = 0;
    for page in pages {
        if !lists(others, page.id()) {
            count += 1;
        }
    }
    count
}
