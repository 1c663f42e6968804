//! The page numbers of a list.

ghost use Rattle.std.specs.Prelude.{◌≡◌, map};
ghost use Rattle.std.specs.List.{find};
ghost use Rattle.ttx_page.specs.Views.{page_of};
ghost use Rattle.ttx_subpages.specs.Numbers.{has_number, count_of, is_id};

use ttx_header::PageId;
use ttx_page::Page;

// Whether the page has this number.
pub(crate) fn has_number(page: &Page, mag: u8, number: u8) -> bool
    ensures { result ≡ has_number mag number (page_of page.now) }
{
    let id = page.id();
    id.mag() == mag && id.page() == number
}

/// How many of the pages have this number: the magazine, 1 to 8, and two hexadecimal digits in one byte.
pub fn count_of(pages: &[Page], mag: u8, number: u8) -> usize
    ensures { result ≡ count_of (map page_of pages.now) mag number }
{
    pages
        .iter()
        .filter(|page| has_number(page, mag, number))
        .count()
}

// Whether the page with this id is the first that has its number.
pub(crate) fn is_first(pages: &[Page], id: PageId) -> bool
    ensures { result ≡ is_id id (find (has_number id.mag id.page) (map page_of pages.now)) }
{
    for index in 0..pages.len() {
        if has_number(&pages[index], id.mag(), id.page()) {
            return pages[index].id() == id;
        }
    }
    false
}
