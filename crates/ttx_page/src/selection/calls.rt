//! The headers that a selection matches, and the pages that it fits.

ghost use Rattle.std.specs.Prelude.{◌≡◌, ◌<◌, ◌↔◌, IsTrue, Some, length, map, slice_get};
ghost use Rattle.ttx_page.specs.Pages as definitions;
ghost use Rattle.ttx_page.specs.Pages.{matches, is_other_subpage, Fits, IsAlone};
ghost use Rattle.ttx_page.specs.Views.{page_of};

use super::Selection;
use crate::page::Page;
use ttx_header::PageId;

// Whether `other` has the page number of `page` and another subcode.
fn is_other_subpage(page: &Page, other: &Page) -> bool
    ensures { result ≡ is_other_subpage (page_of page.now) (page_of other.now) }
{
    let id = page.id();
    let other_id = other.id();
    other_id.mag() == id.mag() && other_id.page() == id.page() && other_id.sub() != id.sub()
}

// Whether no other page of the list has the number of this page.
fn is_alone(pages: &[Page], page: &Page) -> bool
    ensures { IsTrue result ↔ IsAlone (map page_of pages.now) (page_of page.now) }
{
    for other in pages {
        if is_other_subpage(page, other) {
            return false;
        }
    }
    true
}

impl Selection {
    /// Whether the selection takes a header with this id.
    pub fn matches(&self, id: PageId) -> bool
        ensures { result ≡ matches self.now id }
    {
        match *self {
            Selection::Exact(own) => own == id,
            Selection::AnySub(mag, page) => mag == id.mag() && page == id.page(),
        }
    }

    /// Whether the selection fits the page at `index`: it is the page's own id, or the page's number and no other page of the list
    /// has that number.
    pub fn fits(&self, pages: &[Page], index: usize) -> bool
        requires { index < length pages.now }
        ensures { (p : definitions.Page) → slice_get (map page_of pages.now) index ≡ Some p →
            IsTrue result ↔ Fits (map page_of pages.now) p self.now }
    {
        let page = &pages[index];
        match *self {
            Selection::Exact(own) => own == page.id(),
            Selection::AnySub(mag, number) => {
                let id = page.id();
                mag == id.mag() && number == id.page() && is_alone(pages, page)
            }
        }
    }
}
