//! Common pages: pages that are equal in both lists.

ghost use Rattle.std.specs.Prelude.{◌≡◌, ◌↔◌, IsTrue, map};
ghost use Rattle.ttx_page.specs.Views.{page_of, ids_of};
ghost use Rattle.ttx_witness.specs.sent.Collected.{IsIndex};
ghost use Rattle.ttx_proof.specs.Splicing.{TellsPlace, TellsPlaceAt};

use ttx_header::PageId;
use ttx_page::Page;
use ttx_witness::{PageIndex, place_of, same_links};

// Whether the ids are equal.
fn same_id(a: PageId, b: PageId) -> bool
    ensures { IsTrue result ↔ (a ≡ b) }
{
    a == b
}

// Whether the characters or bytes are equal.
fn same_codes(a: &[u8], b: &[u8]) -> bool
    ensures { IsTrue result ↔ (a.now ≡ b.now) }
{
    a == b
}

// Whether the rows are equal.
fn same_rows(a: &[[u8; 40]; 24], b: &[[u8; 40]; 24]) -> bool
    ensures { IsTrue result ↔ (a.now ≡ b.now) }
{
    for i in 0..24usize {
        if !same_codes(&a[i], &b[i]) {
            return false;
        }
    }
    true
}

// Whether the bytes of the page CRC are equal.
fn same_crc(a: [u8; 2], b: [u8; 2]) -> bool
    ensures { IsTrue result ↔ (a ≡ b) }
{
    same_codes(&a, &b)
}

// Whether the pages are equal, including the bytes of the page CRC.
fn is_same(page: &Page, other: &Page) -> bool
    ensures { IsTrue result ↔ (page_of page.now ≡ page_of other.now) }
{
    same_id(page.id(), other.id())
        && page.control().0 == other.control().0
        && same_codes(page.head(), other.head())
        && same_rows(page.rows(), other.rows())
        && same_links(page.links(), other.links())
        && same_crc(page.links().crc(), other.links().crc())
}

// The place, if an equal page is there.
fn same_at(pages: &[Page], place: usize, page: &Page) -> Option<usize>
    ensures { TellsPlaceAt (map page_of pages.now) (page_of page.now) place result }
{
    if place >= pages.len() {
        return None;
    }
    if is_same(&pages[place], page) {
        return Some(place);
    }
    None
}

/// The place of an equal page in the list that the index belongs to.
pub fn equal_place(pages: &[Page], index: &PageIndex, page: &Page) -> Option<usize>
    requires { IsIndex (ids_of pages.now) index.now }
    ensures { TellsPlace (map page_of pages.now) (page_of page.now) result }
{
    ttx_page::laws::pages_keep_their_rules();
    match place_of(index, page.id()) {
        Some(place) => same_at(pages, place as usize, page),
        None => None,
    }
}
