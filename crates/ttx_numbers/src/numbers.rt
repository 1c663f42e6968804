//! Page numbers, and the pages of a list that share one.

ghost use Rattle.std.specs.Prelude.{◌≡◌, ◌≤◌, ◌++◌, length, map, OnOk, string_bytes};
ghost use Rattle.std.specs.List.{list_any};
ghost use Rattle.ttx_page.specs.Views.{page_of};
ghost use Rattle.ttx_numbers.specs.Numbers as rule;

use std::alloc::AllocError;
use ttx_digits::{digit, push_byte};
use ttx_header::PageId;
use ttx_page::Page;

/// Whether two pages have one page number.
pub fn share_number(page: &Page, other: &Page) -> bool
    ensures { result ≡ rule.share_number (page_of page.now) (page_of other.now) }
{
    let (one, two) = (page.id(), other.id());
    one.mag() == two.mag() && one.page() == two.page()
}

/// How many pages have the number of a page.
pub fn siblings(pages: &[Page], page: &Page) -> usize
    ensures value { result ≡ rule.siblings (map page_of pages.now) (page_of page.now) }
    ensures few { result ≤ length pages.now }
{
    pages
        .iter()
        .filter(|other| share_number(page, other))
        .count()
}

// Whether one of the pages has the number of a page.
fn has_number(pages: &[Page], page: &Page) -> bool
    ensures { result ≡ list_any (λ other. rule.share_number (page_of page.now) (page_of other)) pages.now }
{
    pages.iter().any(|other| share_number(page, other))
}

/// Whether no page before an index has the number of a page.
pub fn is_first(pages: &[Page], index: usize, page: &Page) -> bool
    requires { index ≤ length pages.now }
    ensures { result ≡ rule.is_first (map page_of pages.now) index (page_of page.now) }
{
    !has_number(&pages[..index], page)
}

/// Adds a page number, as in `110`.
pub fn push_number(text: &mut String, id: PageId) -> Result<(), AllocError>
    ensures { OnOk result (string_bytes text.new ≡ string_bytes text.old ++ rule.number_text id) }
{
    text.push(digit(id.mag()))?;
    push_byte(text, id.page())
}
