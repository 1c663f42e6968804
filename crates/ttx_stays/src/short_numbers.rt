//! Warnings about page numbers whose pages may change before they are read.

ghost use Rattle.std.specs.Prelude.{◌≡◌, ◌++◌, ◌≤◌, not, length, map, Some, IfOk, OnOk, string_bytes};
ghost use Rattle.std.specs.List.{list_any};
ghost use Rattle.ttx_page.specs.Views.{page_of};
ghost use Rattle.ttx_source.specs.PromiseViews.{promise_view};
ghost use Rattle.ttx_stays.specs.ShortNumbers as rule;

use std::alloc::{AllocError, Global};
use ttx_digits::push_decimal;
use ttx_header::PageId;
use ttx_numbers::{is_first, push_number, share_number, siblings};
use ttx_page::Page;
use ttx_source::Promise;
use ttx_tallies::{take_count, tally};

// Three seconds, in fields: less is too short to read a page.
const THREE_SECONDS: u32 = 150;

// Whether a stay keeps the pages of a page's number on the screen for so long.
fn keeps(pages: &[Page], page: &Page, stay: Promise) -> bool
    ensures { result ≡ rule.keeps (map page_of pages.now) (page_of page.now) (promise_view stay) }
{
    match pages.get(stay.page) {
        Some(other) => share_number(page, other) && stay.fields >= THREE_SECONDS,
        None => false,
    }
}

// Whether some stay does.
fn is_kept(pages: &[Page], stays: &[Promise], page: &Page) -> bool
    ensures { result ≡ list_any (λ stay. rule.keeps (map page_of pages.now) (page_of page.now) (promise_view stay)) stays.now }
{
    stays.iter().any(|stay| keeps(pages, page, *stay))
}

// Whether none does.
fn is_unkept(pages: &[Page], stays: &[Promise], page: &Page) -> bool
    ensures { result ≡ not (list_any (rule.keeps (map page_of pages.now) (page_of page.now)) (map promise_view stays.now)) }
{
    !is_kept(pages, stays, page)
}

// Adds the place of the warning.
#[tactic(auto, unfolding(crate::specs::ShortNumbers::place_text))]
fn push_place(text: &mut String, id: PageId) -> Result<(), AllocError>
    ensures { OnOk result (string_bytes text.new ≡ string_bytes text.old ++ rule.place_text id) }
{
    text.push_str("warning number ")?;
    push_number(text, id)
}

// Adds the line of a number with so many pages.
#[tactic(auto, unfolding(crate::specs::ShortNumbers::short_line))]
fn push_line(text: &mut String, id: PageId, count: usize) -> Result<(), AllocError>
    ensures { OnOk result (string_bytes text.new ≡ string_bytes text.old ++ rule.short_line id count) }
{
    push_place(text, id)?;
    text.push_str(": its ")?;
    push_decimal(text, count)?;
    text.push_str(
        " pages may change before they are read: give one stays = 3.0 or more, and plan --spread\n",
    )
}

// Adds the line of a page's number, which has so many pages, if it has several and none of them is kept.
fn push_several(
    text: &mut String,
    pages: &[Page],
    stays: &[Promise],
    page: &Page,
    count: usize,
) -> Result<(), AllocError>
    ensures { OnOk result (string_bytes text.new ≡ string_bytes text.old
        ++ rule.counted_text (map page_of pages.now) (map promise_view stays.now) (page_of page.now) count) }
{
    if count >= 2 && is_unkept(pages, stays, page) {
        push_line(text, page.id(), count)
    } else {
        Ok(())
    }
}

/// Adds the line of the number of the page at an index, if there is one.
pub fn push_short(
    text: &mut String,
    pages: &[Page],
    stays: &[Promise],
    index: usize,
    page: &Page,
) -> Result<(), AllocError>
    requires { index ≤ length pages.now }
    ensures { OnOk result (string_bytes text.new ≡ string_bytes text.old
        ++ rule.short_text (map page_of pages.now) (map promise_view stays.now) index (Some (page_of page.now))) }
{
    if is_first(pages, index, page) {
        push_several(text, pages, stays, page, siblings(pages, page))
    } else {
        Ok(())
    }
}

// A page number as one number.
fn key_of(page: &Page) -> usize
    ensures { result ≡ rule.key_of (page_of page.now) }
{
    let id = page.id();
    usize::from(id.mag()) * 256 + usize::from(id.page())
}

// The numbers of pages.
fn keys_of(alloc: Global, pages: &[Page]) -> Result<Vec<usize>, AllocError>
    ensures { IfOk result (λ keys. keys.items ≡ map rule.key_of (map page_of pages.now)) }
{
    let mut keys = Vec::new(alloc);
    for page in pages {
        keys.push(key_of(page))?;
    }
    Ok(keys)
}

/// Adds a line for each page number with several pages, none of which has a stay of three seconds or more. A number is counted once,
/// and its count taken at its first page.
pub(crate) fn push_short_numbers(
    text: &mut String,
    pages: &[Page],
    stays: &[Promise],
) -> Result<(), AllocError>
    ensures { OnOk result (string_bytes text.new ≡ string_bytes text.old
        ++ rule.short_lines (map page_of pages.now) (map promise_view stays.now)) }
{
    let alloc = *text.allocator();
    let mut counts = tally(alloc, &keys_of(alloc, pages)?)?;
    for page in pages {
        let count = take_count(&mut counts, key_of(page));
        push_several(text, pages, stays, page, count)?;
    }
    Ok(())
}
