//! Pages on the air that the service does not have.

ghost use Rattle.std.specs.Prelude.{◌≡◌, ◌++◌, IfOk, OnOk, map, string_bytes};
ghost use Rattle.std.specs.List.{list_any};
ghost use Rattle.ttx_header.specs.Ids.{same_id};
ghost use Rattle.ttx_page.specs.Views.{ids_of};
ghost use Rattle.ttx_promise.specs.OtherPages as rule;

use std::alloc::{AllocError, Global};
use ttx_digits::push_id;
use ttx_header::{PageId, read_header};
use ttx_page::Page;
use ttx_pages::page_headers;

fn is_same(a: PageId, b: PageId) -> bool
    ensures { result ≡ same_id a b }
{
    a.mag() == b.mag() && a.page() == b.page() && a.sub() == b.sub()
}

// Whether one of these pages has an id.
fn has_page(pages: &[Page], id: PageId) -> bool
    ensures { result ≡ list_any (same_id id) (ids_of pages.now) }
{
    for page in pages {
        if is_same(id, page.id()) {
            return true;
        }
    }
    false
}

// Whether an id is that of a page, and none of these pages has it. FF is the number of time-filling headers.
fn is_other(pages: &[Page], id: PageId) -> bool
    ensures { result ≡ rule.is_other (ids_of pages.now) id }
{
    id.page() != 0xff && !has_page(pages, id)
}

// Appends the page of a header, if it is none of these pages.
fn push_other(others: &mut Vec<PageId>, pages: &[Page], slot: &[u8; 42]) -> Result<(), AllocError>
    ensures { OnOk result (others.new.items ≡ others.old.items ++ rule.other_in (ids_of pages.now) slot.now) }
{
    match read_header(slot) {
        Some(header) => {
            if is_other(pages, header.id()) {
                others.push(header.id())?;
            }
            Ok(())
        }
        None => Ok(()),
    }
}

/// The pages that have a header in a cycle and are not in the list, by rising page numbers. `Err` if memory runs out.
pub fn other_pages(
    alloc: Global,
    slots: &[[u8; 42]],
    pages: &[Page],
) -> Result<Vec<PageId>, AllocError>
    ensures { IfOk result (λ others. others.items ≡ rule.other_pages slots.now (ids_of pages.now)) }
{
    let headers = page_headers(alloc, slots)?;
    let mut others = Vec::new(alloc);
    for slot in &headers {
        push_other(&mut others, pages, slot)?;
    }
    Ok(others)
}

// Appends the names of pages.
fn push_ids(text: &mut String, ids: &[PageId]) -> Result<(), AllocError>
    ensures { OnOk result (string_bytes text.new ≡ string_bytes text.old ++ rule.ids_text ids.now) }
{
    for id in ids {
        text.push(' ')?;
        push_id(text, *id)?;
    }
    Ok(())
}

/// Appends the line that names the pages missing from the service; nothing if there is none.
pub fn push_others(text: &mut String, others: &[PageId]) -> Result<(), AllocError>
    ensures { OnOk result (string_bytes text.new ≡ string_bytes text.old ++ rule.others_text others.now) }
{
    if others.is_empty() {
        return Ok(());
    }
    text.push_str("not in the service:")?;
    push_ids(text, others)?;
    text.push('\n')
}
