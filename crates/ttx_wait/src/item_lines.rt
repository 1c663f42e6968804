//! The lines that say how long viewers wait for the items of pages.

ghost use Rattle.std.specs.Prelude.{◌≡◌, ◌+◌, ◌++◌, [], get_or, map, OnOk, IfOk, string_bytes};
ghost use Rattle.ttx_wait.specs.WaitLines.{own_text, item_line, item_lines, lines_under, both_lines, item_wait_lines};

use crate::deadlines::greatest;
use crate::wait_lines::{push_all, push_fields, push_losses, push_page};
use std::alloc::{AllocError, Global};
use ttx_digits::push_id;
use ttx_header::PageId;
use ttx_witness::{ItemWait, OwnWait, PageWait, Wait, push_item};

// Appends how long a viewer waits for an item, or what happens to its transmissions.
fn push_own(text: &mut String, wait: OwnWait) -> Result<(), AllocError>
    ensures { OnOk result (string_bytes text.new ≡ string_bytes text.old ++ own_text wait) }
{
    match wait {
        OwnWait::Least { fields } => push_fields(text, fields),
        OwnWait::Never { losses } => {
            text.push_str(" never")?;
            push_losses(text, losses)
        }
    }
}

// Appends the line of an item.
fn push_line(text: &mut String, page: PageId, told: ItemWait) -> Result<(), AllocError>
    ensures { OnOk result (string_bytes text.new ≡ string_bytes text.old ++ item_line page told) }
{
    push_id(text, page)?;
    push_item(text, told.item)?;
    push_own(text, told.wait)?;
    text.push('\n')
}

// Appends the lines of the items of a page.
fn push_items(text: &mut String, page: PageId, items: &[ItemWait]) -> Result<(), AllocError>
    ensures { OnOk result (string_bytes text.new ≡ string_bytes text.old ++ item_lines page items.now) }
{
    for one in items {
        push_line(text, page, *one)?;
    }
    Ok(())
}

/// Appends the lines of the items of a page, if the page is sent unchanged.
pub fn push_item_lines(
    text: &mut String,
    told: PageWait,
    items: &[ItemWait],
) -> Result<(), AllocError>
    ensures { OnOk result (string_bytes text.new ≡ string_bytes text.old ++ lines_under told.wait told.page items.now) }
{
    match told.wait {
        Wait::Faulty { reason: _ } => Ok(()),
        Wait::Fields { fields: _, item: _ } => push_items(text, told.page, items),
        Wait::Unsure { item: _, losses: _ } => push_items(text, told.page, items),
    }
}

/// The waits of the items of the page at `index`; none if there is no such page.
pub fn items_of(all: &[Vec<ItemWait>], index: usize) -> &[ItemWait]
    ensures { result.now ≡ get_or (map (λ told. told.items) all.now) index [] }
{
    match all.get(index) {
        Some(told) => told.as_slice(),
        None => &[],
    }
}

// Appends the line of each page with the lines of its items.
fn push_both(text: &mut String, told: &[PageWait], all: &[Vec<ItemWait>]) -> Result<(), AllocError>
    ensures { OnOk result (string_bytes text.new ≡ string_bytes text.old ++ both_lines told.now (map (λ told. told.items) all.now)) }
{
    for index in 0..told.len() {
        push_page(text, told[index])?;
        push_item_lines(text, told[index], items_of(all, index))?;
    }
    Ok(())
}

/// The lines of the pages with those of their items, and the line for all pages. `bad` is the first bad slot, if there is one. `Err` if
/// memory runs out.
pub fn item_wait_lines(
    alloc: Global,
    bad: Option<u32>,
    told: &[PageWait],
    all: &[Vec<ItemWait>],
) -> Result<String, AllocError>
    ensures { IfOk result (λ text. string_bytes text ≡ item_wait_lines bad told.now (map (λ told. told.items) all.now)) }
{
    let mut text = String::new(alloc);
    push_both(&mut text, told, all)?;
    text.push_str("all")?;
    push_all(&mut text, bad, greatest(told))?;
    text.push('\n')?;
    Ok(text)
}
