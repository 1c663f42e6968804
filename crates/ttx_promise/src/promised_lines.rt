//! The lines that say how long viewers wait, with the promises of pages.

ghost use Rattle.std.specs.Prelude.{◌≡◌, ◌++◌, OnOk, map, string_bytes};
ghost use Rattle.ttx_promise.specs.PromisedLines as lines;

use crate::waits_and_promises::PromisedWait;
use std::alloc::AllocError;
use ttx_digits::push_id;
use ttx_wait::{items_of, push_fields, push_item_lines, push_seconds, push_wait};
use ttx_witness::{ItemWait, PageWait, Wait};

// Appends that a page comes in time.
#[tactic(auto, unfolding(crate::specs::PromisedLines::kept_text))]
fn push_kept(text: &mut String, promise: u32) -> Result<(), AllocError>
    ensures { OnOk result (string_bytes text.new ≡ string_bytes text.old ++ lines.kept_text promise) }
{
    write!(text, " of {promise}")
}

// Appends that a page comes too late.
fn push_broken(text: &mut String, promise: u32) -> Result<(), AllocError>
    ensures { OnOk result (string_bytes text.new ≡ string_bytes text.old ++ lines.broken_text promise) }
{
    text.push_str(" late: ")?;
    push_seconds(text, 2 * u64::from(promise))?;
    text.push_str(" s")
}

// Appends how long a viewer waits, in fields.
fn push_of(text: &mut String, fields: u32, promise: u32) -> Result<(), AllocError>
    ensures { OnOk result (string_bytes text.new ≡ string_bytes text.old ++ lines.of_text fields promise) }
{
    push_fields(text, fields)?;
    if fields > promise {
        push_broken(text, promise)
    } else {
        push_kept(text, promise)
    }
}

// Appends how long a viewer of a page with a promise waits.
fn push_promised(text: &mut String, wait: Wait, promise: u32) -> Result<(), AllocError>
    ensures { OnOk result (string_bytes text.new ≡ string_bytes text.old ++ lines.promised_text wait promise) }
{
    match wait {
        Wait::Fields { fields, item: _ } => push_of(text, fields, promise),
        Wait::Faulty { reason: _ } => {
            push_wait(text, wait)?;
            push_broken(text, promise)
        }
        Wait::Unsure { item: _, losses: _ } => {
            push_wait(text, wait)?;
            push_broken(text, promise)
        }
    }
}

// Appends how long a viewer of a page waits.
fn push_either(text: &mut String, wait: Wait, promise: Option<u32>) -> Result<(), AllocError>
    ensures { OnOk result (string_bytes text.new ≡ string_bytes text.old ++ lines.either_text wait promise) }
{
    match promise {
        Some(promise) => push_promised(text, wait, promise),
        None => push_wait(text, wait),
    }
}

// Appends the line of a page.
fn push_line(text: &mut String, one: PromisedWait) -> Result<(), AllocError>
    ensures { OnOk result (string_bytes text.new ≡ string_bytes text.old ++ lines.promised_line one) }
{
    let PromisedWait { told, promise } = one;
    let PageWait { page, wait } = told;
    push_id(text, page)?;
    push_either(text, wait, promise)?;
    text.push('\n')
}

/// Appends the lines of pages.
pub fn push_lines(text: &mut String, all: &[PromisedWait]) -> Result<(), AllocError>
    ensures { OnOk result (string_bytes text.new ≡ string_bytes text.old ++ lines.pages_text all.now) }
{
    for one in all {
        push_line(text, *one)?;
    }
    Ok(())
}

/// Appends the line of each page with the lines of its items, if the page is sent unchanged.
pub fn push_lines_of_items(
    text: &mut String,
    all: &[PromisedWait],
    items: &[Vec<ItemWait>],
) -> Result<(), AllocError>
    ensures { OnOk result (string_bytes text.new ≡ string_bytes text.old ++ lines.items_text all.now (map (λ told. told.items) items.now)) }
{
    for index in 0..all.len() {
        push_line(text, all[index])?;
        push_item_lines(text, all[index].told, items_of(items, index))?;
    }
    Ok(())
}
