//! What a report says of waits.

ghost use Rattle.std.specs.Prelude.{◌≡◌, ◌++◌, IfOk, OnOk, string_bytes};
ghost use Rattle.ttx_report.specs.Waits as rule;
ghost use Rattle.ttx_witness.specs.laws.WaitLaws.{greatest};

use std::alloc::{AllocError, Global};
use ttx_digits::push_id;
use ttx_document::{push_heading, push_paragraph, push_words};
use ttx_header::PageId;
use ttx_promise::PromisedWait;
use ttx_wait::{greatest, push_all, push_fields, push_wait};
use ttx_witness::PageWait;

#[tactic(auto, unfolding(crate::specs::Waits::kept_text))]
fn push_kept(text: &mut String, late: bool) -> Result<(), AllocError>
    ensures { OnOk result (string_bytes text.new ≡ string_bytes text.old ++ rule.kept_text late) }
{
    if late {
        text.push_str(": broken")
    } else {
        text.push_str(": kept")
    }
}

// Appends the promise of a page, and whether it is kept.
#[tactic(auto, unfolding(crate::specs::Waits::promise_words))]
fn push_promise(text: &mut String, promise: Option<u32>, late: bool) -> Result<(), AllocError>
    ensures { OnOk result (string_bytes text.new ≡ string_bytes text.old ++ rule.promise_words promise late) }
{
    match promise {
        None => text.push_str("none"),
        Some(fields) => {
            text.push_str("within")?;
            push_fields(text, fields)?;
            push_kept(text, late)
        }
    }
}

#[tactic(auto, unfolding(crate::specs::Waits::page_name))]
fn push_name(text: &mut String, id: PageId) -> Result<(), AllocError>
    ensures { OnOk result (string_bytes text.new ≡ string_bytes text.old ++ rule.page_name id) }
{
    push_id(text, id)
}

// Appends a page, and how long a viewer waits for it.
#[tactic(auto, unfolding(crate::specs::Waits::told_cells))]
fn push_cells(text: &mut String, told: PageWait) -> Result<(), AllocError>
    ensures { OnOk result (string_bytes text.new ≡ string_bytes text.old ++ rule.told_cells told) }
{
    push_name(text, told.page)?;
    text.push_str("</td><td>")?;
    push_wait(text, told.wait)
}

// Appends the row of a page.
#[tactic(auto, unfolding(crate::specs::Waits::wait_row))]
fn push_row(text: &mut String, one: PromisedWait) -> Result<(), AllocError>
    ensures { OnOk result (string_bytes text.new ≡ string_bytes text.old ++ rule.wait_row one) }
{
    push_words(text, "<tr><td>")?;
    push_cells(text, one.told)?;
    push_words(text, "</td><td>")?;
    push_promise(text, one.promise, one.is_late())?;
    push_words(text, "</td></tr>\n")
}

// Appends the rows of pages.
fn push_rows(text: &mut String, all: &[PromisedWait]) -> Result<(), AllocError>
    ensures { OnOk result (string_bytes text.new ≡ string_bytes text.old ++ rule.wait_rows all.now) }
{
    for one in all {
        push_row(text, *one)?;
    }
    Ok(())
}

// The waits without the promises.
fn waits_told(alloc: Global, all: &[PromisedWait]) -> Result<Vec<PageWait>, AllocError>
    ensures { IfOk result (λ told. told.items ≡ rule.waits_told all.now) }
{
    let mut told = Vec::with_capacity(alloc, all.len())?;
    for one in all {
        told.push(one.told)?;
    }
    Ok(told)
}

/// The greatest of the deadlines, if all pages have one.
pub(crate) fn greatest_of(alloc: Global, all: &[PromisedWait]) -> Result<Option<u32>, AllocError>
    ensures { IfOk result (λ deadline. deadline ≡ greatest (rule.waits_told all.now)) }
{
    let told = waits_told(alloc, all)?;
    Ok(greatest(&told))
}

#[tactic(auto, unfolding(crate::specs::Waits::waits_start))]
fn push_waits_start(text: &mut String) -> Result<(), AllocError>
    ensures { OnOk result (string_bytes text.new ≡ string_bytes text.old ++ rule.waits_start) }
{
    text.push_str(
        "<table><tr><th>Page</th><th>Longest wait, and for what</th><th>Promise</th></tr>\n",
    )
}

// Appends the row of all pages.
#[tactic(auto, unfolding(crate::specs::Waits::all_html))]
fn push_all_row(
    text: &mut String,
    bad: Option<u32>,
    deadline: Option<u32>,
) -> Result<(), AllocError>
    ensures { OnOk result (string_bytes text.new ≡ string_bytes text.old ++ rule.all_html bad deadline) }
{
    text.push_str("<tr><td>all</td><td>")?;
    push_all(text, bad, deadline)?;
    text.push_str("</td><td></td></tr></table>\n")
}

/// Appends how long a viewer waits for each page. `deadline` is the greatest wait, and `bad` the first bad slot, if there is one.
#[tactic(auto, unfolding(crate::specs::Waits::waits_html))]
pub(crate) fn push_waits(
    text: &mut String,
    all: &[PromisedWait],
    bad: Option<u32>,
    deadline: Option<u32>,
) -> Result<(), AllocError>
    requires { deadline ≡ greatest (rule.waits_told all.now) }
    ensures { OnOk result (string_bytes text.new ≡ string_bytes text.old ++ rule.waits_html all.now bad) }
{
    push_heading(text, "How long a viewer waits")?;
    push_waits_start(text)?;
    push_rows(text, all)?;
    push_all_row(text, bad, deadline)
}

fn push_ids(text: &mut String, ids: &[PageId]) -> Result<(), AllocError>
    ensures { OnOk result (string_bytes text.new ≡ string_bytes text.old ++ rule.ids_text ids.now) }
{
    for id in ids {
        push_name(text, *id)?;
        text.push(' ')?;
    }
    Ok(())
}

#[tactic(auto, unfolding(crate::specs::Waits::names_html))]
fn push_names(text: &mut String, ids: &[PageId]) -> Result<(), AllocError>
    ensures { OnOk result (string_bytes text.new ≡ string_bytes text.old ++ rule.names_html ids.now) }
{
    if ids.is_empty() {
        return push_paragraph(text, "None.");
    }
    text.push_str("<p>")?;
    push_ids(text, ids)?;
    text.push_str("</p>\n")
}

/// Appends the pages on the air that the service text does not have.
#[tactic(auto, unfolding(crate::specs::Waits::others_html))]
pub(crate) fn push_others(text: &mut String, ids: &[PageId]) -> Result<(), AllocError>
    ensures { OnOk result (string_bytes text.new ≡ string_bytes text.old ++ rule.others_html ids.now) }
{
    push_heading(text, "On the air and not in the service text")?;
    push_names(text, ids)
}
