//! The lines of pages that come too late.

ghost use Rattle.std.specs.Prelude.{◌≡◌, ◌++◌, IfOk, OnOk, map, string_bytes};
ghost use Rattle.ttx_promise.specs.PromiseLines as lines;
ghost use Rattle.ttx_promise.specs.Views.{late_view};

use crate::faults::LatePage;
use std::alloc::{AllocError, Global};
use ttx_digits::push_id;
use ttx_header::PageId;

// Appends the name of a page that comes too late.
fn push_page(text: &mut String, page: PageId) -> Result<(), AllocError>
    ensures { OnOk result (string_bytes text.new ≡ string_bytes text.old ++ lines.page_text page) }
{
    text.push_str("late ")?;
    push_id(text, page)
}

// Appends the fields that a viewer waits, and those of the promise.
#[tactic(auto, unfolding(crate::specs::PromiseLines::numbers_text))]
fn push_numbers(text: &mut String, fields: u32, promise: u32) -> Result<(), AllocError>
    ensures { OnOk result (string_bytes text.new ≡ string_bytes text.old ++ lines.numbers_text fields promise) }
{
    write!(text, " {fields} fields")?;
    write!(text, " of {promise}")
}

// Appends the line of a page.
#[tactic(auto, unfolding(crate::specs::PromiseLines::late_line))]
fn push_late(text: &mut String, late: LatePage) -> Result<(), AllocError>
    ensures { OnOk result (string_bytes text.new ≡ string_bytes text.old ++ lines.late_line (late_view late)) }
{
    push_page(text, late.page)?;
    push_numbers(text, late.fields, late.promise)?;
    text.push('\n')
}

/// A line for each page that comes too late: `late PAGE F fields of G`.
pub fn late_lines(alloc: Global, pages: &[LatePage]) -> Result<String, AllocError>
    ensures { IfOk result (λ text. string_bytes text ≡ lines.late_lines (map late_view pages.now)) }
{
    let mut text = String::new(alloc);
    for late in pages {
        push_late(&mut text, *late)?;
    }
    Ok(text)
}
