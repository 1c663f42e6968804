//! The warnings about the rows of a page.

ghost use Rattle.std.specs.Prelude.{◌≡◌, ◌≤◌, ◌++◌, suc, OnOk};
ghost use Rattle.ttx_page.specs.declared.item.Item.TheVariants.{Row as TheRow};
ghost use Rattle.ttx_page.specs.Pages.{has_double_height, is_hidden, is_blank, page_row};
ghost use Rattle.ttx_page.specs.Views.{page_of};
ghost use Rattle.ttx_check.specs.PageWarnings.{has_stray, is_lost, is_unshown, only_if, other_warnings, sign_warnings, place_warnings, row_warnings};
ghost use Rattle.ttx_check.specs.PageWarnings.{row_warnings_to};

use crate::row_signs::{has_escape, is_open, is_plain_row, other_code};
use crate::warning::Warning;
use std::alloc::AllocError;
use ttx_header::PageId;
use ttx_page::{Item, Page, RowNumber, is_blank};

// The row with a number from 1 to 24.
fn row(page: &Page, number: u8) -> &[u8; 40]
    requires from { 1 ≤ number }
    requires to { number ≤ 24 }
    ensures { result.now ≡ page_row (page_of page.now) number }
{
    &page.rows()[usize::from(number) - 1]
}

// Whether the row has the code before its first `opener`.
fn has_stray(code: u8, opener: u8, row: &[u8; 40]) -> bool
    ensures { result ≡ has_stray code opener row.now }
{
    for c in row {
        if *c == code {
            return true;
        }
        if *c == opener {
            return false;
        }
    }
    false
}

fn is_blank_row(page: &Page, number: u8) -> bool
    requires from { 1 ≤ number }
    requires to { number ≤ 24 }
    ensures { result ≡ is_blank (page_of page.now) (TheRow number) }
{
    is_blank(page, Item::Row(RowNumber::new(number).unwrap()))
}

// Whether row 24 is not blank but not shown.
fn is_unshown(page: &Page, number: u8) -> bool
    requires from { 1 ≤ number }
    requires to { number ≤ 24 }
    ensures { result ≡ is_unshown (page_of page.now) number }
{
    number == 24 && !page.links().show24() && !is_blank_row(page, number)
}

// Adds a warning if `is` is true.
pub(crate) fn push_if(
    found: &mut Vec<Warning>,
    holds: bool,
    warning: Warning,
) -> Result<(), AllocError>
    ensures { OnOk result (found.new.items ≡ found.old.items ++ only_if holds warning) }
{
    if holds {
        found.push(warning)?;
    }
    Ok(())
}

// Adds the warning about a code that shows another character than in ASCII.
fn push_other(
    found: &mut Vec<Warning>,
    page: PageId,
    row: u8,
    option: u8,
    other: Option<(usize, u8, char)>,
) -> Result<(), AllocError>
    ensures { OnOk result (found.new.items ≡ found.old.items ++ other_warnings page row option other) }
{
    let Some((column, code, shown)) = other else {
        return Ok(());
    };
    found.push(Warning::OtherSign {
        page,
        row,
        column,
        code,
        shown,
        option,
    })?;
    Ok(())
}

// Adds the warnings about the characters of the row with this number.
#[tactic(auto, unfolding(crate::specs::PageWarnings::sign_warnings))]
fn push_found_signs(
    found: &mut Vec<Warning>,
    page: &Page,
    number: u8,
    row: &[u8],
) -> Result<(), AllocError>
    ensures { OnOk result (found.new.items ≡ found.old.items ++ sign_warnings (page_of page.now) number row.now) }
{
    let id = page.id();
    let option = page.control().option();
    push_other(found, id, number, option, other_code(option, row))?;
    push_if(
        found,
        has_escape(row),
        Warning::LiteralEscape {
            page: id,
            row: number,
        },
    )?;
    push_if(
        found,
        is_open(row),
        Warning::OpenBox {
            page: id,
            row: number,
        },
    )
}

/// Adds the warnings about the characters of the row with this number; 0 is `head`. Most rows have none, and are read only once.
#[tactic(auto, using(crate::proofs::PlainRows::nothing_added))]
pub fn push_signs(
    found: &mut Vec<Warning>,
    page: &Page,
    number: u8,
    row: &[u8],
) -> Result<(), AllocError>
    ensures { OnOk result (found.new.items ≡ found.old.items ++ sign_warnings (page_of page.now) number row.now) }
{
    if is_plain_row(row) {
        return Ok(());
    }
    push_found_signs(found, page, number, row)
}

// Adds the warnings about where a row stands. `hidden` says whether the row above hides it.
#[tactic(auto, unfolding(crate::specs::PageWarnings::place_warnings))]
fn push_placed(
    found: &mut Vec<Warning>,
    page: &Page,
    number: u8,
    hidden: bool,
) -> Result<(), AllocError>
    requires from { 1 ≤ number }
    requires to { number ≤ 24 }
    requires hidden { hidden ≡ is_hidden (page_row (page_of page.now)) number }
    ensures { OnOk result (found.new.items ≡ found.old.items ++ place_warnings (page_of page.now) number) }
{
    let id = page.id();
    let lost = hidden && !is_blank_row(page, number);
    push_if(
        found,
        lost,
        Warning::HiddenRow {
            page: id,
            row: number,
        },
    )?;
    push_if(
        found,
        is_unshown(page, number),
        Warning::UnshownRow { page: id },
    )?;
    let tab = has_stray(0x09, 0x08, row(page, number));
    push_if(
        found,
        tab,
        Warning::StrayTab {
            page: id,
            row: number,
        },
    )?;
    let line_break = has_stray(0x0a, 0x0b, row(page, number));
    push_if(
        found,
        line_break,
        Warning::StrayBreak {
            page: id,
            row: number,
        },
    )
}

// Adds the warnings about a row. `hidden` says whether the row above hides it.
#[tactic(auto, unfolding(crate::specs::PageWarnings::row_warnings))]
fn push_row(
    found: &mut Vec<Warning>,
    page: &Page,
    number: u8,
    hidden: bool,
) -> Result<(), AllocError>
    requires from { 1 ≤ number }
    requires to { number ≤ 24 }
    requires hidden { hidden ≡ is_hidden (page_row (page_of page.now)) number }
    ensures { OnOk result (found.new.items ≡ found.old.items ++ row_warnings (page_of page.now) number) }
{
    push_placed(found, page, number, hidden)?;
    push_signs(found, page, number, row(page, number))
}

// Whether a row hides the one below it.
fn hides(page: &Page, number: u8, hidden: bool) -> bool
    requires from { 1 ≤ number }
    requires to { number ≤ 24 }
    requires hidden { hidden ≡ is_hidden (page_row (page_of page.now)) number }
    ensures { result ≡ is_hidden (page_row (page_of page.now)) (suc number) }
{
    number <= 22 && !hidden && row(page, number).contains(&0x0d)
}

/// Adds the warnings about the rows of a page.
pub fn push_rows(found: &mut Vec<Warning>, page: &Page) -> Result<(), AllocError>
    ensures { OnOk result (found.new.items ≡ found.old.items ++ row_warnings_to (page_of page.now) 24) }
{
    let mut hidden = false;
    for above in 0..24 {
        push_row(found, page, above + 1, hidden)?;
        hidden = hides(page, above + 1, hidden);
    }
    Ok(())
}
