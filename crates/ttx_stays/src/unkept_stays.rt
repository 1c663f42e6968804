//! Warnings about stays that no plan keeps.

ghost use Rattle.std.specs.Prelude.{◌≡◌, ◌++◌, ◌≤◌, length, map, OnOk, string_bytes};
ghost use Rattle.std.specs.Fmt.{decimal};
ghost use Rattle.ttx_page.specs.Views.{page_of};
ghost use Rattle.ttx_source.specs.PromiseViews.{promise_view};
ghost use Rattle.ttx_stays.specs.UnkeptStays as rule;

use std::alloc::AllocError;
use ttx_digits::{push_decimal, push_id};
use ttx_header::PageId;
use ttx_numbers::siblings;
use ttx_page::Page;
use ttx_source::Promise;

// The most slots that a cycle has.
const MOST_SLOTS: usize = 65_536;

// Adds the line of a stay whose page is the only one of its number.
#[tactic(auto, unfolding(crate::specs::UnkeptStays::alone_line))]
fn push_alone(text: &mut String, page: PageId) -> Result<(), AllocError>
    ensures { OnOk result (string_bytes text.new ≡ string_bytes text.old ++ rule.alone_line page) }
{
    text.push_str("warning page ")?;
    push_id(text, page)?;
    text.push_str(" stays: no other page has its number\n")
}

// Adds the place of a stay.
#[tactic(auto, unfolding(crate::specs::UnkeptStays::long_place))]
fn push_place(text: &mut String, page: PageId) -> Result<(), AllocError>
    ensures { OnOk result (string_bytes text.new ≡ string_bytes text.old ++ rule.long_place page) }
{
    text.push_str("warning page ")?;
    push_id(text, page)?;
    text.push_str(" stays: ")
}

// Adds a number between two texts.
fn push_counted(
    text: &mut String,
    before: &str,
    number: usize,
    after: &str,
) -> Result<(), AllocError>
    ensures { OnOk result (string_bytes text.new ≡ string_bytes text.old ++ before.now ++ decimal number ++ after.now) }
{
    text.push_str(before)?;
    push_decimal(text, number)?;
    text.push_str(after)
}

// Adds how many pages its number has.
#[tactic(auto, unfolding(crate::specs::UnkeptStays::pages_text))]
fn push_pages(text: &mut String, count: usize) -> Result<(), AllocError>
    ensures { OnOk result (string_bytes text.new ≡ string_bytes text.old ++ rule.pages_text count) }
{
    push_counted(text, "the ", count, " pages of its number")
}

// Adds how many slots they take.
#[tactic(auto, unfolding(crate::specs::UnkeptStays::slots_text))]
fn push_slots(text: &mut String, slots: usize) -> Result<(), AllocError>
    ensures { OnOk result (string_bytes text.new ≡ string_bytes text.old ++ rule.slots_text slots) }
{
    push_counted(
        text,
        " take ",
        slots,
        " slots, and a cycle has at most 65536\n",
    )
}

// Adds the line of a stay that is too long for a cycle.
#[tactic(auto, unfolding(crate::specs::UnkeptStays::long_line))]
fn push_long(text: &mut String, page: PageId, count: usize, slots: usize) -> Result<(), AllocError>
    ensures { OnOk result (string_bytes text.new ≡ string_bytes text.old ++ rule.long_line page count slots) }
{
    push_place(text, page)?;
    push_pages(text, count)?;
    push_slots(text, slots)
}

// Adds the line of a stay of so many slots, if no plan keeps it.
fn push_unkept(
    text: &mut String,
    pages: &[Page],
    page: &Page,
    stay: usize,
) -> Result<(), AllocError>
    requires few { length pages.now ≤ 2000 }
    requires short { stay ≤ 1_200_000_000_000 }
    ensures { OnOk result (string_bytes text.new ≡ string_bytes text.old ++ rule.unkept_line (map page_of pages.now) (page_of page.now) stay) }
{
    let count = siblings(pages, page);
    if count < 2 {
        return push_alone(text, page.id());
    }
    let slots = count * stay;
    if slots > MOST_SLOTS {
        push_long(text, page.id(), count, slots)
    } else {
        Ok(())
    }
}

/// Adds the line of a stay, if no plan keeps it.
pub fn push_stay(
    text: &mut String,
    lines: u8,
    pages: &[Page],
    stay: Promise,
) -> Result<(), AllocError>
    requires few { length pages.now ≤ 2000 }
    ensures { OnOk result (string_bytes text.new ≡ string_bytes text.old ++ rule.stay_text lines (map page_of pages.now) (promise_view stay)) }
{
    match pages.get(stay.page) {
        Some(page) => push_unkept(text, pages, page, stay.fields as usize * usize::from(lines)),
        None => Ok(()),
    }
}

/// Adds a line for each stay that no plan keeps: its page is the only one of its number, or no cycle is so long.
pub(crate) fn push_unkept_stays(
    text: &mut String,
    lines: u8,
    pages: &[Page],
    stays: &[Promise],
) -> Result<(), AllocError>
    requires few { length pages.now ≤ 2000 }
    ensures { OnOk result (string_bytes text.new ≡ string_bytes text.old
        ++ rule.unkept_lines lines (map page_of pages.now) (map promise_view stays.now)) }
{
    for stay in stays {
        push_stay(text, lines, pages, *stay)?;
    }
    Ok(())
}
