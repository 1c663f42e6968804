//! The lines of a verdict on a feed by rows.

ghost use Rattle.std.specs.Prelude.{◌≡◌, ◌++◌, IfOk, OnOk, map, string_bytes};
ghost use Rattle.ttx_page.specs.Views.{page_of};
ghost use Rattle.ttx_row_monitor.specs.RowLines.{yes_text, row_way_text, row_verdict_text};

use crate::breach::RowBreach;
use crate::verdict::RowVerdict;
use std::alloc::{AllocError, Global};
use ttx_monitor::feed_lines::{push_page, push_rest, push_row, push_shifted, push_start, push_way};
use ttx_page::Page;
use ttx_recognition::push_unlike;
use ttx_witness::NoMemory;

// Appends the yes line.
fn push_yes(text: &mut String, start: u32, slots: u64, lost: u64) -> Result<(), AllocError>
    ensures { OnOk result (string_bytes text.new ≡ string_bytes text.old ++ yes_text start slots lost) }
{
    write!(text, "yes start {start} slots {slots} lost {lost}\n")
}

// Appends how a slot breaks the rule.
fn push_row_way(
    text: &mut String,
    pages: &[Page],
    slot: u64,
    breach: RowBreach,
) -> Result<(), AllocError>
    ensures { OnOk result (string_bytes text.new ≡ string_bytes text.old ++ row_way_text (map page_of pages.now) slot breach) }
{
    match breach {
        RowBreach::Slot(breach) => push_way(text, pages, slot, breach),
        RowBreach::Row { page, row } => {
            text.push_str("no repeat ")?;
            push_page(text, pages, page)?;
            push_row(text, row)?;
            write!(text, " slot {slot}")
        }
    }
}

// Appends the text of a verdict.
fn push_verdict(text: &mut String, pages: &[Page], verdict: RowVerdict) -> Result<(), AllocError>
    ensures { OnOk result (string_bytes text.new ≡ string_bytes text.old ++ row_verdict_text (map page_of pages.now) verdict) }
{
    match verdict {
        RowVerdict::Unlike(unlike) => push_unlike(text, unlike),
        RowVerdict::Yes {
            start,
            slots,
            lost,
            rest,
        } => {
            push_yes(text, start, slots, lost)?;
            push_rest(text, rest)
        }
        RowVerdict::No {
            start,
            slot,
            breach,
        } => {
            push_row_way(text, pages, slot, breach)?;
            push_start(text, start)
        }
        RowVerdict::Shifted {
            start,
            slot,
            by,
            count,
        } => {
            push_shifted(text, count, slot, by)?;
            push_start(text, start)
        }
    }
}

/// The text of a verdict by rows: `yes start S slots N lost L`, and a line for the bytes behind the last slot; or `no slot I ..` as by bytes, or
/// `no repeat PAGE row R slot I`, or `no slot I shifted by J`, each with the start. `Err` if memory runs out.
pub fn row_verdict_text(
    alloc: Global,
    pages: &[Page],
    verdict: RowVerdict,
) -> Result<String, NoMemory>
    ensures { IfOk result (λ text. string_bytes text ≡ row_verdict_text (map page_of pages.now) verdict) }
{
    let mut text = String::new(alloc);
    match push_verdict(&mut text, pages, verdict) {
        Ok(()) => Ok(text),
        Err(_) => Err(NoMemory),
    }
}
