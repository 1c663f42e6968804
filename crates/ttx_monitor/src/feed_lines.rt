//! The lines of a verdict on a feed.

ghost use Rattle.std.specs.Prelude.{◌≡◌, ◌++◌, IfOk, OnOk, map, string_bytes};
ghost use Rattle.ttx_page.specs.Views.{page_of};
ghost use Rattle.ttx_monitor.specs.FeedLines.{start_text, rest_text, yes_text, page_text, row_text, repeat_text, way_text, slipped_text, shift_text, shifted_text, feed_text};

use crate::breach::{Breach, TextByte};
use crate::verdict::FeedVerdict;
use std::alloc::{AllocError, Global};
use ttx_digits::push_id;
use ttx_page::Page;
use ttx_recognition::push_unlike;
use ttx_witness::NoMemory;

/// Appends where the feed begins, and the end of the line.
pub fn push_start(text: &mut String, start: u32) -> Result<(), AllocError>
    ensures { OnOk result (string_bytes text.new ≡ string_bytes text.old ++ start_text start) }
{
    write!(text, " start {start}\n")
}

/// Appends the line for the bytes behind the last slot, if there are any.
pub fn push_rest(text: &mut String, rest: usize) -> Result<(), AllocError>
    ensures { OnOk result (string_bytes text.new ≡ string_bytes text.old ++ rest_text rest) }
{
    match rest {
        0 => Ok(()),
        _ => write!(text, "rest {rest} bytes\n"),
    }
}

// Appends the yes line.
fn push_yes(
    text: &mut String,
    start: u32,
    slots: u64,
    wrong: u64,
    streak: u8,
) -> Result<(), AllocError>
    ensures { OnOk result (string_bytes text.new ≡ string_bytes text.old ++ yes_text start slots wrong streak) }
{
    write!(
        text,
        "yes start {start} slots {slots} wrong {wrong} streak {streak}\n"
    )
}

/// Appends the id of a page of the list.
pub fn push_page(text: &mut String, pages: &[Page], index: u32) -> Result<(), AllocError>
    ensures { OnOk result (string_bytes text.new ≡ string_bytes text.old ++ page_text (map page_of pages.now) index) }
{
    match pages.get(index as usize) {
        Some(page) => push_id(text, page.id()),
        None => Ok(()),
    }
}

/// Appends a row.
pub fn push_row(text: &mut String, row: u8) -> Result<(), AllocError>
    ensures { OnOk result (string_bytes text.new ≡ string_bytes text.old ++ row_text row) }
{
    match row {
        0 => text.push_str(" head"),
        _ => write!(text, " row {row}"),
    }
}

// Appends the byte that was wrong in too many successive transmissions.
fn push_repeat(text: &mut String, pages: &[Page], byte: TextByte) -> Result<(), AllocError>
    ensures { OnOk result (string_bytes text.new ≡ string_bytes text.old ++ repeat_text (map page_of pages.now) byte) }
{
    text.push_str("no repeat ")?;
    push_page(text, pages, byte.page)?;
    push_row(text, byte.row)?;
    let at = byte.byte;
    write!(text, " byte {at}")
}

/// Appends how a slot breaks the rule.
pub fn push_way(
    text: &mut String,
    pages: &[Page],
    slot: u64,
    breach: Breach,
) -> Result<(), AllocError>
    ensures { OnOk result (string_bytes text.new ≡ string_bytes text.old ++ way_text (map page_of pages.now) slot breach) }
{
    match breach {
        Breach::Unasked => write!(text, "no slot {slot} unlike"),
        Breach::Lost => write!(text, "no slot {slot} lost"),
        Breach::Bits(x) => write!(text, "no slot {slot} byte {x}"),
        Breach::Repeated(byte) => {
            push_repeat(text, pages, byte)?;
            write!(text, " slot {slot}")
        }
    }
}

// Appends the slot at which a feed has slipped.
fn push_slipped(text: &mut String, slot: u64) -> Result<(), AllocError>
    ensures { OnOk result (string_bytes text.new ≡ string_bytes text.old ++ slipped_text slot) }
{
    write!(text, "no slot {slot} shifted by ")
}

// Appends by how many slots of a cycle of `count` it has slipped.
fn push_shift(text: &mut String, count: usize, by: usize) -> Result<(), AllocError>
    ensures { OnOk result (string_bytes text.new ≡ string_bytes text.old ++ shift_text count by) }
{
    let back = count.saturating_sub(by);
    if back < by {
        return write!(text, "-{back}");
    }
    write!(text, "{by}")
}

/// Appends where a feed has slipped, and by how many slots.
pub fn push_shifted(text: &mut String, count: usize, slot: u64, by: usize) -> Result<(), AllocError>
    ensures { OnOk result (string_bytes text.new ≡ string_bytes text.old ++ shifted_text count slot by) }
{
    push_slipped(text, slot)?;
    push_shift(text, count, by)
}

/// Appends the text of a verdict.
pub fn push_verdict(
    text: &mut String,
    pages: &[Page],
    verdict: FeedVerdict,
) -> Result<(), AllocError>
    ensures { OnOk result (string_bytes text.new ≡ string_bytes text.old ++ feed_text (map page_of pages.now) verdict) }
{
    match verdict {
        FeedVerdict::Unlike(unlike) => push_unlike(text, unlike),
        FeedVerdict::Yes {
            start,
            slots,
            wrong,
            streak,
            rest,
        } => {
            push_yes(text, start, slots, wrong, streak)?;
            push_rest(text, rest)
        }
        FeedVerdict::No {
            start,
            slot,
            breach,
        } => {
            push_way(text, pages, slot, breach)?;
            push_start(text, start)
        }
        FeedVerdict::Shifted {
            start,
            slot,
            by,
            count,
        } => {
            push_shifted(text, count, slot, by)?;
            push_start(text, start)
        }
    }
}

/// The text of a verdict on a feed: `yes start S slots N wrong B streak K`, and a line for the bytes behind the last slot; or `no slot I` and
/// how the slot breaks the rule (`byte X` with two wrong bits, `lost`, `unlike` for something in the place of an empty line), or
/// `no repeat PAGE ITEM byte X slot I`, or `no slot I shifted by J`, each with the start; or `no slots: ..`, what the bytes are that are no
/// packets of 42 bytes. Each line ends with the byte 0A. `Err` if memory runs out.
pub fn feed_text(alloc: Global, pages: &[Page], verdict: FeedVerdict) -> Result<String, NoMemory>
    ensures { IfOk result (λ text. string_bytes text ≡ feed_text (map page_of pages.now) verdict) }
{
    let mut text = String::new(alloc);
    match push_verdict(&mut text, pages, verdict) {
        Ok(()) => Ok(text),
        Err(_) => Err(NoMemory),
    }
}
