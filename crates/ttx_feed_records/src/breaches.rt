//! The objects of slots that break the rule.

ghost use Rattle.std.specs.Prelude.{◌≡◌, ◌++◌, OnOk, map, string_bytes};
ghost use Rattle.ttx_page.specs.Views.{page_of};
ghost use Rattle.ttx_feed_records.specs.FeedRecords as rule;

use crate::members::{At, item_name, page_text, push_at_slot};
use std::alloc::{AllocError, Global};
use ttx_json::{count, word};
use ttx_monitor::{Breach, TextByte};
use ttx_page::Page;

// Adds the latest of too many slots in which a byte was wrong.
fn push_repeat(
    alloc: Global,
    text: &mut String,
    pages: &[Page],
    at: At,
    byte: TextByte,
) -> Result<(), AllocError>
    ensures { OnOk result (string_bytes text.new ≡ string_bytes text.old
        ++ rule.line (rule.with_start (rule.repeated (map page_of pages.now) at.0 byte) at.1)) }
{
    let page = page_text(alloc, pages, byte.page)?;
    let item = item_name(alloc, byte.row)?;
    let members = [
        word("page", page.as_str()),
        word("item", item.as_str()),
        count("byte", u64::from(byte.byte)),
    ];
    push_at_slot(alloc, text, at, "repeat", &members)
}

/// Adds the latest of too many slots with a row of a page that did not come whole.
pub fn push_row(
    alloc: Global,
    text: &mut String,
    pages: &[Page],
    at: At,
    row: (u32, u8),
) -> Result<(), AllocError>
    ensures { OnOk result (string_bytes text.new ≡ string_bytes text.old
        ++ rule.line (rule.with_start (rule.repeated_row (map page_of pages.now) at.0 row.0 row.1) at.1)) }
{
    let page = page_text(alloc, pages, row.0)?;
    let item = item_name(alloc, row.1)?;
    let members = [word("page", page.as_str()), word("item", item.as_str())];
    push_at_slot(alloc, text, at, "repeat", &members)
}

/// Adds a slot that breaks the rule by bytes.
pub fn push_breach(
    alloc: Global,
    text: &mut String,
    pages: &[Page],
    at: At,
    breach: Breach,
) -> Result<(), AllocError>
    ensures { OnOk result (string_bytes text.new ≡ string_bytes text.old
        ++ rule.line (rule.with_start (rule.how_members (map page_of pages.now) at.0 breach) at.1)) }
{
    match breach {
        Breach::Unasked => push_at_slot(alloc, text, at, "unlike", &[]),
        Breach::Lost => push_at_slot(alloc, text, at, "lost", &[]),
        Breach::Bits(byte) => {
            push_at_slot(alloc, text, at, "byte", &[count("byte", u64::from(byte))])
        }
        Breach::Repeated(byte) => push_repeat(alloc, text, pages, at, byte),
    }
}
