//! The objects of errors and warnings.

ghost use Rattle.std.specs.Prelude.{◌≡◌, ◌++◌, IfOk, OnOk, Some, string_bytes};
ghost use Rattle.ttx_mistakes.specs.PlacedViews.{placed_view, placed_views};
ghost use Rattle.ttx_mistake_records.specs.Records as rule;

use std::alloc::{AllocError, Global};
use ttx_check::Checked;
use ttx_json::{count, push_object, word};
use ttx_mistakes::{Placed, errors_in, shown, status, warnings_in};
use ttx_places::position_of;

// The most objects of errors and warnings.
const MOST: usize = 100;

/// A text and the name of its file.
#[derive(Clone, Copy)]
pub struct Paper<'a> {
    pub file: &'a str,
    pub bytes: &'a [u8],
}

/// A place of a text, whether it is that of an error, and the words.
#[derive(Clone, Copy)]
pub struct Said<'a> {
    pub place: usize,
    pub error: bool,
    pub words: &'a str,
}

fn severity(error: bool) -> &'static str
    ensures { result.now ≡ rule.severity error }
{
    if error { "error" } else { "warning" }
}

/// Adds the object of an error or a warning.
#[tactic(auto, unfolding(crate::specs::Records::line))]
pub fn push_said(
    alloc: Global,
    text: &mut String,
    paper: Paper<'_>,
    said: Said<'_>,
) -> Result<(), AllocError>
    ensures { OnOk result (string_bytes text.new ≡ string_bytes text.old
        ++ rule.line (rule.place_members paper.entry.file.now paper.entry.bytes.now said.entry.place said.entry.error said.entry.words.now)) }
{
    let at = position_of(paper.bytes, said.place);
    let severity = severity(said.error);
    let members = [
        word("file", paper.file),
        count("line", at.line as u64),
        count("column", at.column as u64),
        word("severity", severity),
        word("text", said.words),
    ];
    push_object(alloc, text, &members)
}

/// The same with the place where a key is first given.
#[tactic(auto, unfolding(crate::specs::Records::line))]
pub fn push_again(
    alloc: Global,
    text: &mut String,
    paper: Paper<'_>,
    said: Said<'_>,
    first: usize,
) -> Result<(), AllocError>
    ensures { OnOk result (string_bytes text.new ≡ string_bytes text.old
        ++ rule.line (rule.place_members paper.entry.file.now paper.entry.bytes.now said.entry.place said.entry.error said.entry.words.now
        ++ rule.note_members paper.entry.bytes.now (Some first))) }
{
    let at = position_of(paper.bytes, said.place);
    let note = position_of(paper.bytes, first);
    let severity = severity(said.error);
    let members = [
        word("file", paper.file),
        count("line", at.line as u64),
        count("column", at.column as u64),
        word("severity", severity),
        word("text", said.words),
        count("note_line", note.line as u64),
        count("note_column", note.column as u64),
    ];
    push_object(alloc, text, &members)
}

// Adds the object of what was found at a place.
#[tactic(auto, unfolding(crate::specs::Records::placed_record))]
fn push_placed(
    alloc: Global,
    text: &mut String,
    paper: Paper<'_>,
    placed: &Placed,
) -> Result<(), AllocError>
    ensures { OnOk result (string_bytes text.new ≡ string_bytes text.old
        ++ rule.placed_record paper.entry.file.now paper.entry.bytes.now (placed_view placed.now)) }
{
    let words = String::from_utf8_lossy(alloc, placed.words.as_slice())?;
    let said = Said {
        place: placed.place,
        error: placed.error,
        words: words.as_str(),
    };
    push_said(alloc, text, paper, said)
}

// Adds the objects of what was found.
fn push_each(
    alloc: Global,
    text: &mut String,
    paper: Paper<'_>,
    found: &[Placed],
) -> Result<(), AllocError>
    ensures { OnOk result (string_bytes text.new ≡ string_bytes text.old
        ++ rule.placed_records paper.entry.file.now paper.entry.bytes.now (placed_views found.now)) }
{
    for placed in found {
        push_placed(alloc, text, paper, placed)?;
    }
    Ok(())
}

// Adds that nothing was found in a text with so many pages.
#[tactic(auto, unfolding(crate::specs::Records::line))]
fn push_none(alloc: Global, text: &mut String, pages: usize) -> Result<(), AllocError>
    ensures { OnOk result (string_bytes text.new ≡ string_bytes text.old ++ rule.line (rule.no_members pages)) }
{
    let members = [
        count("errors", 0),
        count("warnings", 0),
        count("pages", pages as u64),
    ];
    push_object(alloc, text, &members)
}

/// Adds how many errors and warnings there are.
#[tactic(auto, unfolding(crate::specs::Records::line))]
pub fn push_counts(
    alloc: Global,
    text: &mut String,
    errors: usize,
    warnings: usize,
) -> Result<(), AllocError>
    ensures { OnOk result (string_bytes text.new ≡ string_bytes text.old ++ rule.line (rule.some_members errors warnings)) }
{
    let members = [
        count("errors", errors as u64),
        count("warnings", warnings as u64),
    ];
    push_object(alloc, text, &members)
}

// The same where more were found than are shown.
#[tactic(auto, unfolding(crate::specs::Records::line))]
fn push_many(
    alloc: Global,
    text: &mut String,
    errors: usize,
    warnings: usize,
) -> Result<(), AllocError>
    ensures { OnOk result (string_bytes text.new ≡ string_bytes text.old ++ rule.line (rule.many_members errors warnings)) }
{
    let members = [
        count("errors", errors as u64),
        count("warnings", warnings as u64),
        count("shown", MOST as u64),
    ];
    push_object(alloc, text, &members)
}

// Adds how many were found in a text with so many pages.
fn push_last(
    alloc: Global,
    text: &mut String,
    pages: usize,
    found: &[Placed],
) -> Result<(), AllocError>
    ensures { OnOk result (string_bytes text.new ≡ string_bytes text.old ++ rule.line (rule.count_members pages (placed_views found.now))) }
{
    if found.is_empty() {
        push_none(alloc, text, pages)
    } else if found.len() > MOST {
        push_many(alloc, text, errors_in(found), warnings_in(found))
    } else {
        push_counts(alloc, text, errors_in(found), warnings_in(found))
    }
}

// The objects of a text with so many pages, in which this was found.
fn records_text(
    alloc: Global,
    paper: Paper<'_>,
    pages: usize,
    found: &[Placed],
) -> Result<String, AllocError>
    ensures { IfOk result (λ text. string_bytes text ≡ rule.records_text paper.entry.file.now paper.entry.bytes.now pages (placed_views found.now)) }
{
    let mut text = String::new(alloc);
    push_each(alloc, &mut text, paper, shown(found))?;
    push_last(alloc, &mut text, pages, found)?;
    Ok(text)
}

/// The objects of a text with so many pages, in which this was found. With `strict` a warning makes the status 1.
pub fn record_of(
    alloc: Global,
    paper: Paper<'_>,
    strict: bool,
    pages: usize,
    found: &[Placed],
) -> Result<Checked, AllocError>
    ensures { IfOk result (λ r. rule.IsRecordOf strict paper.entry.file.now paper.entry.bytes.now pages (placed_views found.now)
        (string_bytes r.text) r.status) }
{
    Ok(Checked {
        text: records_text(alloc, paper, pages, found)?,
        status: status(strict, found),
    })
}
