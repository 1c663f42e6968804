//! The warnings about stays as notes.

ghost use Rattle.std.specs.Prelude.{◌≡◌, ◌++◌, ◌≤◌, IfOk, OnOk, Some, drop, length, map, string_bytes};
ghost use Rattle.ttx_page.specs.Views.{page_of};
ghost use Rattle.ttx_source.specs.PromiseViews.{promise_view};
ghost use Rattle.ttx_stays.specs.ShortNumbers.{short_text};
ghost use Rattle.ttx_mistakes.specs.NoteViews.{note_views};
ghost use Rattle.ttx_mistakes.specs.StayNotes as rule;

use crate::long_lines::{behind, copied};
use crate::notes::Note;
use std::alloc::{AllocError, Global};
use ttx_page::Page;
use ttx_places::{page_path, push_part};
use ttx_source::{Promise, Service};
use ttx_stays::{push_short, push_stay};

fn without_last(text: &[u8]) -> &[u8]
    ensures { result.now ≡ rule.without_last text.now }
{
    &text[..text.len().saturating_sub(1)]
}

// The words of the line of a warning.
fn words_in(line: &[u8]) -> &[u8]
    ensures { result.now ≡ rule.words_in line.now }
{
    without_last(behind(line, 8))
}

// The path of a key of the page at an index.
fn key_path(alloc: Global, index: usize, key: &str) -> Result<String, AllocError>
    requires { index ≤ 1_000_000 }
    ensures { IfOk result (λ path. string_bytes path ≡ rule.key_path index key.now) }
{
    let mut path = page_path(alloc, index + 1)?;
    push_part(&mut path, key)?;
    Ok(path)
}

// Adds the note of a line, if there is one.
fn push_line(
    alloc: Global,
    notes: &mut Vec<Note>,
    path: String,
    line: &[u8],
) -> Result<(), AllocError>
    ensures { OnOk result (note_views notes.new.items ≡ note_views notes.old.items ++ rule.line_note (string_bytes path) line.now) }
{
    if line.is_empty() {
        return Ok(());
    }
    notes.push(Note {
        error: false,
        path,
        sign: None,
        words: copied(alloc, words_in(line))?,
    })?;
    Ok(())
}

// Adds the note about the number of the page at an index, if there is one.
fn push_short_note(
    alloc: Global,
    notes: &mut Vec<Note>,
    pages: &[Page],
    stays: &[Promise],
    index: usize,
) -> Result<(), AllocError>
    requires few { length pages.now ≤ 2000 }
    ensures { OnOk result (note_views notes.new.items
        ≡ note_views notes.old.items ++ rule.short_note (map page_of pages.now) (map promise_view stays.now) index) }
{
    let Some(page) = pages.get(index) else {
        return Ok(());
    };
    let path = key_path(alloc, index, "number")?;
    let mut line = String::new(alloc);
    push_short(&mut line, pages, stays, index, page)?;
    push_line(alloc, notes, path, line.as_bytes())
}

// Adds the notes about numbers whose pages may change before they are read.
fn push_short_notes(
    alloc: Global,
    notes: &mut Vec<Note>,
    pages: &[Page],
    stays: &[Promise],
) -> Result<(), AllocError>
    requires few { length pages.now ≤ 2000 }
    ensures { OnOk result (note_views notes.new.items
        ≡ note_views notes.old.items ++ rule.short_notes (map page_of pages.now) (map promise_view stays.now) (length pages.now)) }
{
    for index in 0..pages.len() {
        push_short_note(alloc, notes, pages, stays, index)?;
    }
    Ok(())
}

// Adds the note about a stay, if no plan keeps it.
fn push_unkept_note(
    alloc: Global,
    notes: &mut Vec<Note>,
    lines: u8,
    pages: &[Page],
    stay: Promise,
) -> Result<(), AllocError>
    requires few { length pages.now ≤ 2000 }
    ensures { OnOk result (note_views notes.new.items
        ≡ note_views notes.old.items ++ rule.unkept_note lines (map page_of pages.now) (promise_view stay)) }
{
    let Some(_page) = pages.get(stay.page) else {
        return Ok(());
    };
    let mut line = String::new(alloc);
    push_stay(&mut line, lines, pages, stay)?;
    push_line(
        alloc,
        notes,
        key_path(alloc, stay.page, "stays")?,
        line.as_bytes(),
    )
}

// Adds the notes about stays that no plan keeps.
fn push_unkept_notes(
    alloc: Global,
    notes: &mut Vec<Note>,
    lines: u8,
    pages: &[Page],
    stays: &[Promise],
) -> Result<(), AllocError>
    requires few { length pages.now ≤ 2000 }
    ensures { OnOk result (note_views notes.new.items
        ≡ note_views notes.old.items ++ rule.unkept_notes lines (map page_of pages.now) (map promise_view stays.now)) }
{
    for stay in stays {
        push_unkept_note(alloc, notes, lines, pages, *stay)?;
    }
    Ok(())
}

/// Adds the warnings about the stays of a service.
#[tactic(auto, unfolding(crate::specs::StayNotes::stay_notes))]
pub fn push_stays(
    alloc: Global,
    notes: &mut Vec<Note>,
    service: &Service,
    stays: &[Promise],
) -> Result<(), AllocError>
    ensures { OnOk result (note_views notes.new.items
        ≡ note_views notes.old.items ++ rule.stay_notes service.now (map promise_view stays.now)) }
{
    let pages = service.pages();
    push_short_notes(alloc, notes, pages, stays)?;
    push_unkept_notes(alloc, notes, service.lines(), pages, stays)
}
