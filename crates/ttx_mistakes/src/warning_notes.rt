//! The warnings about a service as notes.

ghost use Rattle.std.specs.Prelude.{◌≡◌, ◌++◌, IfOk, OnOk, map, string_bytes, codes};
ghost use Rattle.std.specs.Fmt.{decimal};
ghost use Rattle.ttx_page.specs.Views.{page_of};
ghost use Rattle.ttx_places.specs.Paths.{below};
ghost use Rattle.ttx_mistakes.specs.NoteViews.{note_view, note_views};
ghost use Rattle.ttx_mistakes.specs.WarningNotes as rule;

use crate::ids::same_id;
use crate::notes::Note;
use std::alloc::{AllocError, Global};
use ttx_check::warning::Warning;
use ttx_check::warning_lines::push_text;
use ttx_check::warnings;
use ttx_header::PageId;
use ttx_page::Page;
use ttx_places::{page_path, push_number, push_part};
use ttx_source::Service;

/// The page that a warning is about.
pub fn warned_page(warning: Warning) -> Option<PageId>
    ensures { result ≡ rule.warned_page warning }
{
    match warning {
        Warning::DeadInitial | Warning::MostTraffic { .. } => None,
        Warning::DeadLink { page, .. }
        | Warning::HiddenRow { page, .. }
        | Warning::UnshownRow { page }
        | Warning::StrayTab { page, .. }
        | Warning::StrayBreak { page, .. }
        | Warning::OtherSign { page, .. }
        | Warning::LiteralEscape { page, .. }
        | Warning::OpenBox { page, .. }
        | Warning::EmptyRow { page }
        | Warning::LetterNumber { page }
        | Warning::LetterSubcode { page }
        | Warning::NoBox { page }
        | Warning::BehindSubpage { page }
        | Warning::BehindItself { page, .. } => Some(page),
    }
}

// Adds a row to the path of its page.
fn push_row(path: &mut String, row: u8) -> Result<(), AllocError>
    ensures { OnOk result (string_bytes path.new ≡ rule.row_path (string_bytes path.old) row) }
{
    if row == 0 {
        return push_part(path, "head");
    }
    push_part(path, "rows")?;
    push_number(path, usize::from(row))
}

fn push_link(path: &mut String, link: usize) -> Result<(), AllocError>
    ensures { OnOk result (string_bytes path.new ≡ below (below (string_bytes path.old) (codes "links")) (decimal link)) }
{
    push_part(path, "links")?;
    push_number(path, link)
}

fn push_initial(path: &mut String) -> Result<(), AllocError>
    ensures { OnOk result (string_bytes path.new ≡ below (below (string_bytes path.old) (codes "info")) (codes "initial")) }
{
    push_part(path, "info")?;
    push_part(path, "initial")
}

// Adds what a warning is about to the path of its page, or of the text.
fn push_warned(path: &mut String, warning: Warning) -> Result<(), AllocError>
    ensures { OnOk result (string_bytes path.new ≡ rule.warned_path (string_bytes path.old) warning) }
{
    match warning {
        Warning::DeadInitial => push_initial(path),
        Warning::DeadLink { page: _, link } => push_link(path, link),
        Warning::HiddenRow { page: _, row }
        | Warning::StrayTab { page: _, row }
        | Warning::StrayBreak { page: _, row }
        | Warning::LiteralEscape { page: _, row }
        | Warning::OpenBox { page: _, row }
        | Warning::OtherSign { page: _, row, .. } => push_row(path, row),
        Warning::UnshownRow { .. } => push_row(path, 24),
        Warning::EmptyRow { .. } => push_part(path, "row24"),
        Warning::LetterNumber { .. } => push_part(path, "number"),
        Warning::LetterSubcode { .. } => push_part(path, "sub"),
        Warning::NoBox { .. } | Warning::BehindSubpage { .. } => Ok(()),
        Warning::BehindItself { .. } => push_part(path, "often"),
        Warning::MostTraffic { .. } => push_part(path, "serial"),
    }
}

/// The number of a page in the text.
pub fn order_of(pages: &[Page], id: PageId) -> usize
    ensures { result ≡ rule.order_of (map (λ p. p.id) (map page_of pages.now)) id }
{
    for (index, page) in pages.iter().enumerate() {
        if same_id(id, page.id()) {
            return index + 1;
        }
    }
    0
}

// The path of the page that a warning is about, or of the text.
fn path_from(alloc: Global, pages: &[Page], page: Option<PageId>) -> Result<String, AllocError>
    ensures { IfOk result (λ path. string_bytes path ≡ rule.path_from (map (λ p. p.id) (map page_of pages.now)) page) }
{
    match page {
        None => Ok(String::new(alloc)),
        Some(id) => page_path(alloc, order_of(pages, id)),
    }
}

// The character of a row that a warning is about.
fn warned_sign(warning: Warning) -> Option<usize>
    ensures { result ≡ rule.warned_sign warning }
{
    match warning {
        Warning::OtherSign { column, .. } => Some(column),
        _ => None,
    }
}

/// A warning as a note.
pub fn warning_note(alloc: Global, pages: &[Page], warning: &Warning) -> Result<Note, AllocError>
    ensures { IfOk result (λ note. note_view note ≡ rule.warning_note (map (λ p. p.id) (map page_of pages.now)) warning.now) }
{
    let mut path = path_from(alloc, pages, warned_page(*warning))?;
    push_warned(&mut path, *warning)?;
    let mut words = String::new(alloc);
    push_text(&mut words, *warning)?;
    Ok(Note {
        error: false,
        path,
        sign: warned_sign(*warning),
        words: words.into_bytes(),
    })
}

// Adds some warnings.
fn push_notes(
    alloc: Global,
    notes: &mut Vec<Note>,
    pages: &[Page],
    found: &[Warning],
) -> Result<(), AllocError>
    ensures { OnOk result (note_views notes.new.items
        ≡ note_views notes.old.items ++ map (rule.warning_note (map (λ p. p.id) (map page_of pages.now))) found.now) }
{
    for warning in found {
        notes.push(warning_note(alloc, pages, warning)?)?;
    }
    Ok(())
}

/// Adds the warnings about a service.
#[tactic(auto, unfolding(crate::specs::WarningNotes::warning_notes))]
pub fn push_warnings(
    alloc: Global,
    notes: &mut Vec<Note>,
    service: &Service,
) -> Result<(), AllocError>
    ensures { OnOk result (note_views notes.new.items ≡ note_views notes.old.items ++ rule.warning_notes service.now) }
{
    let found = warnings(alloc, service)?;
    push_notes(alloc, notes, service.pages(), &found)
}
