//! The errors and warnings of an author's text, beside the mistakes for which it is not composed.

ghost use Rattle.std.specs.Prelude.{◌≡◌, ◌++◌, IfOk, OnOk, map};
ghost use Rattle.toml.specs.View.{table_view};
ghost use Rattle.ttx_page.specs.Views.{page_of};
ghost use Rattle.ttx_source.specs.Services as source;
ghost use Rattle.ttx_check.specs.PartViews.{part_view};
ghost use Rattle.ttx_mistakes.specs.MistakeViews.{mistake_view, mistake_views};
ghost use Rattle.ttx_mistakes.specs.NoteViews.{note_views};
ghost use Rattle.ttx_mistakes.specs.PlacedViews.{placed_view, placed_views};
ghost use Rattle.ttx_author_files.specs.AuthorNotes as rule;

use std::alloc::{AllocError, Global};
use toml::Table;
use ttx_check::parts::Part;
use ttx_check::warning::Warning;
use ttx_check::warnings;
use ttx_desk::{Fault, Mistake as AuthorMistake, Part as AuthorPart, mistake_place};
use ttx_header::PageId;
use ttx_mistakes::error_notes::push_errors;
use ttx_mistakes::key_notes::push_keys;
use ttx_mistakes::long_reports::push_stayed;
use ttx_mistakes::mistakes::Mistake;
use ttx_mistakes::notes::Note;
use ttx_mistakes::warning_notes::{order_of, warned_page, warning_note};
use ttx_mistakes::{Placed, all_mistakes, push_notes, value_place};
use ttx_page::Page;
use ttx_source::{Service, SourceError, SourceFault, service_of_table};

fn is_option_part(part: AuthorPart) -> bool
    ensures { result ≡ rule.is_option_part part }
{
    matches!(part, AuthorPart::Option)
}

fn is_option(part: Part<'_>) -> bool
    ensures { result ≡ rule.is_option (part_view part.entry) }
{
    match part {
        Part::Key(key) => key == "option",
        Part::Whole | Part::Row(_) | Part::Link(_) => false,
    }
}

// Whether a part is a text, which is read once the option of its page is.
fn is_text(part: Part<'_>) -> bool
    ensures { result ≡ rule.is_text (part_view part.entry) }
{
    match part {
        Part::Key(key) => key == "head" || key == "text",
        Part::Row(_) => true,
        Part::Whole | Part::Link(_) => false,
    }
}

fn names_option(found: &[AuthorMistake], page: usize) -> bool
    ensures { result ≡ rule.names_option found.now page }
{
    found
        .iter()
        .any(|one| one.page == page && is_option_part(one.part))
}

fn has_mistake(found: &[AuthorMistake], page: usize) -> bool
    ensures { result ≡ rule.has_mistake found.now page }
{
    found.iter().any(|one| one.page == page)
}

fn has_option_error(errors: &[Mistake<'_>], page: usize) -> bool
    ensures { result ≡ rule.has_option_error (mistake_views errors.now) page }
{
    for error in errors {
        if error.page == page && is_option(error.part) {
            return true;
        }
    }
    false
}

// Whether a mistake of its page tells an error, or brings it about.
fn is_told(found: &[AuthorMistake], errors: &[Mistake<'_>], error: &Mistake<'_>) -> bool
    ensures { result ≡ rule.is_told found.now (mistake_views errors.now) (mistake_view error.now) }
{
    if is_option(error.part) {
        return names_option(found, error.page);
    }
    is_text(error.part) && (has_mistake(found, error.page) || has_option_error(errors, error.page))
}

// The other errors.
fn kept<'a>(
    alloc: Global,
    found: &[AuthorMistake],
    errors: &[Mistake<'a>],
) -> Result<Vec<Mistake<'a>>, AllocError>
    ensures { IfOk result (λ kept. mistake_views kept.items ≡ rule.kept found.now (mistake_views errors.now)) }
{
    let mut kept = Vec::new(alloc);
    for error in errors {
        if !is_told(found, errors, error) {
            kept.push(*error)?;
        }
    }
    Ok(kept)
}

// The errors and the warnings about keys of an author's text with this service table.
fn notes_in(alloc: Global, table: &Table, found: &[AuthorMistake]) -> Result<Vec<Note>, AllocError>
    ensures { IfOk result (λ notes. note_views notes.items ≡ rule.notes_in found.now (table_view table.now)) }
{
    let mut notes = Vec::new(alloc);
    let errors = all_mistakes(alloc, table)?;
    let left = kept(alloc, found, &errors)?;
    push_errors(alloc, &mut notes, table, &left)?;
    push_keys(alloc, &mut notes, table)?;
    Ok(notes)
}

// Whether a warning is about a code that the author did not write.
fn is_of_code(warning: Warning) -> bool
    ensures { result ≡ rule.is_of_code warning }
{
    matches!(
        warning,
        Warning::OtherSign { .. } | Warning::LiteralEscape { .. }
    )
}

// The row that a warning is about.
fn warned_row(warning: Warning) -> Option<usize>
    ensures { result ≡ rule.warned_row warning }
{
    match warning {
        Warning::HiddenRow { page: _, row }
        | Warning::StrayTab { page: _, row }
        | Warning::StrayBreak { page: _, row }
        | Warning::OpenBox { page: _, row } => Some(usize::from(row)),
        Warning::UnshownRow { .. } => Some(24),
        _ => None,
    }
}

// The place of a line of `text`.
fn row_place(alloc: Global, text: &str, page: usize, row: usize) -> Result<usize, AllocError>
    ensures { IfOk result (λ place. place ≡ rule.row_place text.now page row) }
{
    let mistake = AuthorMistake {
        page,
        part: AuthorPart::Line { number: row },
        place: 0,
        fault: Fault::Lines,
    };
    mistake_place(alloc, text, &mistake)
}

// The place of a value, or of the line of `text` that is the row.
fn place_or_row(
    alloc: Global,
    text: &str,
    page: usize,
    row: Option<usize>,
    place: Option<usize>,
) -> Result<usize, AllocError>
    ensures { IfOk result (λ found. found ≡ rule.place_or_row text.now page row place) }
{
    match (place, row) {
        (Some(place), _) => Ok(place),
        (None, None) => Ok(0),
        (None, Some(row)) => row_place(alloc, text, page, row),
    }
}

// The number in the text of the page that a warning is about, or 0.
fn page_number(pages: &[Page], page: Option<PageId>) -> usize
    ensures { result ≡ rule.number_of (map (λ p. p.id) (map page_of pages.now)) page }
{
    match page {
        None => 0,
        Some(id) => order_of(pages, id),
    }
}

// A warning at its place.
fn warning_placed(
    alloc: Global,
    text: &str,
    pages: &[Page],
    warning: &Warning,
) -> Result<Placed, AllocError>
    ensures { IfOk result (λ p. placed_view p ≡ rule.warning_placed text.now (map (λ p. p.id) (map page_of pages.now)) warning.now) }
{
    let note = warning_note(alloc, pages, warning)?;
    let value = value_place(alloc, text, note.path.as_str())?;
    let page = page_number(pages, warned_page(*warning));
    let place = place_or_row(alloc, text, page, warned_row(*warning), value)?;
    Ok(Placed {
        error: false,
        place,
        words: note.words,
    })
}

// Adds the warnings about what the author wrote.
fn push_written(
    alloc: Global,
    found: &mut Vec<Placed>,
    text: &str,
    pages: &[Page],
    warnings: &[Warning],
) -> Result<(), AllocError>
    ensures { OnOk result (placed_views found.new.items ≡ placed_views found.old.items
        ++ map (rule.warning_placed text.now (map (λ p. p.id) (map page_of pages.now))) (rule.written warnings.now)) }
{
    for warning in warnings {
        if !is_of_code(*warning) {
            found.push(warning_placed(alloc, text, pages, warning)?)?;
        }
    }
    Ok(())
}

// Adds the warnings about the service of a table.
fn push_warned(
    alloc: Global,
    found: &mut Vec<Placed>,
    text: &str,
    table: &Table,
    service: &Service,
) -> Result<(), AllocError>
    ensures { OnOk result (placed_views found.new.items
        ≡ placed_views found.old.items ++ rule.service_warned text.now (table_view table.now) service.now) }
{
    let warned = warnings(alloc, service)?;
    push_written(alloc, found, text, service.pages(), &warned)?;
    let mut notes = Vec::new(alloc);
    push_stayed(alloc, &mut notes, table, service)?;
    push_notes(alloc, found, text, &notes)
}

// The same, if the table reads as one.
fn push_service(
    alloc: Global,
    found: &mut Vec<Placed>,
    text: &str,
    table: &Table,
) -> Result<(), AllocError>
    ensures { OnOk result (placed_views found.new.items
        ≡ placed_views found.old.items ++ rule.service_placed text.now (table_view table.now) (source.service_of (table_view table.now))) }
{
    match service_of_table(alloc, table) {
        Ok(service) => push_warned(alloc, found, text, table, &service),
        Err(
            SourceError {
                fault: SourceFault::NoMemory,
                page: _,
            },
        ) => Err(AllocError),
        Err(_) => Ok(()),
    }
}

/// Adds the errors and warnings of an author's text with this service table and these mistakes.
pub(crate) fn push_author(
    alloc: Global,
    found: &mut Vec<Placed>,
    text: &str,
    table: &Table,
    mistakes: &[AuthorMistake],
) -> Result<(), AllocError>
    ensures { OnOk result (placed_views found.new.items
        ≡ placed_views found.old.items ++ rule.placed_in text.now mistakes.now (table_view table.now)) }
{
    let notes = notes_in(alloc, table, mistakes)?;
    push_notes(alloc, found, text, &notes)?;
    push_service(alloc, found, text, table)
}
