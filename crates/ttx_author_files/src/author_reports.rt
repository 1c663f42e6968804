//! The report on an author's text.

ghost use Rattle.std.specs.Prelude.{◌≡◌, ◌++◌, List, IfOk};
ghost use Rattle.toml.specs.View.{table_view};
ghost use Rattle.ttx_desk.specs.Services.{mistakes};
ghost use Rattle.ttx_mistakes.specs.LongLines as lines;
ghost use Rattle.ttx_mistakes.specs.PlacedViews.{placed_view, placed_views};
ghost use Rattle.ttx_author_files.specs.AuthorNotes.{author_placed};
ghost use Rattle.ttx_author_files.specs.AuthorReports as rule;

use crate::author_notes::push_author;
use std::alloc::{AllocError, Global};
use toml::Table;
use ttx_check::Reported;
use ttx_desk::{Mistake, mistake_place, push_fault, service_of};
use ttx_mistakes::{Paper, Placed, Style, pages_in, report_on};
use ttx_source::read_document;

// A mistake for which an author's text is not composed, at its place.
fn placed_mistake(
    alloc: Global,
    text: &str,
    author: &Table,
    mistake: &Mistake,
) -> Result<Placed, AllocError>
    ensures { IfOk result (λ p. rule.IsPlacedMistake text.now (table_view author.now) mistake.now (placed_view p)) }
{
    let place = mistake_place(alloc, text, mistake)?;
    let mut words = String::new(alloc);
    push_fault(alloc, &mut words, author, mistake)?;
    Ok(Placed {
        error: true,
        place,
        words: words.into_bytes(),
    })
}

// All of them.
fn placed_mistakes(
    alloc: Global,
    text: &str,
    author: &Table,
    mistakes: &[Mistake],
) -> Result<Vec<Placed>, AllocError>
    ensures { IfOk result (λ found. rule.ArePlaced text.now (table_view author.now) mistakes.now (placed_views found.items)) }
{
    let mut found = Vec::new(alloc);
    for mistake in mistakes {
        let placed = placed_mistake(alloc, text, author, mistake)?;
        found.push(placed)?;
    }
    Ok(found)
}

/// All that is told of an author's text with this table, at its places: the mistakes for which it is not composed, and after them its
/// errors and warnings. `Err` if memory runs out.
#[tactic(auto, unfolding(crate::specs::AuthorNotes::author_placed))]
pub fn told_of_author(alloc: Global, text: &str, author: &Table) -> Result<Vec<Placed>, AllocError>
    ensures { IfOk result (λ found. (told : List lines.Placed) × rule.ArePlaced text.now (table_view author.now) (mistakes (table_view author.now)) told
        × (placed_views found.items ≡ told ++ author_placed text.now (table_view author.now))) }
{
    let translated = service_of(alloc, author)?;
    let mistakes = translated.mistakes.as_slice();
    let mut found = placed_mistakes(alloc, text, author, mistakes)?;
    push_author(alloc, &mut found, text, &translated.table, mistakes)?;
    Ok(found)
}

// The report on an author's text with this table.
fn author_report(
    alloc: Global,
    style: Style<'_>,
    text: &str,
    author: &Table,
) -> Result<Reported, AllocError>
    ensures { IfOk result (λ report. rule.IsReportOn style.entry text.now (table_view author.now) report.text.items report.status) }
{
    let found = told_of_author(alloc, text, author)?;
    let paper = Paper {
        file: style.file,
        bytes: text.as_bytes(),
        long: style.long,
    };
    report_on(
        alloc,
        paper,
        style.strict,
        pages_in(author),
        found.as_slice(),
    )
}

/// The report on an author's text, which is TOML; of another, `Err`.
pub(crate) fn reported_author(
    alloc: Global,
    bytes: &[u8],
    style: Style<'_>,
) -> Result<Reported, AllocError>
    ensures { IfOk result (λ report. rule.IsAuthorReport style.entry bytes.now report.text.items report.status) }
{
    let Some(author) = read_document(alloc, bytes)? else {
        return Err(AllocError);
    };
    author_report(alloc, style, author.text, &author.table)
}
