//! The long report on a service text.

ghost use Rattle.std.specs.Prelude.{◌≡◌, ◌++◌, ◌∷◌, [], true, IfOk, OnOk, codes, map, string_bytes, take};
ghost use Rattle.std.specs.Fmt.{decimal};
ghost use Rattle.std.specs.List.{list_any};
ghost use Rattle.toml.specs.View.{table_view};
ghost use Rattle.ttx_source.specs.Promises.{promises_of};
ghost use Rattle.ttx_source.specs.Services.{service_of};
ghost use Rattle.ttx_mistakes.specs.LongLines.{first_lines, lines_at, placed, placed_texts};
ghost use Rattle.ttx_mistakes.specs.LongReports as rule;
ghost use Rattle.ttx_mistakes.specs.NoteViews.{note_views};
ghost use Rattle.ttx_mistakes.specs.PlacedViews.{placed_views};

use crate::error_notes::push_errors;
use crate::first_keys::first_place;
use crate::key_notes::push_keys;
use crate::long_lines::{Said, push_first, push_lines, push_placed};
use crate::mistake_list::all_mistakes;
use crate::notes::Note;
use crate::placed::{Paper, Placed, push_notes};
use crate::stay_notes::push_stays;
use crate::warning_notes::push_warnings;
use std::alloc::{AllocError, Global};
use toml::Table;
use ttx_check::Reported;
use ttx_check::parts::values_at;
use ttx_digits::push_decimal;
use ttx_source::links::count;
use ttx_source::{
    Service, SourceError, SourceFault, read_document, service_of_table, stays_of_table,
};

/// Why a text is not a TOML document: the place and the words, and where a key is first given that is given twice.
#[derive(Drop)]
pub struct TomlMistake {
    pub place: usize,
    pub words: String,
    pub first: Option<usize>,
}

/// Adds the warnings about the stays of a service, if they are read.
pub fn push_stayed(
    alloc: Global,
    notes: &mut Vec<Note>,
    table: &Table,
    service: &Service,
) -> Result<(), AllocError>
    ensures { OnOk result (note_views notes.new.items ≡ note_views notes.old.items
        ++ rule.stayed_notes service.now (promises_of (codes "stays") (table_view table.now))) }
{
    match stays_of_table(alloc, table) {
        Ok(stays) => push_stays(alloc, notes, service, &stays),
        Err(
            SourceError {
                fault: SourceFault::NoMemory,
                page: _,
            },
        ) => Err(AllocError),
        Err(_) => Ok(()),
    }
}

// Adds the warnings about the service of a table, if it reads as one.
fn push_service(alloc: Global, notes: &mut Vec<Note>, table: &Table) -> Result<(), AllocError>
    ensures { OnOk result (note_views notes.new.items
        ≡ note_views notes.old.items ++ rule.service_notes (service_of (table_view table.now)) (table_view table.now)) }
{
    match service_of_table(alloc, table) {
        Ok(service) => {
            push_warnings(alloc, notes, &service)?;
            push_stayed(alloc, notes, table, &service)
        }
        Err(
            SourceError {
                fault: SourceFault::NoMemory,
                page: _,
            },
        ) => Err(AllocError),
        Err(_) => Ok(()),
    }
}

/// All errors and warnings about a text with this table. `Err` if memory runs out.
#[tactic(auto, unfolding(crate::specs::LongReports::notes_of))]
pub fn notes_of(alloc: Global, table: &Table) -> Result<Vec<Note>, AllocError>
    ensures { IfOk result (λ notes. note_views notes.items ≡ rule.notes_of (table_view table.now)) }
{
    let mut notes = Vec::new(alloc);
    let found = all_mistakes(alloc, table)?;
    push_errors(alloc, &mut notes, table, &found)?;
    push_keys(alloc, &mut notes, table)?;
    push_service(alloc, &mut notes, table)?;
    Ok(notes)
}

// A number of things.
fn push_counted(text: &mut String, number: usize, word: &str) -> Result<(), AllocError>
    ensures { OnOk result (string_bytes text.new ≡ string_bytes text.old ++ rule.counted number word.now) }
{
    push_decimal(text, number)?;
    text.push_str(word)?;
    if number == 1 {
        return Ok(());
    }
    text.push('s')
}

/// How many errors were found.
pub fn errors_in(found: &[Placed]) -> usize
    ensures { result ≡ rule.errors_in (placed_views found.now) }
{
    let mut number = 0;
    for placed in found {
        if placed.error {
            number += 1;
        }
    }
    number
}

/// How many warnings were found.
pub fn warnings_in(found: &[Placed]) -> usize
    ensures { result ≡ rule.warnings_in (placed_views found.now) }
{
    let mut number = 0;
    for placed in found {
        if !placed.error {
            number += 1;
        }
    }
    number
}

// Says that more were found than are shown.
fn push_rest(text: &mut String, found: &[Placed]) -> Result<(), AllocError>
    ensures { OnOk result (string_bytes text.new ≡ string_bytes text.old ++ rule.rest_text (placed_views found.now)) }
{
    if found.len() > 100 {
        return text.push_str("; the first 100 are shown");
    }
    Ok(())
}

// The last line.
#[tactic(auto, unfolding(crate::specs::LongReports::summary))]
fn summary(alloc: Global, found: &[Placed]) -> Result<String, AllocError>
    ensures { IfOk result (λ text. string_bytes text ≡ rule.summary (placed_views found.now)) }
{
    let mut text = String::new(alloc);
    push_counted(&mut text, errors_in(found), " error")?;
    text.push_str(", ")?;
    push_counted(&mut text, warnings_in(found), " warning")?;
    push_rest(&mut text, found)?;
    text.push('\n')?;
    Ok(text)
}

/// How many pages a table has.
pub fn pages_in(table: &Table) -> usize
    ensures { result ≡ rule.pages_in (table_view table.now) }
{
    count(values_at(table, "page"))
}

// The bytes of a line with the number of pages.
fn no_notes(alloc: Global, pages: usize) -> Result<Vec<u8>, AllocError>
    ensures { IfOk result (λ text. text.items ≡ codes "ok pages " ++ decimal pages ++ 10 ∷ []) }
{
    let mut line = String::from_str(alloc, "ok pages ")?;
    push_decimal(&mut line, pages)?;
    line.push('\n')?;
    Ok(line.into_bytes())
}

// The first ones.
fn first_ones(found: &[Placed], most: usize) -> &[Placed]
    ensures { result.now ≡ take most found.now }
{
    if most < found.len() {
        &found[..most]
    } else {
        found
    }
}

/// The first 100.
pub fn shown(found: &[Placed]) -> &[Placed]
    ensures { placed_views result.now ≡ take 100 (placed_views found.now) }
{
    first_ones(found, 100)
}

// The lines of errors and warnings and the last line.
fn placed_lines(alloc: Global, paper: Paper<'_>, found: &[Placed]) -> Result<Vec<u8>, AllocError>
    ensures { IfOk result (λ text. text.items
        ≡ placed_texts paper.entry.long paper.entry.file.now paper.entry.bytes.now (take 100 (placed_views found.now)) ++ rule.summary (placed_views found.now)) }
{
    let mut text = Vec::new(alloc);
    push_placed(alloc, &mut text, paper, shown(found))?;
    let last = summary(alloc, found)?;
    text.extend_from_slice(last.as_bytes())?;
    Ok(text)
}

// The report on a text with so many pages, in which this was found.
fn report_text(
    alloc: Global,
    paper: Paper<'_>,
    pages: usize,
    found: &[Placed],
) -> Result<Vec<u8>, AllocError>
    ensures { IfOk result (λ text. text.items
        ≡ rule.report_text paper.entry.long paper.entry.file.now paper.entry.bytes.now pages (placed_views found.now)) }
{
    if found.is_empty() {
        no_notes(alloc, pages)
    } else {
        placed_lines(alloc, paper, found)
    }
}

fn has_error(found: &[Placed]) -> bool
    ensures { result ≡ list_any (λ p. p.error) (placed_views found.now) }
{
    for placed in found {
        if placed.error {
            return true;
        }
    }
    false
}

/// 2 if an error was found, 1 if a warning counts as strict, otherwise 0.
pub fn status(strict: bool, found: &[Placed]) -> u8
    ensures { result ≡ rule.status strict (placed_views found.now) }
{
    if has_error(found) {
        2
    } else if strict && !found.is_empty() {
        1
    } else {
        0
    }
}

/// The report on a text with so many pages, in which this was found. With `strict` a warning makes the status 1.
pub fn report_on(
    alloc: Global,
    paper: Paper<'_>,
    strict: bool,
    pages: usize,
    found: &[Placed],
) -> Result<Reported, AllocError>
    ensures { IfOk result (λ report.
        rule.IsReportOf paper.entry.long strict paper.entry.file.now paper.entry.bytes.now pages (placed_views found.now) report.text.items report.status) }
{
    Ok(Reported {
        text: report_text(alloc, paper, pages, found)?,
        status: status(strict, found),
    })
}

/// The errors and warnings about a text with this table, at their places.
pub fn placed_notes(alloc: Global, text: &str, table: &Table) -> Result<Vec<Placed>, AllocError>
    ensures { IfOk result (λ found. placed_views found.items ≡ map (placed text.now) (rule.notes_of (table_view table.now))) }
{
    let notes = notes_of(alloc, table)?;
    let mut found = Vec::new(alloc);
    push_notes(alloc, &mut found, text, &notes)?;
    Ok(found)
}

// The report on a text with this table.
fn table_report(
    alloc: Global,
    file: &str,
    bytes: &str,
    strict: bool,
    table: &Table,
) -> Result<Reported, AllocError>
    ensures { IfOk result (λ report. rule.IsTableReport file.now bytes.now strict (table_view table.now) report.text.items report.status) }
{
    let found = placed_notes(alloc, bytes, table)?;
    let paper = Paper {
        file,
        bytes: bytes.as_bytes(),
        long: true,
    };
    report_on(alloc, paper, strict, pages_in(table), &found)
}

// The words about a text that is not a TOML document.
fn toml_words(alloc: Global, message: &str) -> Result<String, AllocError>
    ensures { IfOk result (λ words. string_bytes words ≡ codes "this isn't TOML: " ++ message.now) }
{
    let mut words = String::from_str(alloc, "this isn't TOML: ")?;
    words.push_str(message)?;
    Ok(words)
}

// The place where the key at a place of a text is first given.
fn first_in(alloc: Global, bytes: &[u8], place: usize) -> Result<Option<usize>, AllocError>
    ensures { IfOk result (λ first. first ≡ rule.first_in bytes.now place) }
{
    match std::str::from_utf8(bytes) {
        Ok(text) => first_place(alloc, text, place),
        Err(_) => Ok(None),
    }
}

// The place where the key at a place of a text is first given, if the words of the TOML reader say that it is given twice.
fn given_first(
    alloc: Global,
    bytes: &[u8],
    place: usize,
    words: &str,
) -> Result<Option<usize>, AllocError>
    ensures { IfOk result (λ first. first ≡ rule.given_first bytes.now place words.now) }
{
    if words == "duplicate key" {
        first_in(alloc, bytes, place)
    } else {
        Ok(None)
    }
}

/// Why a text is not a TOML document, from the place and the words of the TOML reader; of a text that is one, `Err`.
pub fn toml_mistake(alloc: Global, bytes: &[u8]) -> Result<TomlMistake, AllocError>
    ensures { IfOk result (λ mistake. rule.IsTomlMistake bytes.now mistake.place (string_bytes mistake.words) mistake.first) }
{
    let Err(error) = toml::table_from_slice(alloc, bytes) else {
        return Err(AllocError);
    };
    let Some(span) = error.span() else {
        return Err(AllocError);
    };
    let place = span.start;
    let reason = error.message();
    let words = toml_words(alloc, reason)?;
    let first = given_first(alloc, bytes, place, reason)?;
    Ok(TomlMistake {
        place,
        words,
        first,
    })
}

// The lines about such a text, at a place, and at that where a key is first given.
fn toml_lines(alloc: Global, said: Said<'_>, first: Option<usize>) -> Result<Vec<u8>, AllocError>
    ensures { IfOk result (λ text. text.items ≡ lines_at said.entry.file.now said.entry.bytes.now said.entry.place said.entry.error said.entry.words.now
        ++ first_lines said.entry.file.now said.entry.bytes.now first ++ codes "1 error, 0 warnings" ++ 10 ∷ []) }
{
    let mut text = Vec::new(alloc);
    push_lines(alloc, &mut text, said)?;
    push_first(alloc, &mut text, said, first)?;
    text.extend_from_slice(b"1 error, 0 warnings\n")?;
    Ok(text)
}

// The report on a text that is not a TOML document.
fn toml_report(alloc: Global, file: &str, bytes: &[u8]) -> Result<Reported, AllocError>
    ensures { IfOk result (λ report. rule.IsTomlReport file.now bytes.now report.text.items × (report.status ≡ 2)) }
{
    let mistake = toml_mistake(alloc, bytes)?;
    let said = Said {
        file,
        bytes,
        place: mistake.place,
        error: true,
        words: mistake.words.as_bytes(),
    };
    let text = toml_lines(alloc, said, mistake.first)?;
    Ok(Reported { text, status: 2 })
}

/// The long report on a text that a file has. With `strict` a warning makes the status 1. `Err` if memory runs out.
pub fn long_report(
    alloc: Global,
    file: &str,
    bytes: &[u8],
    strict: bool,
) -> Result<Reported, AllocError>
    ensures { IfOk result (λ report. rule.IsLongReport file.now bytes.now strict report.text.items report.status) }
{
    match read_document(alloc, bytes)? {
        Some(document) => table_report(alloc, file, document.text, strict, &document.table),
        None => toml_report(alloc, file, bytes),
    }
}
