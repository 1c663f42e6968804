//! The lines of mistakes.

ghost use Rattle.std.specs.Prelude.{◌≡◌, ◌++◌, ◌∷◌, [], ℕ, List, length, take, IfOk, OnOk, string_bytes};
ghost use Rattle.toml.specs.View.{table_view};
ghost use Rattle.ttx_desk.specs.MistakeLines as rule;

use crate::mistakes::Mistake;
use crate::places::mistake_place;
use crate::words::push_fault;
use std::alloc::{AllocError, Global};
use toml::Table;
use ttx_digits::push_decimal;
use ttx_places::position_of;
use ttx_source::read_document;

// The most lines.
const MOST: usize = 100;

// An author's text: the name of its file, its characters and its table.
#[derive(Clone, Copy)]
struct Author<'a> {
    file: &'a str,
    text: &'a str,
    table: &'a Table,
}

// Adds the place of a byte of a file.
fn push_place(line: &mut String, file: &str, text: &[u8], place: usize) -> Result<(), AllocError>
    ensures { OnOk result (string_bytes line.new ≡ string_bytes line.old ++ rule.place_words file.now text.now place) }
{
    let at = position_of(text, place);
    let (row, column) = (at.line, at.column);
    write!(line, "{file}:{row}:{column}: error: ")
}

// The same of the characters of a file.
fn push_place_in(line: &mut String, file: &str, text: &str, place: usize) -> Result<(), AllocError>
    ensures { OnOk result (string_bytes line.new ≡ string_bytes line.old ++ rule.place_words file.now text.now place) }
{
    push_place(line, file, text.as_bytes(), place)
}

// The line of a mistake.
fn mistake_line(alloc: Global, author: &Author<'_>, mistake: &Mistake) -> Result<String, AllocError>
    ensures { IfOk result (λ line. rule.IsMistakeLine author.now.file.now author.now.text.now (table_view author.now.table.now) mistake.now (string_bytes line)) }
{
    let place = mistake_place(alloc, author.text, mistake)?;
    let mut line = String::new(alloc);
    push_place_in(&mut line, author.file, author.text, place)?;
    push_fault(alloc, &mut line, author.table, mistake)?;
    line.push_str("\n")?;
    Ok(line)
}

// The lines of mistakes.
fn mistake_lines(
    alloc: Global,
    author: &Author<'_>,
    mistakes: &[Mistake],
) -> Result<String, AllocError>
    ensures { IfOk result (λ lines.
        rule.AreMistakeLines author.now.file.now author.now.text.now (table_view author.now.table.now) mistakes.now (string_bytes lines)) }
{
    let mut lines = String::new(alloc);
    for mistake in mistakes {
        let line = mistake_line(alloc, author, mistake)?;
        lines.push_str(line.as_str())?;
    }
    Ok(lines)
}

// Adds how many mistakes there are.
fn push_count(text: &mut String, count: usize) -> Result<(), AllocError>
    ensures { OnOk result (string_bytes text.new ≡ string_bytes text.old ++ rule.count_line count) }
{
    push_decimal(text, count)?;
    text.push_str(if count == 1 {
        " mistake\n"
    } else {
        " mistakes\n"
    })
}

// The first mistakes.
fn first_mistakes(mistakes: &[Mistake], most: usize) -> &[Mistake]
    ensures { result.now ≡ take most mistakes.now }
{
    if most < mistakes.len() {
        &mistakes[..most]
    } else {
        mistakes
    }
}

// The lines of the first mistakes, and how many there are.
fn report_on(alloc: Global, author: &Author<'_>, mistakes: &[Mistake]) -> Result<String, AllocError>
    ensures { IfOk result (λ report.
        rule.IsReport author.now.file.now author.now.text.now (table_view author.now.table.now) mistakes.now (string_bytes report)) }
{
    let mut report = mistake_lines(alloc, author, first_mistakes(mistakes, MOST))?;
    push_count(&mut report, mistakes.len())?;
    Ok(report)
}

/// A line for each mistake of an author's text, 100 at most, and one with their number: `FILE:LINE:COLUMN: error: WORDS`. Lines and
/// columns count from 1, a column for each character; they are those of the character that has no code. `Err` if memory runs out, or if
/// the text is not TOML.
pub fn mistakes_report(
    alloc: Global,
    file: &str,
    author: &[u8],
    mistakes: &[Mistake],
) -> Result<String, AllocError>
    ensures { IfOk result (λ report. rule.IsMistakeReport file.now author.now mistakes.now (string_bytes report)) }
{
    let Some(document) = read_document(alloc, author)? else {
        return Err(AllocError);
    };
    let author = Author {
        file,
        text: document.text,
        table: &document.table,
    };
    report_on(alloc, &author, mistakes)
}

/// Adds the same to a text.
pub fn push_mistakes(
    alloc: Global,
    text: &mut String,
    file: &str,
    author: &[u8],
    mistakes: &[Mistake],
) -> Result<(), AllocError>
    ensures { OnOk result ((report : List ℕ) × rule.IsMistakeReport file.now author.now mistakes.now report
        × (string_bytes text.new ≡ string_bytes text.old ++ report)) }
{
    let report = mistakes_report(alloc, file, author, mistakes)?;
    text.push_str(report.as_str())?;
    Ok(())
}

// Adds the words about a text that is not TOML.
fn push_not_toml(text: &mut String, words: &str) -> Result<(), AllocError>
    ensures { OnOk result (string_bytes text.new ≡ string_bytes text.old ++ rule.toml_words words.now) }
{
    text.push_str("this is not TOML: ")?;
    text.push_str(words)?;
    text.push_str("\n1 mistake\n")
}

/// The lines about a text that is not TOML: `FILE:LINE:COLUMN: error: this is not TOML: WORDS`, and `1 mistake`. `Err` if memory runs out,
/// or if the text is TOML.
pub fn toml_report(alloc: Global, file: &str, text: &[u8]) -> Result<String, AllocError>
    ensures { IfOk result (λ report. rule.IsTomlReport file.now text.now (string_bytes report)) }
{
    let Err(error) = toml::table_from_slice(alloc, text) else {
        return Err(AllocError);
    };
    let Some(span) = error.span() else {
        return Err(AllocError);
    };
    if error.is_memory() {
        return Err(AllocError);
    }
    let mut report = String::new(alloc);
    push_place(&mut report, file, text, span.start)?;
    push_not_toml(&mut report, error.message())?;
    Ok(report)
}
