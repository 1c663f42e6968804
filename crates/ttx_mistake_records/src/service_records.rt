//! The objects of the text of a service.

ghost use Rattle.std.specs.Prelude.{◌≡◌, ◌++◌, IfOk, OnOk, string_bytes};
ghost use Rattle.toml.specs.View.{table_view};
ghost use Rattle.ttx_mistake_records.specs.Records as rule;
ghost use Rattle.ttx_mistake_records.specs.ServiceRecords as service;

use crate::records::{Paper, Said, push_again, push_counts, push_said, record_of};
use std::alloc::{AllocError, Global};
use toml::Table;
use ttx_check::Checked;
use ttx_mistakes::{pages_in, placed_notes, toml_mistake};
use ttx_source::read_document;

// The objects of a text with this table.
fn table_record(
    alloc: Global,
    file: &str,
    text: &str,
    strict: bool,
    table: &Table,
) -> Result<Checked, AllocError>
    ensures { IfOk result (λ r. service.IsTableRecord file.now text.now strict (table_view table.now) (string_bytes r.text) r.status) }
{
    let found = placed_notes(alloc, text, table)?;
    let paper = Paper {
        file,
        bytes: text.as_bytes(),
    };
    record_of(alloc, paper, strict, pages_in(table), &found)
}

// Adds the object of an error, with the place where a key is first given, if there is one.
fn push_error(
    alloc: Global,
    text: &mut String,
    paper: Paper<'_>,
    said: Said<'_>,
    first: Option<usize>,
) -> Result<(), AllocError>
    ensures { OnOk result (string_bytes text.new ≡ string_bytes text.old
        ++ rule.line (rule.place_members paper.entry.file.now paper.entry.bytes.now said.entry.place said.entry.error said.entry.words.now
        ++ rule.note_members paper.entry.bytes.now first)) }
{
    match first {
        None => push_said(alloc, text, paper, said),
        Some(place) => push_again(alloc, text, paper, said, place),
    }
}

// The objects of an error and of the counts.
fn error_records(
    alloc: Global,
    paper: Paper<'_>,
    said: Said<'_>,
    first: Option<usize>,
) -> Result<String, AllocError>
    ensures { IfOk result (λ text. string_bytes text
        ≡ rule.line (rule.place_members paper.entry.file.now paper.entry.bytes.now said.entry.place said.entry.error said.entry.words.now
        ++ rule.note_members paper.entry.bytes.now first) ++ rule.line service.one_error) }
{
    let mut text = String::new(alloc);
    push_error(alloc, &mut text, paper, said, first)?;
    push_counts(alloc, &mut text, 1, 0)?;
    Ok(text)
}

// The objects of a text that is not a TOML document, and the status.
fn toml_record(alloc: Global, file: &str, bytes: &[u8]) -> Result<Checked, AllocError>
    ensures { IfOk result (λ r. service.IsTomlRecord file.now bytes.now (string_bytes r.text) × (r.status ≡ 2)) }
{
    let mistake = toml_mistake(alloc, bytes)?;
    let said = Said {
        place: mistake.place,
        error: true,
        words: mistake.words.as_str(),
    };
    let text = error_records(alloc, Paper { file, bytes }, said, mistake.first)?;
    Ok(Checked { text, status: 2 })
}

/// The objects of the text of a service, and the status. With `strict` a warning makes it 1. `Err` if memory runs out.
pub fn service_record(
    alloc: Global,
    file: &str,
    bytes: &[u8],
    strict: bool,
) -> Result<Checked, AllocError>
    ensures { IfOk result (λ r. service.IsServiceRecord file.now bytes.now strict (string_bytes r.text) r.status) }
{
    match read_document(alloc, bytes)? {
        Some(document) => table_record(alloc, file, document.text, strict, &document.table),
        None => toml_record(alloc, file, bytes),
    }
}
