//! The author's text of the table of a service.

ghost use Rattle.std.specs.Prelude.{◌≡◌, ◌++◌, IfOk, string_bytes};
ghost use Rattle.ttx_desk.specs.Composing.{BeginsWith};
ghost use Rattle.ttx_desk.specs.Decomposing as rule;

use crate::composition::printed_name;
use crate::rows::row_key;
use crate::service_text::push_service;
use crate::tables::{array_at, copy_of, member, put, table_at, take_out, text_at};
use crate::words::option_name;
use std::alloc::{AllocError, Global};
use toml::{Table, Value};
use ttx_author::{NationalOption, text_of};

// The number of spaces at the end.
fn spaces_behind(codes: &[u8]) -> usize {
    let mut spaces = 0usize;
    for code in codes {
        spaces = if *code == b' ' {
            spaces.saturating_add(1)
        } else {
            0
        };
    }
    spaces
}

// The first 40 codes, filled with spaces.
fn row_of(codes: &[u8]) -> [u8; 40] {
    let mut row = [b' '; 40];
    for (index, code) in codes.iter().enumerate() {
        if index < 40 {
            row[index] = *code;
        }
    }
    row
}

// What an author writes for codes, with the spaces at the end.
fn written(alloc: Global, codes: &[u8], option: NationalOption) -> Result<String, AllocError> {
    let mut text = String::new(alloc);
    for c in text_of(alloc, &row_of(codes), option)?.as_slice() {
        text.push(*c)?;
    }
    for _space in 0..spaces_behind(codes) {
        text.push(' ')?;
    }
    Ok(text)
}

// Writes the text at a key of a table as an author does.
fn write_text(
    alloc: Global,
    out: &mut Table,
    table: &Table,
    key: &str,
    option: NationalOption,
) -> Result<(), AllocError> {
    match text_at(table, key) {
        Some(text) => put(
            alloc,
            out,
            key,
            Value::String(written(alloc, text.as_bytes(), option)?),
        ),
        None => Ok(()),
    }
}

// The national option of a page of a service.
fn option_of(page: &Table) -> NationalOption {
    let number = match member(page, "option") {
        Some(value) => value.as_integer(),
        None => None,
    };
    match number {
        Some(number) if 0 <= number && number < 8 => match NationalOption::numbered(
            number as usize,
        ) {
            Some(option) => option,
            None => NationalOption::English,
        },
        _ => NationalOption::English,
    }
}

// Writes the national option by its name, if it has one.
fn write_option(alloc: Global, out: &mut Table, page: &Table) -> Result<(), AllocError> {
    let number = usize::from(option_of(page).number());
    if number < 7 && member(page, "option").is_some() {
        put(
            alloc,
            out,
            "option",
            Value::String(String::from_str(alloc, option_name(number))?),
        )?;
    }
    Ok(())
}

// The table of a page as an author writes it.
fn page_of(alloc: Global, page: &Table) -> Result<Table, AllocError> {
    let option = option_of(page);
    let mut out = copy_of(page)?;
    write_option(alloc, &mut out, page)?;
    write_text(alloc, &mut out, page, "head", option)?;
    if let Some(rows) = table_at(page, "rows") {
        let mut written = copy_of(rows)?;
        for index in 0..24usize {
            write_text(alloc, &mut written, rows, row_key(index), option)?;
        }
        put(alloc, &mut out, "rows", Value::Table(written))?;
    }
    Ok(out)
}

// The pages of a service as an author writes them.
fn pages_of(alloc: Global, pages: &[Value]) -> Result<Vec<Value>, AllocError> {
    let mut out = Vec::new(alloc);
    for value in pages {
        let page = match value.as_table() {
            Some(page) => Value::Table(page_of(alloc, page)?),
            None => value.clone()?,
        };
        out.push(page)?;
    }
    Ok(out)
}

/// The table of a service in the author's form, without the key `author`.
pub(crate) fn author_of(alloc: Global, service: &Table) -> Result<Table, AllocError> {
    let mut out = copy_of(service)?;
    take_out(&mut out, "author");
    if let Some(info) = table_at(service, "info") {
        let mut written = copy_of(info)?;
        write_text(alloc, &mut written, info, "text", NationalOption::English)?;
        put(alloc, &mut out, "info", Value::Table(written))?;
    }
    if let Some(pages) = array_at(service, "page") {
        put(
            alloc,
            &mut out,
            "page",
            Value::Array(pages_of(alloc, pages.as_slice())?),
        )?;
    }
    Ok(out)
}

// The first lines of an author's text: a comment that names the service text, and the key that marks an author's text.
#[tactic(auto, unfolding(crate::specs::Decomposing::first_lines))]
fn first_lines(alloc: Global, source: &str) -> Result<String, AllocError>
    ensures { IfOk result (λ text. string_bytes text ≡ rule.first_lines source.now) }
{
    let mut text = String::new(alloc);
    text.push_str("# Decomposed from ")?;
    text.push_str(printed_name(source))?;
    text.push_str(" by ttx decompose.\nauthor = 1\n")?;
    Ok(text)
}

/// An author's text: its first lines, then a table as text.
pub(crate) fn with_first_lines(
    alloc: Global,
    source: &str,
    table: &str,
) -> Result<String, AllocError>
    ensures { IfOk result (λ text. string_bytes text ≡ rule.first_lines source.now ++ table.now) }
{
    let mut text = first_lines(alloc, source)?;
    text.push_str(table)?;
    Ok(text)
}

/// The author's text of a table in the author's form.
pub(crate) fn author_text(alloc: Global, author: &Table, source: &str) -> Result<String, AllocError>
    ensures { IfOk result (λ text. BeginsWith (rule.first_lines source.now) (string_bytes text)) }
{
    let mut table = String::new(alloc);
    push_service(alloc, &mut table, author, &[])?;
    with_first_lines(alloc, source, table.as_str())
}
