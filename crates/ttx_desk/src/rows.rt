//! The rows of a page.

ghost use Rattle.std.specs.Prelude.{◌≡◌, ◌<◌, ◌≤◌, ◌++◌, [], Some, None, codes, option_map, IfOk, OnOk, slice_index_or, map, length, is_some, flat_map};
ghost use Rattle.toml.specs.Data.{get_member, as_str};
ghost use Rattle.toml.specs.View.{table_view, view};
ghost use Rattle.ttx_author.specs.Options.{option_number};
ghost use Rattle.ttx_source.specs.Keys.{row_keys};
ghost use Rattle.ttx_desk.specs.Rows as rule;

use crate::lines::{is_blank, line, rest_after};
use crate::mistakes::{Fault, Mistake, Part};
use crate::tables::{copy_of, member, take_out, text_at};
use crate::texts::{Written, characters, put_text};
use std::alloc::{AllocError, Global};
use toml::{Table, Value};
use ttx_author::NationalOption;

static ROW_KEYS: [&str; 24] = [
    "1", "2", "3", "4", "5", "6", "7", "8", "9", "10", "11", "12", "13", "14", "15", "16", "17",
    "18", "19", "20", "21", "22", "23", "24",
];

fn nth_key<'a>(keys: &[&'a str], index: usize) -> &'a str
    requires { index < length keys.now }
    ensures { result.now ≡ slice_index_or (map (λ key. key.now) keys.now) index [] }
{
    keys[index]
}

/// The key of a row; index 0 is row 1.
#[tactic(auto, unfolding(ttx_source::specs::Keys::row_keys))]
pub fn row_key(index: usize) -> &'static str
    requires { index < 24 }
    ensures { result.now ≡ rule.row_key index }
{
    nth_key(ROW_KEYS.as_slice(), index)
}

/// The characters of `text`; none if there is no text.
pub fn lines_in(alloc: Global, rows: &Table) -> Result<Vec<char>, AllocError>
    ensures { IfOk result (λ lines. lines.items ≡ rule.lines_in (table_view rows.now)) }
{
    match text_at(rows, "text") {
        Some(text) => characters(alloc, text),
        None => Ok(Vec::new(alloc)),
    }
}

/// A part of a page and its text.
#[derive(Drop)]
pub struct Row {
    pub part: Part,
    pub text: Vec<char>,
}

// A row that is a line of `text`.
fn by_line(alloc: Global, index: usize, text: &[char]) -> Result<Option<Row>, AllocError>
    requires { index < 24 }
    ensures { IfOk result (λ row. option_map (λ r. (r.part, r.text.items)) row ≡ rule.by_line index text.now) }
{
    if text.is_empty() {
        return Ok(None);
    }
    Ok(Some(Row {
        part: Part::Line { number: index + 1 },
        text: Vec::from_slice(alloc, text)?,
    }))
}

// A row by its number.
fn by_number(alloc: Global, index: usize, value: &Value) -> Result<Option<Row>, AllocError>
    requires { index < 24 }
    ensures { IfOk result (λ row. option_map (λ r. (r.part, r.text.items)) row ≡ rule.by_number index (as_str (view value.now))) }
{
    let Some(text) = value.as_str() else {
        return Ok(None);
    };
    Ok(Some(Row {
        part: Part::Row { number: index + 1 },
        text: characters(alloc, text)?,
    }))
}

/// The text of a row, from the table of rows and the characters of its `text`.
#[tactic(auto, unfolding(crate::specs::Rows::written_row))]
pub fn written_row(
    alloc: Global,
    lines: &[char],
    rows: &Table,
    index: usize,
) -> Result<Option<Row>, AllocError>
    requires { index < 24 }
    ensures { IfOk result (λ row. option_map (λ r. (r.part, r.text.items)) row ≡ rule.written_row lines.now (table_view rows.now) index) }
{
    match member(rows, row_key(index)) {
        Some(value) => by_number(alloc, index, value),
        None => by_line(alloc, index, line(lines, index)),
    }
}

/// The rows of a page as an author writes them.
#[derive(Clone, Copy)]
pub struct PageRows<'a> {
    /// The page, counted from 1.
    pub page: usize,
    pub option: NationalOption,
    /// The characters of `text`.
    pub lines: &'a [char],
    pub table: &'a Table,
}

// Puts the codes of a row into a table, or notes its first mark that has no code.
fn put_row(
    alloc: Global,
    out: &mut Table,
    rows: &PageRows<'_>,
    index: usize,
    mistakes: &mut Vec<Mistake>,
) -> Result<(), AllocError>
    requires { index < 24 }
    ensures table { OnOk result (table_view out.new ≡ rule.row_put (option_number rows.now.option) index
        (rule.written_row rows.now.lines.now (table_view rows.now.table.now) index) (table_view out.old)) }
    ensures mistakes { OnOk result (mistakes.new.items ≡ mistakes.old.items ++ rule.part_mistakes rows.now.page (option_number rows.now.option)
        (rule.written_row rows.now.lines.now (table_view rows.now.table.now) index)) }
{
    let Some(row) = written_row(alloc, rows.lines, rows.table, index)? else {
        return Ok(());
    };
    let written = Written {
        key: row_key(index),
        text: row.text.as_slice(),
        width: 40,
        option: rows.option,
        page: rows.page,
        part: row.part,
    };
    put_text(alloc, out, &written, mistakes)
}

// Whether a row is given both by its number and in `text`.
fn is_twice(rows: &PageRows<'_>, index: usize) -> bool
    requires { index < 24 }
    ensures { result ≡ rule.is_twice rows.now.lines.now (table_view rows.now.table.now) index }
{
    member(rows.table, row_key(index)).is_some() && !is_blank(line(rows.lines, index))
}

// Notes a row that is given both by its number and in `text`.
fn note_twice(
    rows: &PageRows<'_>,
    index: usize,
    mistakes: &mut Vec<Mistake>,
) -> Result<(), AllocError>
    requires { index < 24 }
    ensures { OnOk result (mistakes.new.items ≡ mistakes.old.items ++ rule.twice_mistakes rows.now.page index
        (rule.is_twice rows.now.lines.now (table_view rows.now.table.now) index)) }
{
    if is_twice(rows, index) {
        mistakes.push(Mistake {
            page: rows.page,
            part: Part::Row { number: index + 1 },
            place: 0,
            fault: Fault::Twice,
        })?;
    }
    Ok(())
}

fn is_white(c: char) -> bool
    ensures { result ≡ rule.is_white c }
{
    c == ' ' || c == '\n' || c == '\r'
}

fn all_white(text: &[char]) -> bool
    ensures { result ≡ rule.all_white text.now }
{
    text.iter().all(|c| is_white(*c))
}

// Whether there is something after line 24.
fn is_long(lines: &[char]) -> bool
    ensures { result ≡ rule.is_long lines.now }
{
    !all_white(rest_after(lines, 24))
}

// Notes that there is something after line 24.
fn note_long(rows: &PageRows<'_>, mistakes: &mut Vec<Mistake>) -> Result<(), AllocError>
    ensures { OnOk result (mistakes.new.items ≡ mistakes.old.items ++ rule.long_mistakes rows.now.page (rule.is_long rows.now.lines.now)) }
{
    if is_long(rows.lines) {
        mistakes.push(Mistake {
            page: rows.page,
            part: Part::Line { number: 25 },
            place: 0,
            fault: Fault::Lines,
        })?;
    }
    Ok(())
}

// Puts the codes of a row into a table, and notes its mistakes.
fn put_next(
    alloc: Global,
    out: &mut Table,
    rows: &PageRows<'_>,
    index: usize,
    mistakes: &mut Vec<Mistake>,
) -> Result<(), AllocError>
    requires { index < 24 }
    ensures table { OnOk result (table_view out.new ≡ rule.row_put (option_number rows.now.option) index
        (rule.written_row rows.now.lines.now (table_view rows.now.table.now) index) (table_view out.old)) }
    ensures mistakes { OnOk result (mistakes.new.items ≡ mistakes.old.items ++ rule.row_mistakes rows.now.page (option_number rows.now.option)
        rows.now.lines.now (table_view rows.now.table.now) index) }
{
    note_twice(rows, index, mistakes)?;
    put_row(alloc, out, rows, index, mistakes)
}

// Puts the codes of all rows into a table, and notes their mistakes.
fn put_each(
    alloc: Global,
    out: &mut Table,
    rows: &PageRows<'_>,
    mistakes: &mut Vec<Mistake>,
) -> Result<(), AllocError>
    ensures table { OnOk result (table_view out.new ≡ rule.put_rows (option_number rows.now.option) rows.now.lines.now (table_view rows.now.table.now)
        (rule.indices_from 0) (table_view out.old)) }
    ensures mistakes { OnOk result (mistakes.new.items ≡ mistakes.old.items ++ flat_map
        (rule.row_mistakes rows.now.page (option_number rows.now.option) rows.now.lines.now (table_view rows.now.table.now)) (rule.indices_from 0)) }
{
    for index in 0..24usize {
        put_next(alloc, out, rows, index, mistakes)?;
    }
    Ok(())
}

/// The table of rows by number, made of a copy of the author's table; their mistakes are noted.
#[tactic(auto, unfolding(crate::specs::Rows::rows_table, crate::specs::Rows::rows_mistakes))]
pub fn rows_table(
    alloc: Global,
    page: usize,
    option: NationalOption,
    table: &Table,
    mistakes: &mut Vec<Mistake>,
) -> Result<Table, AllocError>
    ensures table { IfOk result (λ out. table_view out ≡ rule.rows_table (option_number option) (table_view table.now)) }
    ensures mistakes { OnOk result (mistakes.new.items ≡ mistakes.old.items
        ++ rule.rows_mistakes page (option_number option) (rule.lines_in (table_view table.now)) (table_view table.now)) }
{
    let lines = lines_in(alloc, table)?;
    let rows = PageRows {
        page,
        option,
        lines: lines.as_slice(),
        table,
    };
    let mut out = copy_of(table)?;
    take_out(&mut out, "text");
    put_each(alloc, &mut out, &rows, mistakes)?;
    note_long(&rows, mistakes)?;
    Ok(out)
}
