//! Whether a service has what an author wrote.

ghost use Rattle.std.specs.Prelude.{◌≡◌, ◌<◌, ℕ, [], Ok, ◌↔◌, IsTrue, IfOk, option_map, slice_index_or};
ghost use Rattle.toml.specs.Data.{get_item};
ghost use Rattle.toml.specs.View.{table_view, items_view, view};
ghost use Rattle.ttx_author.specs.Options.{option_number};
ghost use Rattle.ttx_author.specs.Rows.{line_of};
ghost use Rattle.ttx_header.specs.Control.{option_of};
ghost use Rattle.ttx_page.specs.Views.{page_of};
ghost use Rattle.ttx_desk.specs.Said as rule;

use crate::pages::option_in;
use crate::rows::{lines_in, written_row};
use crate::tables::{array_at, table_at, text_at};
use crate::texts::characters;
use std::alloc::{AllocError, Global};
use toml::{Table, Value};
use ttx_author::{NationalOption, head_of, row_of};
use ttx_page::Page;
use ttx_source::Service;

// The value at an index.
fn value_at(values: &[Value], index: usize) -> Option<&Value>
    ensures { option_map (λ v. view v.now) result ≡ get_item index (items_view values.now) }
{
    values.get(index)
}

/// The author's page at an index.
pub fn author_page<'a>(author: &'a Table, index: usize) -> Option<&'a Table>
    ensures { option_map (λ t. table_view t.now) result ≡ rule.author_page (table_view author.now) index }
{
    let Some(pages) = array_at(author, "page") else {
        return None;
    };
    match value_at(pages.as_slice(), index) {
        Some(value) => value.as_table(),
        None => None,
    }
}

// The characters of the head of a page.
fn author_head(alloc: Global, page: &Table) -> Result<Vec<char>, AllocError>
    ensures { IfOk result (λ head. head.items ≡ rule.author_head (table_view page.now)) }
{
    match text_at(page, "head") {
        Some(text) => characters(alloc, text),
        None => Ok(Vec::new(alloc)),
    }
}

// Whether a text means these characters of row 0.
fn is_head(text: &[char], option: NationalOption, head: &[u8; 24]) -> bool
    ensures { IsTrue result ↔ (line_of 24 (option_number option) text.now ≡ Ok head.now) }
{
    match head_of(text, option) {
        Ok(codes) => codes == *head,
        Err(_) => false,
    }
}

// Whether a text means these characters of a row.
fn is_row(text: &[char], option: NationalOption, row: &[u8; 40]) -> bool
    ensures { IsTrue result ↔ (line_of 40 (option_number option) text.now ≡ Ok row.now) }
{
    match row_of(text, option) {
        Ok(codes) => codes == *row,
        Err(_) => false,
    }
}

/// The characters of `text` of a page.
pub fn page_lines(alloc: Global, rows: Option<&Table>) -> Result<Vec<char>, AllocError>
    ensures { IfOk result (λ lines. lines.items ≡ rule.page_lines (option_map (λ t. table_view t.now) rows.entry)) }
{
    match rows {
        Some(rows) => lines_in(alloc, rows),
        None => Ok(Vec::new(alloc)),
    }
}

/// The characters of a row, from the characters of `text` and the table of rows; index 0 is row 1.
pub fn row_in(
    alloc: Global,
    lines: &[char],
    rows: Option<&Table>,
    index: usize,
) -> Result<Vec<char>, AllocError>
    requires { index < 24 }
    ensures { IfOk result (λ row. row.items ≡ rule.row_in lines.now (option_map (λ t. table_view t.now) rows.entry) index) }
{
    let Some(rows) = rows else {
        return Ok(Vec::new(alloc));
    };
    match written_row(alloc, lines, rows, index)? {
        Some(row) => Ok(row.text),
        None => Ok(Vec::new(alloc)),
    }
}

// Whether these rows are what an author wrote.
fn are_rows(
    alloc: Global,
    author: &Table,
    option: NationalOption,
    rows: &[[u8; 40]; 24],
) -> Result<bool, AllocError>
    ensures { IfOk result (λ said. IsTrue said ↔ ((index : ℕ) → index < 24
        → line_of 40 (option_number option) (rule.author_row (table_view author.now) index) ≡ Ok (slice_index_or rows.now index []))) }
{
    let table = table_at(author, "rows");
    let lines = page_lines(alloc, table)?;
    for index in 0..24usize {
        let text = row_in(alloc, lines.as_slice(), table, index)?;
        if !is_row(text.as_slice(), option, &rows[index]) {
            return Ok(false);
        }
    }
    Ok(true)
}

// Whether a page of a service has an option.
fn has_option(page: &Page, option: NationalOption) -> bool
    ensures { IsTrue result ↔ (option_number option ≡ option_of (page_of page.now).control) }
{
    page.control().option() == option.number()
}

// Whether a page of a service is what an author wrote.
fn says_page(alloc: Global, author: &Table, page: &Page) -> Result<bool, AllocError>
    ensures { IfOk result (λ said. IsTrue said ↔ rule.SaysPage (table_view author.now) (page_of page.now)) }
{
    let Some(option) = option_in(author) else {
        return Ok(false);
    };
    if !has_option(page, option) {
        return Ok(false);
    }
    let head = author_head(alloc, author)?;
    if !is_head(head.as_slice(), option, page.head()) {
        return Ok(false);
    }
    are_rows(alloc, author, option, page.rows())
}

/// Whether each page of a service has what the author's page at its index has.
pub fn says_texts(alloc: Global, author: &Table, service: &Service) -> Result<bool, AllocError>
    ensures { IfOk result (λ said. IsTrue said ↔ rule.SaysTexts (table_view author.now) service.now) }
{
    let pages = service.pages();
    for index in 0..pages.len() {
        let Some(table) = author_page(author, index) else {
            return Ok(false);
        };
        if !says_page(alloc, table, &pages[index])? {
            return Ok(false);
        }
    }
    Ok(true)
}
