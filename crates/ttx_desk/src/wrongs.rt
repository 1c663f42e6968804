//! The part of an author's text in which a mistake is.

ghost use Rattle.std.specs.Prelude.{◌≡◌, ◌≤◌, codes, option_map, option_and_then, IfOk};
ghost use Rattle.toml.specs.View.{table_view};
ghost use Rattle.ttx_author.specs.Options.{option_number};
ghost use Rattle.ttx_desk.specs.Tables.{table_at};
ghost use Rattle.ttx_desk.specs.Words as rule;

use crate::mistakes::{Mistake, Part};
use crate::pages::option_in;
use crate::said::{author_page, page_lines, row_in};
use crate::tables::{table_at, text_at};
use crate::texts::characters;
use std::alloc::{AllocError, Global};
use toml::Table;
use ttx_author::NationalOption;

/// The characters of a part, the cells that it has, and the national option of its page.
#[derive(Drop)]
pub(crate) struct Wrong {
    pub text: Vec<char>,
    pub width: usize,
    pub option: NationalOption,
    ghost narrow: { width ≤ 40 },
}

// The characters at a key.
fn text_in(alloc: Global, table: Option<&Table>, key: &str) -> Result<Vec<char>, AllocError>
    ensures { IfOk result (λ text. text.items ≡ rule.text_in key.now (option_map (λ t. table_view t.now) table.entry)) }
{
    let Some(table) = table else {
        return Ok(Vec::new(alloc));
    };
    match text_at(table, key) {
        Some(text) => characters(alloc, text),
        None => Ok(Vec::new(alloc)),
    }
}

// The characters of a row, from the table of rows.
fn row_of(alloc: Global, rows: Option<&Table>, number: usize) -> Result<Vec<char>, AllocError>
    ensures { IfOk result (λ text. text.items ≡ rule.row_of (option_map (λ t. table_view t.now) rows.entry) number) }
{
    if number == 0 || number > 24 {
        return Ok(Vec::new(alloc));
    }
    let lines = page_lines(alloc, rows)?;
    row_in(alloc, lines.as_slice(), rows, number - 1)
}

// The table of rows of a page.
fn rows_of<'a>(page: Option<&'a Table>) -> Option<&'a Table>
    ensures { option_map (λ t. table_view t.now) result ≡ option_and_then (table_at (codes "rows")) (option_map (λ t. table_view t.now) page.entry) }
{
    match page {
        Some(page) => table_at(page, "rows"),
        None => None,
    }
}

// The characters of a part, from the page that it is in.
fn text_of(
    alloc: Global,
    author: &Table,
    page: Option<&Table>,
    part: Part,
) -> Result<Vec<char>, AllocError>
    ensures { IfOk result (λ text. text.items
        ≡ rule.text_of (table_view author.now) (option_map (λ t. table_view t.now) page.entry) part) }
{
    match part {
        Part::Option => text_in(alloc, page, "option"),
        Part::Head => text_in(alloc, page, "head"),
        Part::Status => text_in(alloc, table_at(author, "info"), "text"),
        Part::Row { number } | Part::Line { number } => row_of(alloc, rows_of(page), number),
    }
}

// The page with a number, from 1.
fn page_at<'a>(author: &'a Table, number: usize) -> Option<&'a Table>
    ensures { option_map (λ t. table_view t.now) result ≡ rule.page_at (table_view author.now) number }
{
    if number == 0 {
        None
    } else {
        author_page(author, number - 1)
    }
}

// The national option of a page.
fn option_at(page: Option<&Table>) -> NationalOption
    ensures { option_number result ≡ rule.option_at (option_map (λ t. table_view t.now) page.entry) }
{
    let Some(page) = page else {
        return NationalOption::English;
    };
    match option_in(page) {
        Some(option) => option,
        None => NationalOption::English,
    }
}

fn part_width(part: Part) -> usize
    ensures value { result ≡ rule.part_width part }
    ensures narrow { result ≤ 40 }
{
    match part {
        Part::Head => 24,
        Part::Status => 20,
        _ => 40,
    }
}

/// The part in which a mistake is.
pub(crate) fn wrong_part(
    alloc: Global,
    author: &Table,
    mistake: &Mistake,
) -> Result<Wrong, AllocError>
    ensures text { IfOk result (λ wrong. wrong.text.items ≡ rule.part_text (table_view author.now) mistake.now) }
    ensures width { IfOk result (λ wrong. wrong.width ≡ rule.part_width mistake.now.part) }
    ensures option { IfOk result (λ wrong. option_number wrong.option ≡ rule.part_option (table_view author.now) mistake.now) }
{
    let page = page_at(author, mistake.page);
    let text = text_of(alloc, author, page, mistake.part)?;
    Ok(Wrong {
        text,
        width: part_width(mistake.part),
        option: option_at(page),
    })
}
