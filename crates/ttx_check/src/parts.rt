//! Which part of a page a fault concerns.

ghost use Rattle.std.specs.Prelude.{◌≡◌, codes, option_map};
ghost use Rattle.toml.specs.Data.{get_member};
ghost use Rattle.toml.specs.View.{table_view, items_view};
ghost use Rattle.ttx_source.specs.Faults.{fault_of};
ghost use Rattle.ttx_check.specs.PartViews.{part_view};
ghost use Rattle.ttx_check.specs.Parts as rule;

use crate::acceptance::{
    is_head_refused, is_number_refused, is_sub_refused, refused_link, refused_row, wrong_key,
};
use crate::unknown_keys::member;
use toml::{Table, Value};
use ttx_source::SourceFault;

/// A part of a page: the whole page, the value at a key, a row by its key, or a link, counted from 1.
#[derive(Clone, Copy)]
pub enum Part<'a> {
    Whole,
    Key(&'a str),
    Row(&'a str),
    Link(usize),
}

/// The text at a key; `None` if the value there is not a text.
pub fn text_at<'a>(table: &'a Table, key: &str) -> Option<&'a str>
    ensures { option_map (λ t. t.now) result ≡ rule.text_in (get_member key.now (table_view table.now)) }
{
    match member(table, key) {
        Some(value) => value.as_str(),
        None => None,
    }
}

/// The table at a key; `None` if the value there is not a table.
pub fn table_at<'a>(table: &'a Table, key: &str) -> Option<&'a Table>
    ensures { option_map (λ t. table_view t.now) result ≡ rule.table_in (get_member key.now (table_view table.now)) }
{
    match member(table, key) {
        Some(value) => value.as_table(),
        None => None,
    }
}

/// The values of the array at a key; empty if the value there is not an array.
pub fn values_at<'a>(table: &'a Table, key: &str) -> &'a [Value]
    ensures { items_view result.now ≡ rule.items_in (get_member key.now (table_view table.now)) }
{
    let Some(value) = member(table, key) else {
        return &[];
    };
    match value.as_array() {
        Some(values) => values.as_slice(),
        None => &[],
    }
}

// The first refused row.
fn rows_part<'a>(page: &'a Table) -> Part<'a>
    ensures { part_view result ≡ rule.rows_part (table_view page.now) }
{
    let Some(rows) = table_at(page, "rows") else {
        return Part::Key("rows");
    };
    match refused_row(rows) {
        Some(key) => Part::Row(key),
        None => Part::Key("rows"),
    }
}

// The first key of `rows` that is not a row number.
fn key_part<'a>(page: &'a Table) -> Part<'a>
    ensures { part_view result ≡ rule.row_or_rows (rule.wrong_in (rule.table_in (get_member (codes "rows") (table_view page.now)))) }
{
    let Some(rows) = table_at(page, "rows") else {
        return Part::Key("rows");
    };
    match wrong_key(rows) {
        Some(key) => Part::Row(key),
        None => Part::Key("rows"),
    }
}

// The first refused link.
fn links_part<'a>(page: &'a Table) -> Part<'a>
    ensures { part_view result ≡ rule.links_part (table_view page.now) }
{
    match refused_link(values_at(page, "links")) {
        Some(number) => Part::Link(number),
        None => Part::Key("links"),
    }
}

/// The refused text: `head`, or a row.
pub fn text_part<'a>(page: &'a Table) -> Part<'a>
    ensures { part_view result ≡ rule.text_part (table_view page.now) }
{
    if is_head_refused(page) {
        Part::Key("head")
    } else {
        rows_part(page)
    }
}

// The refused page number: `number`, or a link.
fn number_part<'a>(page: &'a Table) -> Part<'a>
    ensures { part_view result ≡ rule.number_part (table_view page.now) }
{
    if is_number_refused(page) {
        Part::Key("number")
    } else {
        links_part(page)
    }
}

// The refused subcode: `sub`, or a link.
fn sub_part<'a>(page: &'a Table) -> Part<'a>
    ensures { part_view result ≡ rule.sub_part (table_view page.now) }
{
    if is_sub_refused(page) {
        Part::Key("sub")
    } else {
        links_part(page)
    }
}

// The value of a wrong kind at a key. For `rows` and `links`: the value of a wrong kind in it.
fn kind_part<'a>(page: &'a Table, key: &'a str) -> Part<'a>
    ensures { part_view result ≡ rule.kind_part key.now (table_view page.now) }
{
    if key == "rows" {
        rows_part(page)
    } else if key == "links" {
        links_part(page)
    } else {
        Part::Key(key)
    }
}

// The value out of range at a key. For `rows`: the key out of range in it.
fn range_part<'a>(page: &'a Table, key: &'a str) -> Part<'a>
    ensures { part_view result ≡ rule.range_part key.now (table_view page.now) }
{
    if key == "rows" {
        key_part(page)
    } else {
        Part::Key(key)
    }
}

/// The part of a page that a fault concerns: the first refused value.
pub fn part_of<'a>(page: &'a Table, fault: SourceFault) -> Part<'a>
    ensures { part_view result ≡ rule.part_of (fault_of fault) (table_view page.now) }
{
    match fault {
        SourceFault::Kind { key } => kind_part(page, key),
        SourceFault::Range { key } => range_part(page, key),
        SourceFault::PageNumber => number_part(page),
        SourceFault::Subcode => sub_part(page),
        SourceFault::Duplicate => Part::Key("number"),
        SourceFault::RowTooLong | SourceFault::Character => text_part(page),
        SourceFault::Often => Part::Key("often"),
        SourceFault::Missing { .. } | SourceFault::NotToml | SourceFault::NoMemory => Part::Whole,
    }
}
