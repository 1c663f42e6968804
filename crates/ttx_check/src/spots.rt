//! Which value of a service text a fault concerns, and the detail in its line.

ghost use Rattle.std.specs.Prelude.{◌≡◌, ◌++◌, option_map, codes, IfOk, OnOk, Some, string_bytes};
ghost use Rattle.toml.specs.Data.{get_member, get_item};
ghost use Rattle.toml.specs.View.{table_view, items_view, view};
ghost use Rattle.ttx_source.specs.Faults.{fault_of};
ghost use Rattle.ttx_check.specs.PartViews.{part_view};
ghost use Rattle.ttx_check.specs.Parts.{part_path, part_name, text_in, table_in};
ghost use Rattle.ttx_check.specs.Spots as rule;
ghost use Rattle.ttx_check.specs.UnknownKeys.{is_one_of, service_keys};

use crate::acceptance::{char_count, is_number_refused, is_sub_refused};
use crate::parts::{Part, part_of, table_at, text_at, text_part, values_at};
use crate::texts::push_both;
use crate::unknown_keys::{is_one_of, service_names};
use std::alloc::{AllocError, Global};
use toml::{Table, Value};
use ttx_digits::push_decimal;
use ttx_places::{page_path, push_number, push_part};
use ttx_source::keys::accepted;
use ttx_source::{SourceError, SourceFault};

/// The value that a fault concerns: its path in the text, its name for people, and the detail in the line.
#[derive(Drop)]
pub struct Spot {
    pub path: String,
    pub name: String,
    pub detail: String,
}

/// The value at an index.
pub fn value_at(values: &[Value], index: usize) -> Option<&Value>
    ensures { option_map (λ v. view v.now) result ≡ get_item index (items_view values.now) }
{
    values.get(index)
}

/// The table of a page, counted from 1.
pub fn page_table<'a>(table: &'a Table, page: usize) -> Option<&'a Table>
    ensures { option_map (λ t. table_view t.now) result ≡ rule.page_table (table_view table.now) page }
{
    if page == 0 {
        return None;
    }
    match value_at(values_at(table, "page"), page - 1) {
        Some(value) => value.as_table(),
        None => None,
    }
}

// The key outside pages that a fault concerns.
fn service_key(fault: SourceFault) -> &'static str
    ensures { result.now ≡ rule.service_key (fault_of fault) }
{
    match fault {
        SourceFault::Missing { key } | SourceFault::Kind { key } | SourceFault::Range { key } =>
            key,
        SourceFault::PageNumber | SourceFault::Subcode => "initial",
        SourceFault::RowTooLong | SourceFault::Character => "text",
        SourceFault::Often | SourceFault::Duplicate => "page",
        SourceFault::NotToml | SourceFault::NoMemory => "",
    }
}

// Whether a key belongs to the table of the service, and not to `info`.
fn is_service_key(key: &str) -> bool
    ensures { result ≡ is_one_of service_keys key.now }
{
    is_one_of(service_names(), key)
}

/// The path of the table that a key outside pages belongs to.
pub fn key_table(key: &str) -> &'static str
    ensures { result.now ≡ rule.key_table key.now }
{
    if is_service_key(key) { "" } else { "/info" }
}

fn is_missing(fault: SourceFault) -> bool
    ensures { result ≡ rule.is_missing (fault_of fault) }
{
    matches!(fault, SourceFault::Missing { .. })
}

// Adds the path to a key outside pages, or to its table if the key is missing.
fn push_service_path(path: &mut String, fault: SourceFault) -> Result<(), AllocError>
    ensures { OnOk result (string_bytes path.new ≡ string_bytes path.old ++ rule.service_path (fault_of fault)) }
{
    let key = service_key(fault);
    path.push_str(key_table(key))?;
    if is_missing(fault) {
        Ok(())
    } else {
        push_part(path, key)
    }
}

/// Adds the name of a key outside pages.
pub fn push_service_name(name: &mut String, key: &str) -> Result<(), AllocError>
    ensures { OnOk result (string_bytes name.new ≡ string_bytes name.old ++ rule.service_name key.now) }
{
    if is_service_key(key) {
        name.push_str(key)
    } else {
        push_both(name, "info ", key)
    }
}

/// Adds the path to a part of a page, after that of the page.
pub fn push_part_path(path: &mut String, part: Part<'_>) -> Result<(), AllocError>
    ensures { OnOk result (string_bytes path.new ≡ part_path (string_bytes path.old) (part_view part.entry)) }
{
    match part {
        Part::Whole => Ok(()),
        Part::Key(key) => push_part(path, key),
        Part::Row(key) => {
            push_part(path, "rows")?;
            push_part(path, key)
        }
        Part::Link(number) => {
            push_part(path, "links")?;
            push_number(path, number)
        }
    }
}

/// Adds the name of a part of a page, after that of the page.
pub fn push_part_name(name: &mut String, part: Part<'_>) -> Result<(), AllocError>
    ensures { OnOk result (string_bytes name.new ≡ string_bytes name.old ++ part_name (part_view part.entry)) }
{
    match part {
        Part::Whole => Ok(()),
        Part::Key(key) => push_both(name, " ", key),
        Part::Row(key) => push_both(name, " row ", key),
        Part::Link(number) => {
            name.push_str(" link ")?;
            push_decimal(name, number)
        }
    }
}

/// The text at a key, or `other` if there is none.
pub fn text_or<'a>(table: &'a Table, key: &str, other: &'a str) -> &'a str
    ensures { result.now ≡ rule.text_or other.now (text_in (get_member key.now (table_view table.now))) }
{
    match text_at(table, key) {
        Some(text) => text,
        None => other,
    }
}

/// The text at a key of an inner table, or an empty one.
pub fn inner_text<'a>(table: &'a Table, inner: &str, key: &str) -> &'a str
    ensures { result.now ≡ rule.text_at key.now (table_in (get_member inner.now (table_view table.now))) }
{
    match table_at(table, inner) {
        Some(inner) => text_or(inner, key, ""),
        None => "",
    }
}

/// Adds the id of a page, or its number in the text if it has no id.
pub fn push_page_id(name: &mut String, page: &Table, order: usize) -> Result<(), AllocError>
    ensures { OnOk result (string_bytes name.new ≡ string_bytes name.old ++ rule.page_id (table_view page.now) order) }
{
    if is_number_refused(page) || is_sub_refused(page) {
        return push_decimal(name, order);
    }
    push_both(name, text_or(page, "number", ""), "/")?;
    name.push_str(text_or(page, "sub", "0000"))
}

// The path to a part of a page.
fn path_in_page(alloc: Global, page: &Table, error: &SourceError) -> Result<String, AllocError>
    ensures { IfOk result (λ path. string_bytes path
        ≡ rule.path_in (fault_of error.now.fault) error.now.page (Some (table_view page.now))) }
{
    let mut path = page_path(alloc, error.page)?;
    push_part_path(&mut path, part_of(page, error.fault))?;
    Ok(path)
}

// The path to a key outside pages.
fn service_path(alloc: Global, fault: SourceFault) -> Result<String, AllocError>
    ensures { IfOk result (λ path. string_bytes path ≡ rule.service_path (fault_of fault)) }
{
    let mut path = String::new(alloc);
    push_service_path(&mut path, fault)?;
    Ok(path)
}

// The path to the value that a fault concerns, in a page or outside pages.
fn path_in(alloc: Global, page: Option<&Table>, error: &SourceError) -> Result<String, AllocError>
    ensures { IfOk result (λ path. string_bytes path
        ≡ rule.path_in (fault_of error.now.fault) error.now.page (option_map (λ t. table_view t.now) page.entry)) }
{
    match page {
        None => service_path(alloc, error.fault),
        Some(page) => path_in_page(alloc, page, error),
    }
}

// The name of a part of a page.
fn page_name(alloc: Global, page: &Table, error: &SourceError) -> Result<String, AllocError>
    ensures { IfOk result (λ name. string_bytes name
        ≡ rule.name_in (fault_of error.now.fault) error.now.page (Some (table_view page.now))) }
{
    let mut name = String::from_str(alloc, "page ")?;
    push_page_id(&mut name, page, error.page)?;
    push_part_name(&mut name, part_of(page, error.fault))?;
    Ok(name)
}

// The name of a key outside pages.
fn service_name(alloc: Global, key: &str) -> Result<String, AllocError>
    ensures { IfOk result (λ name. string_bytes name ≡ rule.service_name key.now) }
{
    let mut name = String::new(alloc);
    push_service_name(&mut name, key)?;
    Ok(name)
}

// The name of the value that a fault concerns, in a page or outside pages.
fn name_in(alloc: Global, page: Option<&Table>, error: &SourceError) -> Result<String, AllocError>
    ensures { IfOk result (λ name. string_bytes name
        ≡ rule.name_in (fault_of error.now.fault) error.now.page (option_map (λ t. table_view t.now) page.entry)) }
{
    match page {
        None => service_name(alloc, service_key(error.fault)),
        Some(page) => page_name(alloc, page, error),
    }
}

// How many characters there are, and how many fit.
fn count_words(alloc: Global, count: usize, most: usize) -> Result<String, AllocError>
    ensures { IfOk result (λ detail. string_bytes detail ≡ rule.count_words most count) }
{
    let mut detail = String::from_str(alloc, ": ")?;
    push_decimal(&mut detail, count)?;
    detail.push_str(" characters, ")?;
    push_decimal(&mut detail, most)?;
    detail.push_str(" fit")?;
    Ok(detail)
}

/// How many characters a text has, and how many fit.
pub fn count_text(alloc: Global, text: &str, most: usize) -> Result<String, AllocError>
    ensures { IfOk result (λ detail. string_bytes detail ≡ rule.count_text most text.now) }
{
    count_words(alloc, char_count(text), most)
}

/// The same for a text of a page that is too long.
pub fn part_count(alloc: Global, page: &Table, part: Part<'_>) -> Result<String, AllocError>
    ensures { IfOk result (λ detail. string_bytes detail ≡ rule.part_count (table_view page.now) (part_view part.entry)) }
{
    match part {
        Part::Row(key) => count_text(alloc, inner_text(page, "rows", key), 40),
        _ => count_text(alloc, text_or(page, "head", ""), 24),
    }
}

// The same for the text that is too long, in a page or in `info`.
fn long_text(alloc: Global, table: &Table, page: Option<&Table>) -> Result<String, AllocError>
    ensures { IfOk result (λ detail. string_bytes detail
        ≡ rule.long_text (table_view table.now) (option_map (λ t. table_view t.now) page.entry)) }
{
    match page {
        None => count_text(alloc, inner_text(table, "info", "text"), 20),
        Some(page) => part_count(alloc, page, text_part(page)),
    }
}

/// A colon, a space, and the words.
pub fn after_colon(alloc: Global, words: &str) -> Result<String, AllocError>
    ensures { IfOk result (λ detail. string_bytes detail ≡ codes ": " ++ words.now) }
{
    let mut detail = String::from_str(alloc, ": ")?;
    detail.push_str(words)?;
    Ok(detail)
}

// What the key of this name takes.
fn taken_text(alloc: Global, key: &str) -> Result<String, AllocError>
    ensures { IfOk result (λ detail. string_bytes detail ≡ rule.taken_text key.now) }
{
    let mut detail = String::from_str(alloc, ": it takes ")?;
    detail.push_str(accepted(key))?;
    Ok(detail)
}

// The detail about the value that a fault concerns.
fn detail_in(
    alloc: Global,
    table: &Table,
    page: Option<&Table>,
    fault: SourceFault,
) -> Result<String, AllocError>
    ensures { IfOk result (λ detail. string_bytes detail ≡ rule.detail_in (fault_of fault) (table_view table.now)
        (option_map (λ t. table_view t.now) page.entry)) }
{
    match fault {
        SourceFault::RowTooLong => long_text(alloc, table, page),
        SourceFault::Missing { key } | SourceFault::Kind { key } | SourceFault::Range { key } =>
            taken_text(alloc, key),
        _ => Ok(String::new(alloc)),
    }
}

/// The value that a fault concerns, in a text with this table.
pub fn spot_of(alloc: Global, table: &Table, error: &SourceError) -> Result<Spot, AllocError>
    ensures path { IfOk result (λ spot. string_bytes spot.path ≡ rule.spot_path (table_view table.now) (fault_of error.now.fault) error.now.page) }
    ensures name { IfOk result (λ spot. string_bytes spot.name ≡ rule.spot_name (table_view table.now) (fault_of error.now.fault) error.now.page) }
    ensures detail { IfOk result (λ spot. rule.IsDetail (table_view table.now) (fault_of error.now.fault) error.now.page (string_bytes spot.detail)) }
{
    let page = page_table(table, error.page);
    Ok(Spot {
        path: path_in(alloc, page, error)?,
        name: name_in(alloc, page, error)?,
        detail: detail_in(alloc, table, page, error.fault)?,
    })
}
