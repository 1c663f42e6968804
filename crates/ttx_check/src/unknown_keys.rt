//! Unknown keys in a service text.

ghost use Rattle.std.specs.Prelude.{◌≡◌, ◌++◌, ◌≤◌, length, map, find, nat_lt, if◌then◌else◌, option_map, option_copied, IfOk, OnOk, None, codes};
ghost use Rattle.std.specs.Prelude.{string_bytes};
ghost use Rattle.std.specs.List.{list_any};
ghost use Rattle.std.specs.Str.{bytes_eq};
ghost use Rattle.toml.specs.Data.{as_table, get_member};
ghost use Rattle.toml.specs.View.{table_view, view, items_view};
ghost use Rattle.ttx_page.specs.Views.{page_of};
ghost use Rattle.ttx_check.specs.UnknownKeys as rule;
ghost use Rattle.ttx_check.specs.WarningLines.{page_text};

use crate::acceptance::is_row_key;
use crate::texts::push_both;
use crate::warning_lines::push_place;
use std::alloc::{AllocError, Global};
use strsim::levenshtein;
use toml::{Table, Value};
use ttx_page::Page;

// The known keys.
static SERVICE_KEYS: [&str; 4] = ["lines", "serial", "info", "page"];

static INFO_KEYS: [&str; 7] = [
    "designation",
    "initial",
    "network",
    "halves",
    "mjd",
    "utc",
    "text",
];

static PAGE_KEYS: [&str; 17] = [
    "number",
    "sub",
    "often",
    "within",
    "stays",
    "option",
    "newsflash",
    "subtitle",
    "suppress",
    "update",
    "interrupted",
    "inhibit",
    "head",
    "rows",
    "links",
    "row24",
    "crc",
];

fn is_any(names: &[&str], key: &str) -> bool
    ensures { result ≡ list_any (λ name. bytes_eq name.now key.now) names.now }
{
    names.iter().any(|name| *name == key)
}

/// Whether a key is among these names.
pub fn is_one_of(names: &[&str], key: &str) -> bool
    ensures { result ≡ rule.is_one_of (map (λ n. n.now) names.now) key.now }
{
    is_any(names, key)
}

// Whether a key is at most `most` edits away from a name.
fn is_near_name(alloc: Global, most: usize, key: &str, name: &str) -> Result<bool, AllocError>
    ensures { IfOk result (λ b. b ≡ rule.is_near_name most key.now name.now) }
{
    Ok(levenshtein(alloc, key, name)? <= most)
}

// The first name that is near a key.
fn first_near<'a>(
    alloc: Global,
    most: usize,
    key: &str,
    names: &[&'a str],
) -> Result<Option<&'a str>, AllocError>
    ensures { IfOk result (λ name. option_map (λ n. n.now) name ≡ find (rule.is_near_name most key.now) (map (λ n. n.now) names.now)) }
{
    for name in names {
        if is_near_name(alloc, most, key, *name)? {
            return Ok(Some(*name));
        }
    }
    Ok(None)
}

// The name that was probably meant by a key.
#[tactic(auto, unfolding(crate::specs::UnknownKeys::meant))]
fn meant<'a>(alloc: Global, key: &str, names: &[&'a str]) -> Result<Option<&'a str>, AllocError>
    ensures { IfOk result (λ name. option_map (λ n. n.now) name ≡ rule.meant (map (λ n. n.now) names.now) key.now) }
{
    if key.len() > 16 {
        return Ok(None);
    }
    match first_near(alloc, 1, key, names)? {
        Some(name) => Ok(Some(name)),
        None if key.len() < 5 => Ok(None),
        None => first_near(alloc, 2, key, names),
    }
}

// A byte of a key, as it is printed.
fn visible_code(code: u8) -> char
    ensures { result ≡ rule.visible_code code }
{
    if 33 <= code && code <= 126 {
        char::from(code)
    } else {
        '?'
    }
}

// Adds a key, as it is printed.
fn push_shown(text: &mut String, key: &str) -> Result<(), AllocError>
    ensures { OnOk result (string_bytes text.new ≡ string_bytes text.old ++ map rule.visible_code key.now) }
{
    for code in key.as_bytes() {
        text.push(visible_code(*code))?;
    }
    Ok(())
}

// Adds the name that was probably meant.
fn push_meant(alloc: Global, text: &mut String, names: &[&str], key: &str) -> Result<(), AllocError>
    ensures { OnOk result (string_bytes text.new ≡ string_bytes text.old ++ rule.meant_text (rule.meant (map (λ n. n.now) names.now) key.now)) }
{
    match meant(alloc, key, names)? {
        None => Ok(()),
        Some(name) => {
            push_both(text, ": is it ", name)?;
            text.push('?')
        }
    }
}

/// Where a key stands that another table has; empty if none has it.
#[tactic(auto, unfolding(crate::specs::UnknownKeys::home_of))]
pub fn home_of(key: &str) -> &'static str
    ensures { result.now ≡ rule.home_of key.now }
{
    if is_one_of(page_names(), key) {
        return ": it stands in [[page]], above [page.rows]";
    }
    if is_one_of(service_names(), key) {
        return ": it stands above [info] and [[page]]";
    }
    if is_row_key(key) {
        return ": it stands in [page.rows]";
    }
    if is_one_of(info_names(), key) {
        ": it stands in [info]"
    } else {
        ""
    }
}

// Adds where a key stands, or the name that was probably meant.
fn push_hint(alloc: Global, text: &mut String, names: &[&str], key: &str) -> Result<(), AllocError>
    ensures { OnOk result (string_bytes text.new ≡ string_bytes text.old ++ rule.hint (map (λ n. n.now) names.now) key.now) }
{
    let home = home_of(key);
    if home.is_empty() {
        push_meant(alloc, text, names, key)
    } else {
        text.push_str(home)
    }
}

/// Adds the words about a key that is not one of these names.
#[tactic(auto, unfolding(crate::specs::UnknownKeys::key_words))]
pub fn push_key_words(
    alloc: Global,
    text: &mut String,
    names: &[&str],
    key: &str,
) -> Result<(), AllocError>
    ensures { OnOk result (string_bytes text.new ≡ string_bytes text.old ++ rule.key_words (map (λ n. n.now) names.now) key.now) }
{
    text.push_str(": no key ")?;
    push_shown(text, key)?;
    push_hint(alloc, text, names, key)
}

// Adds the line about a key.
#[tactic(auto, unfolding(crate::specs::UnknownKeys::key_line))]
fn push_key_line(
    alloc: Global,
    text: &mut String,
    place: &str,
    names: &[&str],
    key: &str,
) -> Result<(), AllocError>
    ensures { OnOk result (string_bytes text.new ≡ string_bytes text.old ++ rule.key_line place.now (map (λ n. n.now) names.now) key.now) }
{
    push_both(text, "warning ", place)?;
    push_key_words(alloc, text, names, key)?;
    text.push('\n')
}

// Adds the line about a key, if the key is unknown.
#[tactic(auto, unfolding(crate::specs::UnknownKeys::key_text))]
fn push_key(
    alloc: Global,
    text: &mut String,
    place: &str,
    names: &[&str],
    key: &str,
) -> Result<(), AllocError>
    ensures { OnOk result (string_bytes text.new ≡ string_bytes text.old ++ rule.key_text place.now (map (λ n. n.now) names.now) key.now) }
{
    if is_one_of(names, key) {
        return Ok(());
    }
    push_key_line(alloc, text, place, names, key)
}

// Adds the lines about a table.
fn push_unknown(
    alloc: Global,
    text: &mut String,
    place: &str,
    names: &[&str],
    table: &Table,
) -> Result<(), AllocError>
    ensures { OnOk result (string_bytes text.new
        ≡ string_bytes text.old ++ rule.unknown_lines place.now (map (λ n. n.now) names.now) (table_view table.now)) }
{
    for (key, _value) in table.iter() {
        push_key(alloc, text, place, names, key.as_str())?;
    }
    Ok(())
}

// The same for a value, if it is a table.
fn push_value(
    alloc: Global,
    text: &mut String,
    place: &str,
    names: &[&str],
    value: &Value,
) -> Result<(), AllocError>
    ensures { OnOk result (string_bytes text.new
        ≡ string_bytes text.old ++ rule.table_lines place.now (map (λ n. n.now) names.now) (as_table (view value.now))) }
{
    match value.as_table() {
        Some(table) => push_unknown(alloc, text, place, names, table),
        None => Ok(()),
    }
}

/// The value at a key.
pub fn member<'a>(table: &'a Table, key: &str) -> Option<&'a Value>
    ensures { option_map (λ x. view x.now) result ≡ get_member key.now (table_view table.now) }
{
    table.get(key)
}

/// The keys of a service.
pub fn service_names() -> &'static [&'static str]
    ensures { map (λ n. n.now) result.now ≡ rule.service_keys }
{
    &SERVICE_KEYS
}

/// The keys of `info`.
pub fn info_names() -> &'static [&'static str]
    ensures { map (λ n. n.now) result.now ≡ rule.info_keys }
{
    &INFO_KEYS
}

/// The keys of a page.
pub fn page_names() -> &'static [&'static str]
    ensures { map (λ n. n.now) result.now ≡ rule.page_keys }
{
    &PAGE_KEYS
}

// Adds the lines about the table of a page.
fn push_page_keys(
    alloc: Global,
    text: &mut String,
    page: &Page,
    value: &Value,
) -> Result<(), AllocError>
    ensures { OnOk result (string_bytes text.new
        ≡ string_bytes text.old ++ rule.table_lines (page_text (page_of page.now).id) rule.page_keys (as_table (view value.now))) }
{
    let mut place = String::new(alloc);
    push_place(&mut place, page.id())?;
    push_value(alloc, text, place.as_str(), page_names(), value)
}

// The same for the tables of all pages.
fn push_items(
    alloc: Global,
    text: &mut String,
    values: &[Value],
    pages: &[Page],
) -> Result<(), AllocError>
    ensures { OnOk result (string_bytes text.new ≡ string_bytes text.old ++ rule.items_lines (items_view values.now) (map page_of pages.now)) }
{
    for (index, value) in values.iter().enumerate() {
        let Some(page) = pages.get(index) else {
            return Ok(());
        };
        push_page_keys(alloc, text, page, value)?;
    }
    Ok(())
}

// The same for the value of `page`.
fn push_pages(
    alloc: Global,
    text: &mut String,
    value: Option<&Value>,
    pages: &[Page],
) -> Result<(), AllocError>
    ensures { OnOk result (string_bytes text.new
        ≡ string_bytes text.old ++ rule.page_key_lines (option_map (λ v. view v.now) value.entry) (map page_of pages.now)) }
{
    let Some(value) = value else {
        return Ok(());
    };
    match value.as_array() {
        Some(values) => push_items(alloc, text, values.as_slice(), pages),
        None => Ok(()),
    }
}

// The same for the value of `info`.
fn push_info(alloc: Global, text: &mut String, value: Option<&Value>) -> Result<(), AllocError>
    ensures { OnOk result (string_bytes text.new
        ≡ string_bytes text.old ++ rule.value_lines (codes "info") rule.info_keys (option_map (λ v. view v.now) value.entry)) }
{
    match value {
        Some(value) => push_value(alloc, text, "info", info_names(), value),
        None => Ok(()),
    }
}

/// Adds the lines about unknown keys of a service text: those of the service, of `info`, and of page after page.
pub fn push_keys(
    alloc: Global,
    text: &mut String,
    table: &Table,
    pages: &[Page],
) -> Result<(), AllocError>
    ensures { OnOk result (string_bytes text.new ≡ string_bytes text.old ++ rule.key_lines (table_view table.now) (map page_of pages.now)) }
{
    push_unknown(alloc, text, "service", service_names(), table)?;
    push_info(alloc, text, member(table, "info"))?;
    push_pages(alloc, text, member(table, "page"), pages)
}
