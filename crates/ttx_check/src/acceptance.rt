//! Which values of a page are refused, and which of them comes first.

ghost use Rattle.std.specs.Prelude.{◌≡◌, ◌+◌, length, nat_lt, map, option_map, find, is_err, Some};
ghost use Rattle.std.specs.List.{list_all};
ghost use Rattle.std.specs.Str.{chars};
ghost use Rattle.toml.specs.View.{table_view, items_view, view};
ghost use Rattle.ttx_source.specs.Keys.{head, row_keys, is_row_key, link_of};
ghost use Rattle.ttx_source.specs.Values.{characters, is_inside_mask, page_number, subcode, link, link_to};
ghost use Rattle.ttx_check.specs.Parts as rule;

use crate::unknown_keys::{is_one_of, member};
use toml::{Table, Value};
use ttx_digits::{first_number, four_digits};

static ROWS: [&str; 24] = [
    "1", "2", "3", "4", "5", "6", "7", "8", "9", "10", "11", "12", "13", "14", "15", "16", "17",
    "18", "19", "20", "21", "22", "23", "24",
];

/// How many characters a text has.
pub fn char_count(text: &str) -> usize
    ensures { result ≡ length (chars text.now) }
{
    text.chars().count()
}

// Whether each byte is below 128.
fn is_plain(text: &str) -> bool
    ensures { result ≡ list_all (λ b. nat_lt b 128) text.now }
{
    text.as_bytes().iter().all(|b| *b < 128)
}

// Whether a text has more characters than fit, or one that cannot be sent.
#[tactic(auto, unfolding(ttx_source::specs::Values::characters))]
fn is_text_refused(text: &str, most: usize) -> bool
    ensures { result ≡ is_err (characters most text.now) }
{
    if char_count(text) > most {
        return true;
    }
    !is_plain(text)
}

// Whether a text is not a page number, MPP.
#[tactic(auto, unfolding(ttx_source::specs::Values::page_number))]
fn is_number_text_refused(text: &str) -> bool
    ensures { result ≡ is_err (page_number text.now) }
{
    let text = text.as_bytes();
    if text.len() != 3 {
        return true;
    }
    first_number(text).is_none()
}

// Whether a subcode has only bits of 3F7F.
fn is_inside_mask(sub: u16) -> bool
    ensures { result ≡ is_inside_mask sub }
{
    sub < 0x4000 && sub / 128 % 2 == 0
}

// Whether a text is not a subcode, SSSS.
#[tactic(auto, unfolding(ttx_source::specs::Values::subcode))]
fn is_subcode_refused(text: &str) -> bool
    ensures { result ≡ is_err (subcode text.now) }
{
    let text = text.as_bytes();
    if text.len() != 4 {
        return true;
    }
    match four_digits(text, 0) {
        Some(sub) if is_inside_mask(sub) && sub != 0x3f7f => false,
        _ => true,
    }
}

// Whether the number and the subcode of a link do not name a target.
fn is_target_refused(number: Option<(u8, u8)>, sub: Option<u16>) -> bool
    ensures { result ≡ is_err (link_to number sub) }
{
    let (Some(_), Some(sub)) = (number, sub) else {
        return true;
    };
    !is_inside_mask(sub)
}

// Whether a text is not a link: neither empty, nor MPP, nor MPP/SSSS.
#[tactic(auto, unfolding(ttx_source::specs::Values::link))]
fn is_link_text_refused(text: &str) -> bool
    ensures { result ≡ is_err (link text.now) }
{
    let text = text.as_bytes();
    match text.len() {
        0 => false,
        3 => is_target_refused(first_number(text), Some(0x3f7f)),
        8 if text[3] == b'/' => is_target_refused(first_number(text), four_digits(text, 4)),
        _ => true,
    }
}

// Whether a value is not a link.
fn is_link_refused(value: &Value) -> bool
    ensures { result ≡ is_err (link_of (view value.now)) }
{
    match value.as_str() {
        Some(text) => is_link_text_refused(text),
        None => true,
    }
}

/// Whether `number` of a page is missing or refused.
pub fn is_number_refused(page: &Table) -> bool
    ensures { result ≡ is_err (rule.number_of (table_view page.now)) }
{
    let Some(value) = member(page, "number") else {
        return true;
    };
    match value.as_str() {
        Some(text) => is_number_text_refused(text),
        None => true,
    }
}

/// Whether `sub` of a page is refused.
pub fn is_sub_refused(page: &Table) -> bool
    ensures { result ≡ is_err (rule.sub_of (table_view page.now)) }
{
    let Some(value) = member(page, "sub") else {
        return is_subcode_refused("0000");
    };
    match value.as_str() {
        Some(text) => is_subcode_refused(text),
        None => true,
    }
}

/// Whether `head` of a page is not a text of at most 24 characters that can be sent.
pub fn is_head_refused(page: &Table) -> bool
    ensures { result ≡ is_err (head (table_view page.now)) }
{
    let Some(value) = member(page, "head") else {
        return is_text_refused("", 24);
    };
    match value.as_str() {
        Some(text) => is_text_refused(text, 24),
        None => true,
    }
}

// Whether the row at a key, if there is one, is not a text of at most 40 characters that can be sent.
fn is_row_refused(rows: &Table, key: &str) -> bool
    ensures { result ≡ rule.is_row_refused (table_view rows.now) key.now }
{
    let Some(value) = member(rows, key) else {
        return false;
    };
    match value.as_str() {
        Some(text) => is_text_refused(text, 40),
        None => true,
    }
}

/// The keys of rows 1 to 24.
pub fn row_names() -> &'static [&'static str]
    ensures { map (λ n. n.now) result.now ≡ row_keys }
{
    &ROWS
}

// The key of the first refused row, among these keys.
fn first_refused<'a>(rows: &Table, keys: &[&'a str]) -> Option<&'a str>
    ensures { option_map (λ k. k.now) result ≡ find (rule.is_row_refused (table_view rows.now)) (map (λ k. k.now) keys.now) }
{
    for key in keys {
        if is_row_refused(rows, *key) {
            return Some(*key);
        }
    }
    None
}

/// The key of the first refused row.
#[tactic(auto, unfolding(crate::specs::Parts::refused_row))]
pub fn refused_row(rows: &Table) -> Option<&'static str>
    ensures { option_map (λ k. k.now) result ≡ rule.refused_row (table_view rows.now) }
{
    first_refused(rows, row_names())
}

/// Whether a key is the number of a row.
pub fn is_row_key(key: &str) -> bool
    ensures { result ≡ is_row_key key.now }
{
    is_one_of(row_names(), key)
}

/// The first key that is not the number of a row.
pub fn wrong_key(rows: &Table) -> Option<&str>
    ensures { option_map (λ k. k.now) result ≡ rule.wrong_key (table_view rows.now) }
{
    for (key, _value) in rows.iter() {
        if !is_row_key(key.as_str()) {
            return Some(key.as_str());
        }
    }
    None
}

/// The first refused link, counted from 1.
pub fn refused_link(values: &[Value]) -> Option<usize>
    ensures { result ≡ rule.refused_link 1 (items_view values.now) }
{
    for (index, value) in values.iter().enumerate() {
        if is_link_refused(value) {
            return Some(index + 1);
        }
    }
    None
}
