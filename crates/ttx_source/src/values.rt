//! The values at the keys of a table, by their kind.

ghost use Rattle.std.specs.Prelude.{◌≡◌, ◌≤◌, false, option_map, IfOk};
ghost use Rattle.toml.specs.Data.{as_integer, as_bool, as_str, as_array, as_table, get_member};
ghost use Rattle.toml.specs.View.{table_view, array_view, view};
ghost use Rattle.ttx_source.specs.Values as rule;
ghost use Rattle.ttx_source.specs.Values.{or_fault, missing, of_kind, required_in, value_or, with_default, integer_at, integer_at_or, integer_within};
ghost use Rattle.ttx_source.specs.KeyFaults.{key_outcome, key_name};

use crate::key_faults::KeyFault;
use crate::keys::Key;
use toml::{Table, Value};

/// The value at a key; `None` if the table does not have the key.
pub fn member<'a>(table: &'a Table, key: Key) -> Option<&'a Value>
    ensures { option_map (λ x. view x.now) result ≡ get_member (key_name key) (table_view table.now) }
{
    table.get(key.name())
}

/// The text in a value, which must be there.
pub(crate) fn required_text<'a>(value: Option<&'a Value>, key: Key) -> Result<&'a str, KeyFault>
    ensures { key_outcome (λ t. t.now) result ≡ required_in (key_name key) as_str (option_map (λ v. view v.now) value.entry) }
{
    match value {
        None => Err(KeyFault::Missing { key }),
        Some(value) => text_of(value, key),
    }
}

// The value at a required key.
fn required<'a>(table: &'a Table, key: Key) -> Result<&'a Value, KeyFault>
    ensures { key_outcome (λ x. view x.now) result ≡ or_fault (missing (key_name key)) (get_member (key_name key) (table_view table.now)) }
{
    match member(table, key) {
        None => Err(KeyFault::Missing { key }),
        Some(value) => Ok(value),
    }
}

fn integer_of(value: &Value, key: Key) -> Result<i64, KeyFault>
    ensures { key_outcome (λ z. z) result ≡ of_kind (key_name key) as_integer (view value.now) }
{
    match value.as_integer() {
        None => Err(KeyFault::Kind { key }),
        Some(number) => Ok(number),
    }
}

fn boolean_of(value: &Value, key: Key) -> Result<bool, KeyFault>
    ensures { key_outcome (λ b. b) result ≡ of_kind (key_name key) as_bool (view value.now) }
{
    match value.as_bool() {
        None => Err(KeyFault::Kind { key }),
        Some(answer) => Ok(answer),
    }
}

/// The text in a value; `Kind` if it is of another kind.
pub fn text_of<'a>(value: &'a Value, key: Key) -> Result<&'a str, KeyFault>
    ensures { key_outcome (λ t. t.now) result ≡ of_kind (key_name key) as_str (view value.now) }
{
    match value.as_str() {
        None => Err(KeyFault::Kind { key }),
        Some(text) => Ok(text),
    }
}

/// The array in a value; `Kind` if it is of another kind.
pub fn array_of<'a>(value: &'a Value, key: Key) -> Result<&'a Vec<Value>, KeyFault>
    ensures { key_outcome (λ a. array_view a.now) result ≡ of_kind (key_name key) as_array (view value.now) }
{
    match value.as_array() {
        None => Err(KeyFault::Kind { key }),
        Some(values) => Ok(values),
    }
}

/// The table in a value; `Kind` if it is of another kind.
pub fn table_of<'a>(value: &'a Value, key: Key) -> Result<&'a Table, KeyFault>
    ensures { key_outcome (λ t. table_view t.now) result ≡ of_kind (key_name key) as_table (view value.now) }
{
    match value.as_table() {
        None => Err(KeyFault::Kind { key }),
        Some(table) => Ok(table),
    }
}

/// An integer from `low` to `high`; `Range` if it is outside.
pub fn within(number: i64, key: Key, low: u32, high: u32) -> Result<u32, KeyFault>
    ensures value { key_outcome (λ n. n) result ≡ integer_within (key_name key) low high number }
    ensures range { IfOk result (λ n. (low ≤ n) × (n ≤ high)) }
{
    if number < i64::from(low) || number > i64::from(high) {
        return Err(KeyFault::Range { key });
    }
    Ok(number as u32)
}

/// The integer at a required key, from `low` to `high`.
pub fn integer(table: &Table, key: Key, low: u32, high: u32) -> Result<u32, KeyFault>
    ensures value { key_outcome (λ n. n) result ≡ integer_at (key_name key) low high (table_view table.now) }
    ensures range { IfOk result (λ n. (low ≤ n) × (n ≤ high)) }
{
    let number = integer_of(required(table, key)?, key)?;
    within(number, key, low, high)
}

/// The integer in a value, or a default if there is none.
pub(crate) fn integer_in(value: Option<&Value>, key: Key, default: i64) -> Result<i64, KeyFault>
    ensures { key_outcome (λ z. z) result ≡ value_or (key_name key) as_integer default (option_map (λ v. view v.now) value.entry) }
{
    match value {
        None => Ok(default),
        Some(value) => integer_of(value, key),
    }
}

/// The integer at a key, or a default if the key is missing.
pub fn integer_or(table: &Table, key: Key, default: i64) -> Result<i64, KeyFault>
    ensures { key_outcome (λ z. z) result ≡ with_default (key_name key) as_integer default (table_view table.now) }
{
    integer_in(member(table, key), key, default)
}

/// The boolean at a required key.
pub fn boolean(table: &Table, key: Key) -> Result<bool, KeyFault>
    ensures { key_outcome (λ b. b) result ≡ rule.required (key_name key) as_bool (table_view table.now) }
{
    boolean_of(required(table, key)?, key)
}

/// The boolean in a value; false if there is none.
pub(crate) fn flag_of(value: Option<&Value>, key: Key) -> Result<bool, KeyFault>
    ensures { key_outcome (λ b. b) result ≡ value_or (key_name key) as_bool false (option_map (λ v. view v.now) value.entry) }
{
    match value {
        None => Ok(false),
        Some(value) => boolean_of(value, key),
    }
}

/// The boolean at a key; false if the key is missing.
pub fn flag(table: &Table, key: Key) -> Result<bool, KeyFault>
    ensures { key_outcome (λ b. b) result ≡ with_default (key_name key) as_bool false (table_view table.now) }
{
    flag_of(member(table, key), key)
}

/// The text at a required key.
pub fn text<'a>(table: &'a Table, key: Key) -> Result<&'a str, KeyFault>
    ensures { key_outcome (λ t. t.now) result ≡ rule.required (key_name key) as_str (table_view table.now) }
{
    required_text(member(table, key), key)
}

/// The text in a value, or a default if there is none.
pub(crate) fn text_in<'a>(
    value: Option<&'a Value>,
    key: Key,
    default: &'static str,
) -> Result<&'a str, KeyFault>
    ensures { key_outcome (λ t. t.now) result ≡ value_or (key_name key) as_str default.now (option_map (λ v. view v.now) value.entry) }
{
    match value {
        None => Ok(default),
        Some(value) => text_of(value, key),
    }
}

/// The text at a key, or a default if the key is missing.
pub fn text_or<'a>(table: &'a Table, key: Key, default: &'static str) -> Result<&'a str, KeyFault>
    ensures { key_outcome (λ t. t.now) result ≡ with_default (key_name key) as_str default.now (table_view table.now) }
{
    text_in(member(table, key), key, default)
}
