//! Tables of TOML.

ghost use Rattle.std.specs.Prelude.{◌≡◌, option_map, option_copied, IfOk, OnOk, MatchResult};
ghost use Rattle.toml.specs.Data.{get_member};
ghost use Rattle.toml.specs.View.{table_view, array_view, view};
ghost use Rattle.ttx_desk.specs.Tables as rule;

use std::alloc::{AllocError, Global};
use std::default::Emptied;
use toml::{Table, Value};

/// The value at a key.
pub fn member<'a>(table: &'a Table, key: &str) -> Option<&'a Value>
    ensures { option_map (λ x. view x.now) result ≡ get_member key.now (table_view table.now) }
{
    table.get(key)
}

/// The text at a key.
pub fn text_at<'a>(table: &'a Table, key: &str) -> Option<&'a str>
    ensures { option_map (λ t. t.now) result ≡ rule.text_at key.now (table_view table.now) }
{
    match member(table, key) {
        Some(value) => value.as_str(),
        None => None,
    }
}

/// The table at a key.
pub fn table_at<'a>(table: &'a Table, key: &str) -> Option<&'a Table>
    ensures { option_map (λ t. table_view t.now) result ≡ rule.table_at key.now (table_view table.now) }
{
    match member(table, key) {
        Some(value) => value.as_table(),
        None => None,
    }
}

/// The array at a key.
pub fn array_at<'a>(table: &'a Table, key: &str) -> Option<&'a Vec<Value>>
    ensures { option_map (λ a. array_view a.now) result ≡ rule.array_at key.now (table_view table.now) }
{
    match member(table, key) {
        Some(value) => value.as_array(),
        None => None,
    }
}

/// Sets the value at a key.
pub fn put(alloc: Global, table: &mut Table, key: &str, value: Value) -> Result<(), AllocError>
    ensures { OnOk result (table_view table.new ≡ rule.put key.now (view value) (table_view table.old)) }
{
    let name = String::from_str(alloc, key)?;
    drop(table.insert(name, value)?);
    Ok(())
}

/// Takes a key out.
pub fn take_out(table: &mut Table, key: &str)
    ensures { table_view table.new ≡ rule.without key.now (table_view table.old) }
{
    drop(table.remove(key));
}

/// A copy of a table.
pub fn copy_of(table: &Table) -> Result<Table, AllocError>
    ensures { IfOk result (λ copy. table_view copy ≡ table_view table.now) }
{
    let mut copy = Table::emptied(table)?;
    for (key, value) in table.iter() {
        let name = key.clone()?;
        drop(copy.insert(name, value.clone()?)?);
    }
    Ok(copy)
}
