//! How deeply arrays and tables are nested.

ghost use Rattle.std.specs.Prelude.{◌≤◌, ◌↔◌, IsTrue};
ghost use Rattle.toml.specs.Data.{depth, items_depth, members_depth};
ghost use Rattle.toml.specs.View.{items_view, table_view, view};

use toml::{Table, Value};

// Whether arrays and tables in a value are nested at most so deeply.
#[cycle(depth)]
fn is_value_within(value: &Value, most: usize) -> bool
    ensures { IsTrue result ↔ (depth (view value.now) ≤ most) }
{
    match value {
        Value::Array(items) => most > 0 && are_items_within(items.as_slice(), most - 1),
        Value::Table(members) => most > 0 && is_within(members, most - 1),
        _ => true,
    }
}

#[cycle(depth)]
fn are_items_within(items: &[Value], most: usize) -> bool
    ensures { IsTrue result ↔ (items_depth (items_view items.now) ≤ most) }
{
    for item in items {
        if !is_value_within(item, most) {
            return false;
        }
    }
    true
}

/// Whether arrays and tables in a table are nested at most so deeply.
#[cycle(depth)]
pub fn is_within(table: &Table, most: usize) -> bool
    ensures { IsTrue result ↔ (members_depth (table_view table.now) ≤ most) }
{
    for (_key, value) in table.iter() {
        if !is_value_within(value, most) {
            return false;
        }
    }
    true
}
