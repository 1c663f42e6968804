//! The mistakes in the parts of a page: its id, its rows and its links.

ghost use Rattle.std.specs.Prelude.{◌≡◌, ◌++◌, OnOk, IfOk, length, map, option_map};
ghost use Rattle.std.specs.List.{list_any};
ghost use Rattle.toml.specs.Data.{get_member, as_table};
ghost use Rattle.toml.specs.View.{table_view, items_view, view};
ghost use Rattle.ttx_header.specs.Ids.{same_id};
ghost use Rattle.ttx_mistakes.specs.Mistakes as rule;
ghost use Rattle.ttx_mistakes.specs.MistakeViews.{mistake_views};
ghost use Rattle.ttx_source.specs.KeyFaults.{key_fault_of};
ghost use Rattle.ttx_source.specs.Keys as keys;

use crate::faults::{key_fault, number, sub};
use crate::ids::same_id;
use crate::mistakes::{Mistake, push_fault};
use std::alloc::AllocError;
use toml::{Table, Value};
use ttx_check::acceptance::{is_row_key, row_names};
use ttx_check::parts::Part;
use ttx_check::unknown_keys::member;
use ttx_header::PageId;
use ttx_source::key_faults::KeyFault;
use ttx_source::keys::Key;
use ttx_source::links::{count, link_of};
use ttx_source::rows::row_of;

/// Adds the mistakes at some keys.
pub fn push_keys<'a>(
    found: &mut Vec<Mistake<'a>>,
    page: usize,
    table: &Table,
    keys: &[Key],
) -> Result<(), AllocError>
    ensures { OnOk result (mistake_views found.new.items
        ≡ mistake_views found.old.items ++ rule.key_mistakes page (table_view table.now) keys.now) }
{
    for key in keys {
        push_fault(found, page, Part::Key(key.name()), key_fault(*key, table))?;
    }
    Ok(())
}

// Adds the keys of a table of rows that are no numbers of rows.
fn push_wrong_keys<'a>(
    found: &mut Vec<Mistake<'a>>,
    page: usize,
    rows: &'a Table,
) -> Result<(), AllocError>
    ensures { OnOk result (mistake_views found.new.items
        ≡ mistake_views found.old.items ++ rule.wrong_keys page (table_view rows.now)) }
{
    for (key, _value) in rows.iter() {
        if !is_row_key(key.as_str()) {
            let fault = KeyFault::Range { key: Key::Rows };
            push_fault(found, page, Part::Row(key.as_str()), Some(fault))?;
        }
    }
    Ok(())
}

// The fault of the row at a key, if there is one.
fn row_fault(rows: &Table, key: &str) -> Option<KeyFault>
    ensures { option_map key_fault_of result ≡ rule.fault_in (keys.row_of (get_member key.now (table_view rows.now))) }
{
    match row_of(member(rows, key)) {
        Ok(_) => None,
        Err(fault) => Some(fault),
    }
}

// Adds the mistakes in the rows at these keys.
fn push_texts<'a>(
    found: &mut Vec<Mistake<'a>>,
    page: usize,
    rows: &Table,
    keys: &[&'a str],
) -> Result<(), AllocError>
    ensures { OnOk result (mistake_views found.new.items
        ≡ mistake_views found.old.items ++ rule.text_mistakes page (table_view rows.now) (map (λ k. k.now) keys.now)) }
{
    for key in keys {
        push_fault(found, page, Part::Row(*key), row_fault(rows, *key))?;
    }
    Ok(())
}

/// Adds the mistakes in the rows of a page.
pub fn push_rows<'a>(
    found: &mut Vec<Mistake<'a>>,
    page: usize,
    value: Option<&'a Value>,
) -> Result<(), AllocError>
    ensures { OnOk result (mistake_views found.new.items
        ≡ mistake_views found.old.items ++ rule.row_mistakes page (option_map (λ v. view v.now) value.entry)) }
{
    let Some(value) = value else {
        return Ok(());
    };
    let Some(rows) = value.as_table() else {
        let fault = KeyFault::Kind { key: Key::Rows };
        return push_fault(found, page, Part::Key("rows"), Some(fault));
    };
    push_wrong_keys(found, page, rows)?;
    push_texts(found, page, rows, row_names())
}

fn link_fault(value: &Value) -> Option<KeyFault>
    ensures { option_map key_fault_of result ≡ rule.fault_in (keys.link_of (view value.now)) }
{
    match link_of(value) {
        Ok(_) => None,
        Err(fault) => Some(fault),
    }
}

// Adds the mistakes in these links.
fn push_targets<'a>(
    found: &mut Vec<Mistake<'a>>,
    page: usize,
    values: &[Value],
) -> Result<(), AllocError>
    ensures { OnOk result (mistake_views found.new.items
        ≡ mistake_views found.old.items ++ rule.target_mistakes page 1 (items_view values.now)) }
{
    for (index, value) in values.iter().enumerate() {
        push_fault(found, page, Part::Link(index + 1), link_fault(value))?;
    }
    Ok(())
}

/// Adds the mistakes in the links of a page.
pub fn push_links<'a>(
    found: &mut Vec<Mistake<'a>>,
    page: usize,
    value: Option<&Value>,
) -> Result<(), AllocError>
    ensures { OnOk result (mistake_views found.new.items
        ≡ mistake_views found.old.items ++ rule.link_mistakes page (option_map (λ v. view v.now) value.entry)) }
{
    let Some(value) = value else {
        return Ok(());
    };
    let Some(values) = value.as_array() else {
        let fault = KeyFault::Kind { key: Key::Links };
        return push_fault(found, page, Part::Key("links"), Some(fault));
    };
    if count(values.as_slice()) > 6 {
        let fault = KeyFault::Range { key: Key::Links };
        return push_fault(found, page, Part::Key("links"), Some(fault));
    }
    push_targets(found, page, values.as_slice())
}

/// The id of a page, if its number and its subcode are read.
pub fn read_id(table: &Table) -> Option<PageId>
    ensures { result ≡ rule.read_id (table_view table.now) }
{
    match (number(table), sub(table)) {
        (Ok((mag, page)), Ok(sub)) => Some(PageId::new(mag, page, sub).unwrap()),
        _ => None,
    }
}

fn is_among(earlier: &[PageId], id: PageId) -> bool
    ensures { result ≡ list_any (same_id id) earlier.now }
{
    earlier.iter().any(|one| same_id(id, *one))
}

/// Adds a mistake if an earlier page has the id.
pub fn push_again<'a>(
    found: &mut Vec<Mistake<'a>>,
    page: usize,
    earlier: &[PageId],
    id: Option<PageId>,
) -> Result<(), AllocError>
    ensures { OnOk result (mistake_views found.new.items
        ≡ mistake_views found.old.items ++ rule.again_mistakes page earlier.now id) }
{
    match id {
        Some(id) if is_among(earlier, id) => push_fault(
            found,
            page,
            Part::Key("number"),
            Some(KeyFault::Duplicate),
        ),
        _ => Ok(()),
    }
}
