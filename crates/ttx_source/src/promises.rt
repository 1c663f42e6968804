//! The promises of a service definition: the seconds within which a viewer is to see a page, and for which the pages of a number stay.

ghost use Rattle.std.specs.Prelude.{◌≡◌, ◌<◌, ◌≤◌, ◌++◌, length, codes, map, IfOk};
ghost use Rattle.toml.specs.View.{table_view, items_view, view};
ghost use Rattle.ttx_source.specs.Faults.{outcome_in_page, IsSourceUnlessMemory};
ghost use Rattle.ttx_source.specs.KeyFaults.{key_name, key_outcome, read_outcome, IsReadUnlessMemory};
ghost use Rattle.ttx_source.specs.Promises as rule;
ghost use Rattle.ttx_source.specs.PromiseViews.{promise_view, promise_list};

use crate::documents::read_table;
use crate::faults::SourceError;
use crate::key_faults::{KeyFault, ReadFault};
use crate::keys::Key;
use crate::reader::page_tables;
use crate::values::{member, table_of, within};
use std::alloc::{AllocError, Global};
use std::num::saturating_f64_to_u64;
use toml::{Table, Value};

/// A page that has a promise.
#[derive(Clone, Copy)]
pub struct Promise {
    /// The index of the page in authored order.
    pub page: usize,
    /// The fields of 0.02 s within which a viewer is to see it, or for which each page of its number is to stay, 1 to 1,000,000.
    pub fields: u32,
    /// Whether the page has the key `often`.
    pub fixed: bool,
}

// The nearest number of microseconds.
#[tactic(auto, unfolding(crate::specs::Promises::microseconds))]
fn microseconds(seconds: f64) -> u64
    ensures { result ≡ rule.microseconds seconds }
{
    saturating_f64_to_u64(seconds * 1_000_000.0 + 0.5)
}

// The whole fields of a number of microseconds.
fn whole_fields(key: Key, microseconds: u64) -> Result<u32, KeyFault>
    ensures { key_outcome (λ n. n) result ≡ rule.whole_fields (key_name key) microseconds }
{
    if microseconds < 20_000 || microseconds > 20_000_000_000 {
        return Err(KeyFault::Range { key });
    }
    Ok((microseconds / 20_000) as u32)
}

// The fields of a whole number of seconds.
fn fields_of_integer(key: Key, seconds: i64) -> Result<u32, KeyFault>
    ensures { key_outcome (λ n. n) result ≡ rule.fields_of_integer (key_name key) seconds }
{
    let seconds = within(seconds, key, 1, 20_000)?;
    Ok(50 * seconds)
}

// The fields of a value.
fn fields_of(key: Key, value: &Value) -> Result<u32, KeyFault>
    ensures { key_outcome (λ n. n) result ≡ rule.fields_of (key_name key) (view value.now) }
{
    match value {
        Value::Integer(seconds) => fields_of_integer(key, *seconds),
        Value::Float(seconds) => whole_fields(key, microseconds(*seconds)),
        _ => Err(KeyFault::Kind { key }),
    }
}

/// The promise of the page at an index, if it has one at the key.
pub fn promise_of(key: Key, page: usize, table: &Table) -> Result<Option<Promise>, KeyFault>
    ensures { key_outcome promise_list result ≡ rule.promise_of (key_name key) page (table_view table.now) }
{
    let Some(value) = member(table, key) else {
        return Ok(None);
    };
    let fields = fields_of(key, value)?;
    let fixed = member(table, Key::Often).is_some();
    Ok(Some(Promise {
        page,
        fields,
        fixed,
    }))
}

// The promise of a value of the array of pages.
fn promise_in(key: Key, page: usize, value: &Value) -> Result<Option<Promise>, ReadFault>
    requires { page < 2000 }
    ensures { read_outcome promise_list result ≡ rule.promise_in (key_name key) page (view value.now) }
{
    let table = match table_of(value, Key::Page) {
        Ok(table) => table,
        Err(fault) => return Err(ReadFault::InPage { page: 0, fault }),
    };
    match promise_of(key, page, table) {
        Ok(promise) => Ok(promise),
        Err(fault) => Err(ReadFault::InPage {
            page: page + 1,
            fault,
        }),
    }
}

// Appends a promise, if there is one.
fn push_promise(promises: &mut Vec<Promise>, promise: Option<Promise>) -> Result<(), AllocError>
    ensures { IfOk result (λ _. map promise_view promises.new.items ≡ map promise_view promises.old.items ++ promise_list promise) }
{
    match promise {
        None => Ok(()),
        Some(promise) => {
            promises.push(promise)?;
            Ok(())
        }
    }
}

// The promises of the values of the array of pages.
fn promises_in(alloc: Global, key: Key, values: &[Value]) -> Result<Vec<Promise>, ReadFault>
    requires { length values.now ≤ 2000 }
    ensures { IsReadUnlessMemory result (read_outcome (λ ps. map promise_view ps.items) result
        ≡ rule.promises_in (key_name key) 0 (items_view values.now)) }
{
    let mut promises = Vec::new(alloc);
    for (page, value) in values.iter().enumerate() {
        let promise = match promise_in(key, page, value) {
            Ok(promise) => promise,
            Err(fault) => return Err(fault),
        };
        match push_promise(&mut promises, promise) {
            Ok(()) => {}
            Err(_) => return Err(ReadFault::NoMemory),
        }
    }
    Ok(promises)
}

// The promises of the service that a table is, or the first fault.
fn promises_of(alloc: Global, key: Key, table: &Table) -> Result<Vec<Promise>, ReadFault>
    ensures { IsReadUnlessMemory result (read_outcome (λ ps. map promise_view ps.items) result
        ≡ rule.promises_of (key_name key) (table_view table.now)) }
{
    match page_tables(table) {
        Ok(values) => promises_in(alloc, key, values),
        Err(fault) => Err(ReadFault::InPage { page: 0, fault }),
    }
}

/// The promises of the service that a TOML text is, in authored order: of each page with a key `within` the seconds from 0.02 to 20000, an
/// integer or a float, to the nearest microsecond and in whole fields of 0.02 s. A value of another kind or out of its range is refused, the
/// first one with its page; so is what is no array of at most 2,000 tables at `page`. The other keys are not looked at: `read_service`
/// looks at them, and takes no notice of `within`.
pub fn read_promises(alloc: Global, bytes: &[u8]) -> Result<Vec<Promise>, SourceError>
    ensures { IsSourceUnlessMemory result (outcome_in_page (λ ps. map promise_view ps.items) result ≡ rule.read_promises bytes.now) }
{
    let table = read_table(alloc, bytes)?;
    promises_of_table(alloc, &table)
}

/// The promises of the service in the table of a text, or the first fault, as `read_promises` reads them.
pub fn promises_of_table(alloc: Global, table: &Table) -> Result<Vec<Promise>, SourceError>
    ensures { IsSourceUnlessMemory result (outcome_in_page (λ ps. map promise_view ps.items) result
        ≡ rule.promises_of (codes "within") (table_view table.now)) }
{
    match promises_of(alloc, Key::Within, table) {
        Ok(promises) => Ok(promises),
        Err(fault) => Err(fault.source_error()),
    }
}

/// The stays of the service that a TOML text is, in authored order: of each page with a key `stays` the seconds for which each page of its
/// number is to stay, in the form of `within`. In all else as `read_promises`.
pub fn read_stays(alloc: Global, bytes: &[u8]) -> Result<Vec<Promise>, SourceError>
    ensures { IsSourceUnlessMemory result (outcome_in_page (λ ps. map promise_view ps.items) result ≡ rule.read_stays bytes.now) }
{
    let table = read_table(alloc, bytes)?;
    stays_of_table(alloc, &table)
}

/// The stays of the service in the table of a text, or the first fault, as `read_stays` reads them.
pub fn stays_of_table(alloc: Global, table: &Table) -> Result<Vec<Promise>, SourceError>
    ensures { IsSourceUnlessMemory result (outcome_in_page (λ ps. map promise_view ps.items) result
        ≡ rule.promises_of (codes "stays") (table_view table.now)) }
{
    match promises_of(alloc, Key::Stays, table) {
        Ok(stays) => Ok(stays),
        Err(fault) => Err(fault.source_error()),
    }
}
