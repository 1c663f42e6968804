//! Reads service definitions.

ghost use Rattle.std.specs.Prelude.{◌≡◌, ◌≤◌, ◌+◌, [], length, codes, true, false, is_some, IfOk};
ghost use Rattle.std.specs.List.{list_all};
ghost use Rattle.toml.specs.Data.{as_table};
ghost use Rattle.toml.specs.View.{table_view, items_view, view};
ghost use Rattle.ttx_header.specs.Control.{c11};
ghost use Rattle.ttx_page.specs.Pages.{IsPage};
ghost use Rattle.ttx_source.specs.Frames.{page_in};
ghost use Rattle.ttx_source.specs.Keys.{is_often};
ghost use Rattle.ttx_source.specs.Services.{authored_at, has_id};
ghost use Rattle.ttx_source.specs.Services as rule;
ghost use Rattle.ttx_source.specs.Faults.{outcome_in_page, IsSourceUnlessMemory};
ghost use Rattle.ttx_source.specs.KeyFaults.{key_outcome, read_outcome, IsReadUnlessMemory};

use crate::documents::read_table;
use crate::faults::SourceError;
use crate::info_table::info;
use crate::key_faults::{KeyFault, ReadFault};
use crate::keys::Key;
use crate::links::count;
use crate::page_table::{Frame, frame_of};
use crate::rows::blank_rows;
use crate::services::Service;
use crate::values::{array_of, boolean, integer, member, table_of};
use std::alloc::Global;
use toml::{Table, Value};

// The service in a table, without its pages.
#[tactic(auto, unfolding(crate::specs::Services::settings_of))]
fn settings(alloc: Global, table: &Table) -> Result<Service, KeyFault>
    ensures value { key_outcome (λ s. s) result ≡ rule.settings_of (table_view table.now) }
    ensures none { IfOk result (λ s. s.pages ≡ []) }
{
    let lines = integer(table, Key::Lines, 1, 32)?;
    let serial = boolean(table, Key::Serial)?;
    match info(table) {
        Ok(info) => Ok(Service::new(alloc, lines as u8, serial, info)),
        Err(fault) => Err(fault),
    }
}

fn each_is_table(values: &[Value]) -> bool
    ensures { result ≡ list_all (λ v. is_some (as_table (view v))) values.now }
{
    values.iter().all(|value| value.is_table())
}

fn are_tables(values: &[Value]) -> bool
    ensures { result ≡ rule.are_tables (items_view values.now) }
{
    each_is_table(values)
}

/// The tables of the pages, at most 2,000.
pub fn page_tables<'a>(table: &'a Table) -> Result<&'a [Value], KeyFault>
    ensures value { key_outcome (λ v. items_view v.now) result ≡ rule.page_tables (table_view table.now) }
    ensures most { IfOk result (λ v. length v.now ≤ 2000) }
{
    let Some(value) = member(table, Key::Page) else {
        return Ok(&[]);
    };
    let values = array_of(value, Key::Page)?.as_slice();
    if count(values) > 2000 {
        return Err(KeyFault::Range { key: Key::Page });
    }
    if !are_tables(values) {
        return Err(KeyFault::Kind { key: Key::Page });
    }
    Ok(values)
}

// Reads the page in a value: writes its rows, and returns the others. The pages of `service` are the earlier ones; `number` counts
// this one from 1.
fn next_frame(
    value: &Value,
    number: usize,
    service: &Service,
    rows: &mut [[u8; 40]; 24],
) -> Result<Frame, ReadFault>
    requires { number ≡ length service.now.pages + 1 }
    ensures value { read_outcome (λ f. authored_at (page_in f rows.new) f.often) result ≡ rule.next_page service.now (view value.now) }
    ensures page { IfOk result (λ f. IsPage (page_in f rows.new)) }
    ensures new { IfOk result (λ f. has_id service.now.pages f.id ≡ false) }
    ensures c11 { IfOk result (λ f. c11 f.control.0 ≡ service.now.serial) }
    ensures often { IfOk result (λ f. is_often f.often ≡ true) }
{
    let table = match table_of(value, Key::Page) {
        Ok(table) => table,
        Err(fault) => return Err(ReadFault::InPage { page: 0, fault }),
    };
    match frame_of(table, service, rows) {
        Ok(frame) => Ok(frame),
        Err(fault) => Err(ReadFault::InPage {
            page: number,
            fault,
        }),
    }
}

// The service with the pages of these values added.
fn with_pages(mut service: Service, values: &[Value]) -> Result<Service, ReadFault>
    requires none { service.pages ≡ [] }
    requires most { length values.now ≤ 2000 }
    ensures { IsReadUnlessMemory result (read_outcome (λ s. s) result ≡ rule.with_pages service (items_view values.now)) }
{
    let mut rows = blank_rows();
    for (index, value) in values.iter().enumerate() {
        let frame = match next_frame(value, index + 1, &service, &mut rows) {
            Ok(frame) => frame,
            Err(fault) => return Err(fault),
        };
        match service.add(frame.page(&rows), frame.often()) {
            Ok(()) => {}
            Err(_) => return Err(ReadFault::NoMemory),
        }
    }
    Ok(service)
}

// The service in a table, or its first fault.
#[tactic(auto, unfolding(crate::specs::Services::service_of))]
fn service_of(alloc: Global, table: &Table) -> Result<Service, ReadFault>
    ensures { IsReadUnlessMemory result (read_outcome (λ s. s) result ≡ rule.service_of (table_view table.now)) }
{
    let service = match settings(alloc, table) {
        Ok(service) => service,
        Err(fault) => return Err(ReadFault::InPage { page: 0, fault }),
    };
    match page_tables(table) {
        Ok(values) => with_pages(service, values),
        Err(fault) => Err(ReadFault::InPage { page: 0, fault }),
    }
}

/// Reads a service from a TOML text, or returns its first fault. The order of tests: `lines`, `serial`, `info`, whether `page` is an
/// array of at most 2,000 tables, then page after page.
pub fn read_service(alloc: Global, bytes: &[u8]) -> Result<Service, SourceError>
    ensures { IsSourceUnlessMemory result (outcome_in_page (λ s. s) result ≡ rule.read_bytes bytes.now) }
{
    let table = read_table(alloc, bytes)?;
    service_of_table(alloc, &table)
}

/// The service in the table of a text, or its first fault, as `read_service` reads it.
pub fn service_of_table(alloc: Global, table: &Table) -> Result<Service, SourceError>
    ensures { IsSourceUnlessMemory result (outcome_in_page (λ s. s) result ≡ rule.service_of (table_view table.now)) }
{
    match service_of(alloc, table) {
        Ok(service) => Ok(service),
        Err(fault) => Err(fault.source_error()),
    }
}
