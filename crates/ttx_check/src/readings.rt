//! Reads a service text, or says why it is refused.

ghost use Rattle.std.specs.Prelude.{◌≡◌, IfOk, Some};
ghost use Rattle.toml.specs.Parse.{parse_document};
ghost use Rattle.toml.specs.View.{table_view};
ghost use Rattle.ttx_check.specs.Readings as rule;
ghost use Rattle.ttx_source.specs.Services.{service_of};

use crate::refusals::{error_line, toml_line};
use std::alloc::{AllocError, Global};
use toml::Table;
use ttx_source::{Service, SourceError, SourceFault, read_document, service_of_table};

/// A service, or the line about the first fault of its text.
#[derive(Drop)]
pub enum Reading {
    Read(Service),
    Refused(String),
}

// The service of a text with this table, or the line.
fn table_reading(alloc: Global, bytes: &[u8], table: &Table) -> Result<Reading, AllocError>
    requires { parse_document bytes.now ≡ Some (table_view table.now) }
    ensures { IfOk result (λ reading. rule.IsReadingOf bytes.now (service_of (table_view table.now)) reading) }
{
    match service_of_table(alloc, table) {
        Ok(service) => Ok(Reading::Read(service)),
        Err(
            SourceError {
                fault: SourceFault::NoMemory,
                page: _,
            },
        ) => Err(AllocError),
        Err(error) => Ok(Reading::Refused(error_line(alloc, bytes, table, &error)?)),
    }
}

/// The service of a text, or the line about its first fault, as `check` writes it. `Err` if memory runs out.
pub fn reading_of(alloc: Global, bytes: &[u8]) -> Result<Reading, AllocError>
    ensures { IfOk result (λ reading. rule.IsReading bytes.now reading) }
{
    match read_document(alloc, bytes)? {
        Some(document) => table_reading(alloc, bytes, &document.table),
        None => Ok(Reading::Refused(toml_line(alloc, bytes)?)),
    }
}
