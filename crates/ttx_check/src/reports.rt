//! The report on a service text.

ghost use Rattle.std.specs.Prelude.{◌≡◌, IfOk, Some, codes, map, true, string_bytes};
ghost use Rattle.std.specs.Str.{is_utf8};
ghost use Rattle.toml.specs.Parse.{parse_document};
ghost use Rattle.toml.specs.View.{table_view};
ghost use Rattle.ttx_check.specs.Refusals.{IsErrorLine};
ghost use Rattle.ttx_check.specs.Reports as rule;
ghost use Rattle.ttx_source.specs.Faults.{fault_of};
ghost use Rattle.ttx_source.specs.PromiseViews.{promise_view};
ghost use Rattle.ttx_source.specs.Promises.{promises_of};
ghost use Rattle.ttx_source.specs.Services.{service_of};

use crate::refusals::{error_line, toml_line};
use crate::service_warnings::warnings;
use crate::unknown_keys::push_keys;
use crate::warning_lines::push_warnings;
use std::alloc::{AllocError, Global};
use toml::Table;
use ttx_source::{
    Promise, Service, SourceError, SourceFault, promises_of_table, read_document, service_of_table,
    stays_of_table,
};
use ttx_stays::push_stay_warnings;

/// The report on a text, and the status.
#[derive(Drop)]
pub struct Checked {
    pub text: String,
    /// 2 if the text is refused, otherwise 0.
    pub status: u8,
}

// The lines; if there are none, a line with the number of pages.
fn lines_or_count(alloc: Global, count: usize, lines: String) -> Result<String, AllocError>
    ensures { IfOk result (λ text. string_bytes text ≡ rule.lines_or_count count (string_bytes lines)) }
{
    if lines.is_empty() {
        format!(in alloc; "ok pages {count}\n")
    } else {
        Ok(lines)
    }
}

// The report on a service, its stays and its table.
fn service_report(
    alloc: Global,
    table: &Table,
    service: &Service,
    stays: &[Promise],
) -> Result<String, AllocError>
    ensures { IfOk result (λ text. string_bytes text ≡ rule.report (table_view table.now) service.now (map promise_view stays.now)) }
{
    let mut lines = String::new(alloc);
    push_keys(alloc, &mut lines, table, service.pages())?;
    let found = warnings(alloc, service)?;
    push_warnings(&mut lines, &found)?;
    push_stay_warnings(&mut lines, service, stays)?;
    lines_or_count(alloc, service.pages().len(), lines)
}

// The report on an accepted text.
fn accepted(
    alloc: Global,
    bytes: &[u8],
    table: &Table,
    service: &Service,
    stays: &[Promise],
) -> Result<Checked, AllocError>
    requires { parse_document bytes.now ≡ Some (table_view table.now) }
    ensures { IfOk result (λ report.
        rule.IsRead bytes.now service.now (map promise_view stays.now) (string_bytes report.text) × (report.status ≡ 0)) }
{
    Ok(Checked {
        text: service_report(alloc, table, service, stays)?,
        status: 0,
    })
}

// The report that is the line about a refused text.
fn refused(line: String) -> Checked
    ensures text { string_bytes result.text ≡ string_bytes line }
    ensures status { result.status ≡ 2 }
{
    Checked {
        text: line,
        status: 2,
    }
}

// The report on a refused text.
fn refusal(
    alloc: Global,
    bytes: &[u8],
    table: &Table,
    error: &SourceError,
) -> Result<Checked, AllocError>
    requires { parse_document bytes.now ≡ Some (table_view table.now) }
    ensures { IfOk result (λ report. IsErrorLine bytes.now (fault_of error.now.fault) error.now.page (string_bytes report.text) × (report.status ≡ 2)) }
{
    Ok(refused(error_line(alloc, bytes, table, error)?))
}

// The report on a text whose service and promises are accepted, and whose stays may be refused.
fn stay_report(
    alloc: Global,
    bytes: &[u8],
    table: &Table,
    service: &Service,
) -> Result<Checked, AllocError>
    requires { parse_document bytes.now ≡ Some (table_view table.now) }
    ensures { IfOk result (λ report. rule.IsStayReport bytes.now service.now
        (promises_of (codes "stays") (table_view table.now)) (string_bytes report.text) report.status) }
{
    match stays_of_table(alloc, table) {
        Ok(stays) => accepted(alloc, bytes, table, service, &stays),
        Err(
            SourceError {
                fault: SourceFault::NoMemory,
                page: _,
            },
        ) => Err(AllocError),
        Err(error) => refusal(alloc, bytes, table, &error),
    }
}

// The report on a text whose service is accepted, and whose promises may be refused.
fn promised_report(
    alloc: Global,
    bytes: &[u8],
    table: &Table,
    service: &Service,
) -> Result<Checked, AllocError>
    requires utf8 { is_utf8 bytes.now ≡ true }
    requires parsed { parse_document bytes.now ≡ Some (table_view table.now) }
    ensures { IfOk result (λ report. rule.IsPromiseReport bytes.now service.now
        (promises_of (codes "within") (table_view table.now)) (string_bytes report.text) report.status) }
{
    match promises_of_table(alloc, table) {
        Ok(_) => stay_report(alloc, bytes, table, service),
        Err(
            SourceError {
                fault: SourceFault::NoMemory,
                page: _,
            },
        ) => Err(AllocError),
        Err(error) => refusal(alloc, bytes, table, &error),
    }
}

// The report on a text that is a TOML document.
fn table_report(alloc: Global, bytes: &[u8], table: &Table) -> Result<Checked, AllocError>
    requires utf8 { is_utf8 bytes.now ≡ true }
    requires parsed { parse_document bytes.now ≡ Some (table_view table.now) }
    ensures { IfOk result (λ report. rule.IsReportOf bytes.now (service_of (table_view table.now)) (string_bytes report.text) report.status) }
{
    match service_of_table(alloc, table) {
        Ok(service) => promised_report(alloc, bytes, table, &service),
        Err(
            SourceError {
                fault: SourceFault::NoMemory,
                page: _,
            },
        ) => Err(AllocError),
        Err(error) => refusal(alloc, bytes, table, &error),
    }
}

/// The report on a text: one line if the service, one of its promises or one of its stays is refused, otherwise the warnings. `Err` if memory runs out.
pub fn report(alloc: Global, bytes: &[u8]) -> Result<Checked, AllocError>
    ensures { IfOk result (λ report. rule.IsServiceReport bytes.now (string_bytes report.text) report.status) }
{
    match read_document(alloc, bytes)? {
        Some(document) => table_report(alloc, bytes, &document.table),
        None => Ok(refused(toml_line(alloc, bytes)?)),
    }
}
