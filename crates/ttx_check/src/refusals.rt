//! The line about a text that is refused.

ghost use Rattle.std.specs.Prelude.{◌≡◌, ◌++◌, IfOk, OnOk, Some, string_bytes};
ghost use Rattle.toml.specs.Parse.{parse_document};
ghost use Rattle.toml.specs.View.{table_view};
ghost use Rattle.ttx_source.specs.Faults.{fault_of};
ghost use Rattle.ttx_source.specs.Values.{not_toml};
ghost use Rattle.ttx_places.specs.Places.{place_of};
ghost use Rattle.ttx_check.specs.Refusals.{fault_words, error_line, is_toml, after_space, position_text, place_text, IsTableLine, IsTomlLine, IsErrorLine};

use crate::spots::{after_colon, spot_of};
use crate::texts::push_both;
use std::alloc::{AllocError, Global};
use toml::Table;
use ttx_digits::push_decimal;
use ttx_places::{Position, place_of, position_of};
use ttx_source::{SourceError, SourceFault};

/// Adds the words of a fault.
pub fn push_words(text: &mut String, fault: SourceFault) -> Result<(), AllocError>
    ensures { OnOk result (string_bytes text.new ≡ string_bytes text.old ++ fault_words (fault_of fault)) }
{
    match fault {
        SourceFault::NotToml => text.push_str("this isn't TOML"),
        SourceFault::Missing { key } => push_both(text, key, " is missing"),
        SourceFault::Kind { key } => push_both(text, key, " takes another kind of value"),
        SourceFault::PageNumber => text.push_str("this names no page"),
        SourceFault::Subcode => text.push_str("this is no subcode"),
        SourceFault::Duplicate => text.push_str("an earlier page has this number and subcode"),
        SourceFault::RowTooLong => text.push_str("the text is too long"),
        SourceFault::Character => text.push_str("a character can't be sent"),
        SourceFault::Often => text.push_str("often takes 1, 2, 4 or 8"),
        SourceFault::Range { key } => push_both(text, key, " is out of range"),
        SourceFault::NoMemory => Ok(()),
    }
}

// Adds the text about a fault that follows its place.
fn push_fault(line: &mut String, fault: SourceFault, detail: &str) -> Result<(), AllocError>
    ensures { OnOk result (string_bytes line.new ≡ error_line (string_bytes line.old) (fault_of fault) detail.now) }
{
    line.push_str(": ")?;
    push_words(line, fault)?;
    line.push_str(detail)?;
    line.push('\n')
}

// Whether a fault occurs only in texts that are TOML.
fn is_toml(fault: SourceFault) -> bool
    ensures { result ≡ is_toml (fault_of fault) }
{
    !matches!(fault, SourceFault::NotToml)
}

// The place in a text where a path leads.
fn place_in(alloc: Global, bytes: &[u8], path: &str) -> Result<Option<usize>, AllocError>
    ensures { IfOk result (λ place. place_of path.now bytes.now ≡ Some place) }
{
    match std::str::from_utf8(bytes) {
        Ok(text) => place_of(alloc, text, path),
        Err(_) => Err(AllocError),
    }
}

// Adds the name of the value, if it has one.
fn push_name(text: &mut String, name: &str) -> Result<(), AllocError>
    ensures { OnOk result (string_bytes text.new ≡ string_bytes text.old ++ after_space name.now) }
{
    if name.is_empty() {
        Ok(())
    } else {
        push_both(text, " ", name)
    }
}

// The text of a position.
fn position_text(alloc: Global, at: Position) -> Result<String, AllocError>
    ensures { IfOk result (λ text. string_bytes text ≡ position_text at.line at.column) }
{
    let mut text = String::from_str(alloc, "line ")?;
    push_decimal(&mut text, at.line)?;
    text.push_str(" column ")?;
    push_decimal(&mut text, at.column)?;
    Ok(text)
}

// The text of a place: line and column, if they are known, and the name of the value.
fn place_text(
    alloc: Global,
    bytes: &[u8],
    place: Option<usize>,
    name: &str,
) -> Result<String, AllocError>
    ensures { IfOk result (λ text. string_bytes text ≡ place_text bytes.now place name.now) }
{
    match place {
        Some(place) => {
            let mut text = position_text(alloc, position_of(bytes, place))?;
            push_name(&mut text, name)?;
            Ok(text)
        }
        None => String::from_str(alloc, name),
    }
}

// The line about a fault, at the place with this name.
fn line_of(
    alloc: Global,
    fault: SourceFault,
    place: &str,
    detail: &str,
) -> Result<String, AllocError>
    ensures { IfOk result (λ line. string_bytes line ≡ error_line place.now (fault_of fault) detail.now) }
{
    let mut line = String::from_str(alloc, place)?;
    push_fault(&mut line, fault, detail)?;
    Ok(line)
}

// The line about a fault in a text that has this table.
fn table_line(
    alloc: Global,
    bytes: &[u8],
    table: &Table,
    error: &SourceError,
) -> Result<String, AllocError>
    requires { parse_document bytes.now ≡ Some (table_view table.now) }
    ensures { IfOk result (λ line. IsTableLine bytes.now (fault_of error.now.fault) error.now.page (string_bytes line)) }
{
    let spot = spot_of(alloc, table, error)?;
    let place = place_in(alloc, bytes, spot.path.as_str())?;
    let place = place_text(alloc, bytes, place, spot.name.as_str())?;
    line_of(alloc, error.fault, place.as_str(), spot.detail.as_str())
}

/// The line about a text that is not TOML, or not UTF-8.
pub fn toml_line(alloc: Global, bytes: &[u8]) -> Result<String, AllocError>
    ensures { IfOk result (λ line. IsTomlLine bytes.now not_toml (string_bytes line)) }
{
    let Err(error) = toml::table_from_slice(alloc, bytes) else {
        return Err(AllocError);
    };
    let Some(span) = error.span() else {
        return Err(AllocError);
    };
    let place = place_text(alloc, bytes, Some(span.start), "")?;
    let detail = after_colon(alloc, error.message())?;
    line_of(alloc, SourceFault::NotToml, place.as_str(), detail.as_str())
}

/// The line about a fault in a text that has this table.
pub fn error_line(
    alloc: Global,
    bytes: &[u8],
    table: &Table,
    error: &SourceError,
) -> Result<String, AllocError>
    requires { parse_document bytes.now ≡ Some (table_view table.now) }
    ensures { IfOk result (λ line. IsErrorLine bytes.now (fault_of error.now.fault) error.now.page (string_bytes line)) }
{
    if is_toml(error.fault) {
        table_line(alloc, bytes, table, error)
    } else {
        toml_line(alloc, bytes)
    }
}
