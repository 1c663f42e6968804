//! `compose`: the service text of an author's text, or its mistakes.

ghost use Rattle.std.specs.Prelude.{◌≡◌, [], Ok, length, IfOk, IfErr, string_bytes};
ghost use Rattle.ttx_author_files.specs.Composing as rule;

use crate::author_reports::reported_author;
use crate::translation::Translation;
use std::alloc::{AllocError, Global};
use ttx_desk::{ComposeFault, Composed, compose, mistakes_report, toml_report};
use ttx_files::{Filed, FilesFault};
use ttx_mistakes::Style;

// The line that says how many pages there are.
fn composed_line(alloc: Global, count: usize) -> Result<String, AllocError>
    ensures { IfOk result (λ line. string_bytes line ≡ rule.composed_line count) }
{
    format!(in alloc; "composed {count} pages\n")
}

// The line about an author's text whose service text would be read back as another table.
fn unsaid_line(alloc: Global, name: &str) -> Result<String, AllocError>
    ensures { IfOk result (λ line. string_bytes line ≡ rule.unsaid_line name.now) }
{
    let mut line = String::from_str(alloc, name)?;
    line.push_str(": error: the service text would be read as another\n")?;
    Ok(line)
}

/// A status, a text and a line, unless memory ran out.
pub(crate) fn filed(
    verdict: u8,
    file: Vec<u8>,
    line: Result<String, AllocError>,
) -> Result<Filed<u8>, FilesFault>
    ensures told { IfOk result (λ told. (told.verdict ≡ verdict) × (told.file.items ≡ file.items) × (line ≡ Ok told.line)) }
    ensures fault { IfErr result (λ fault. fault ≡ FilesFault.NoMemory) }
{
    match line {
        Ok(line) => Ok(Filed {
            verdict,
            file,
            line,
        }),
        Err(_) => Err(FilesFault::NoMemory),
    }
}

// The status, the text and the line of an author's text that is composed.
fn tell_text(alloc: Global, composed: Composed) -> Result<Filed<u8>, FilesFault>
    ensures told { IfOk result (λ told. (told.verdict ≡ 0) × (told.file.items ≡ string_bytes composed.text)
        × (string_bytes told.line ≡ rule.composed_line (length composed.service.pages))) }
    ensures fault { IfErr result (λ fault. fault ≡ FilesFault.NoMemory) }
{
    let line = composed_line(alloc, composed.service.pages().len());
    filed(0, composed.text.into_bytes(), line)
}

// The lines about an author's text whose service text is refused: those that `check` writes.
fn service_lines(alloc: Global, name: &str, author: &[u8]) -> Result<String, AllocError>
    ensures { IfOk result (λ lines. rule.IsServiceLines name.now author.now (string_bytes lines)) }
{
    let style = Style {
        file: name,
        long: false,
        strict: false,
    };
    let report = reported_author(alloc, author, style)?;
    match String::from_utf8(report.text) {
        Ok(lines) => Ok(lines),
        Err(_) => Err(AllocError),
    }
}

/// The lines about an author's text that has no service text.
pub(crate) fn refusal(
    alloc: Global,
    name: &str,
    author: &[u8],
    fault: &ComposeFault,
) -> Result<String, AllocError>
    ensures { IfOk result (λ lines. rule.IsRefusal name.now author.now fault.now (string_bytes lines)) }
{
    match fault {
        ComposeFault::NotToml => toml_report(alloc, name, author),
        ComposeFault::Mistakes(found) => mistakes_report(alloc, name, author, found.as_slice()),
        ComposeFault::Unsaid => unsaid_line(alloc, name),
        ComposeFault::Service(_) => service_lines(alloc, name, author),
        ComposeFault::NoMemory => Err(AllocError),
    }
}

// The status, no text, and the lines about an author's text that has no service text.
fn tell_lines(
    alloc: Global,
    name: &str,
    author: &[u8],
    fault: &ComposeFault,
) -> Result<Filed<u8>, FilesFault>
    ensures told { IfOk result (λ told. (told.verdict ≡ 1) × (told.file.items ≡ [])
        × rule.IsRefusal name.now author.now fault.now (string_bytes told.line)) }
    ensures fault { IfErr result (λ fault. fault ≡ FilesFault.NoMemory) }
{
    filed(1, Vec::new(alloc), refusal(alloc, name, author, fault))
}

/// Translates an author's text into the service text that it means: the line has the number of its pages, and the status is 0. Where the text
/// has mistakes, is not TOML or is no service, there is no text and a line for each mistake, with its place, and their number: the status is
/// 1. The name is that of the author's text, in the lines and in the first comment of the service text.
pub struct Compose;

impl Translation for Compose {
    ghost says = { rule.IsToldBy };

    ghost refuses = { λ bytes error. ⊥ };

    fn tell(alloc: Global, name: &str, bytes: &[u8]) -> Result<Filed<u8>, FilesFault> {
        match compose(alloc, bytes, name) {
            Ok(composed) => tell_text(alloc, composed),
            Err(fault) => tell_lines(alloc, name, bytes, &fault),
        }
    }
}
