//! The service text of an author's text.

ghost use Rattle.std.specs.Prelude.{◌≡◌, ◌++◌, ◌<◌, ◌≤◌, ℕ, List, [], Some, None, Ok, Err, IfOk, IfErr, IfSome, IsTrue, MatchResult, string_bytes, length};
ghost use Rattle.toml.specs.Parse.{parse_document};
ghost use Rattle.toml.specs.View.{table_view};
ghost use Rattle.ttx_source.specs.Faults.{fault_of};
ghost use Rattle.ttx_source.specs.Services.{read_bytes};
ghost use Rattle.ttx_desk.specs.Services.{service_table, mistakes};
ghost use Rattle.ttx_desk.specs.Said.{SaysTexts};
ghost use Rattle.ttx_desk.specs.Composing as rule;

use crate::comments::page_comments;
use crate::depths::is_within;
use crate::mistakes::Mistake;
use crate::said::says_texts;
use crate::service_text::push_service;
use crate::translation::service_of;
use std::alloc::{AllocError, Global};
use toml::Table;
use ttx_source::{Service, SourceError, SourceFault, read_document, read_service};

/// A service text, and its service.
#[derive(Drop)]
pub struct Composed {
    pub text: String,
    pub service: Service,
}

/// Why there is no service text.
#[derive(Drop)]
pub enum ComposeFault {
    /// The bytes are not UTF-8, or the text is not a TOML document.
    NotToml,
    /// The mistakes of the author's text, at least one.
    Mistakes(Vec<Mistake>),
    /// The service text is refused.
    Service(SourceError),
    /// The text would be read back as another table than it was written from.
    Unsaid,
    /// An allocation failed.
    NoMemory,
}

/// A table as TOML text that is read back as the same table.
pub(crate) fn plain_text(alloc: Global, table: &Table) -> Option<String>
    ensures { IfSome result (λ text. parse_document (string_bytes text) ≡ Some (table_view table.now)) }
{
    if !is_within(table, 80) {
        return None;
    }
    match toml::table_to_string(alloc, table) {
        Ok(text) => Some(text),
        Err(_) => None,
    }
}

// Whether a text is read as the same table as a plain text. A table that was read is not too deep to be printed.
fn is_read_as(alloc: Global, text: &str, plain: &str) -> Result<bool, AllocError>
    ensures { IfOk result (λ read. IsTrue read → parse_document text.now ≡ parse_document plain.now) }
{
    let table = match toml::table_from_str(alloc, text) {
        Ok(table) => table,
        Err(error) if error.is_memory() => return Err(AllocError),
        Err(_) => return Ok(false),
    };
    match plain_text(alloc, &table) {
        Some(again) => Ok(again.as_str() == plain),
        None => Err(AllocError),
    }
}

// Whether a name has no control characters.
fn is_printed(name: &str) -> bool
    ensures { result ≡ rule.is_printed name.now }
{
    name.as_bytes().iter().all(|c| 32 <= *c && *c != 127)
}

/// A name without control characters.
pub(crate) fn printed_name(name: &str) -> &str
    ensures { result.now ≡ rule.printed_name name.now }
{
    if is_printed(name) {
        name
    } else {
        "another text"
    }
}

// Begins a text with the comment that names its source.
#[tactic(auto, unfolding(crate::specs::Composing::first_comment))]
fn first_comment(alloc: Global, source: &str) -> Result<String, AllocError>
    ensures { IfOk result (λ text. string_bytes text ≡ rule.first_comment source.now) }
{
    let mut text = String::new(alloc);
    text.push_str("# Composed from ")?;
    text.push_str(printed_name(source))?;
    text.push_str(" by ttx compose: change that text, and compose it again.\n")?;
    Ok(text)
}

// The text of the table of a service with the author's comments before pages.
fn body(alloc: Global, author: &str, table: &Table) -> Result<String, AllocError> {
    let comments = page_comments(alloc, author)?;
    let mut body = String::new(alloc);
    push_service(alloc, &mut body, table, comments.as_slice())?;
    Ok(body)
}

// A text after the comment that names its source.
fn with_comment(alloc: Global, source: &str, body: &str) -> Result<String, AllocError>
    ensures { IfOk result (λ text. string_bytes text ≡ rule.first_comment source.now ++ body.now) }
{
    let mut text = first_comment(alloc, source)?;
    text.push_str(body)?;
    Ok(text)
}

// A service text that is read back as the table: with the author's comments before pages, or without them.
fn service_text(
    alloc: Global,
    author: &str,
    table: &Table,
    source: &str,
) -> Result<String, ComposeFault>
    ensures table { IfOk result (λ text. parse_document (string_bytes text) ≡ Some (table_view table.now)) }
    ensures comment { IfOk result (λ text. rule.BeginsWith (rule.first_comment source.now) (string_bytes text)) }
    ensures refused { IfErr result rule.IsUnsaid }
{
    if !is_within(table, 80) {
        return Err(ComposeFault::Unsaid);
    }
    let Some(plain) = plain_text(alloc, table) else {
        return Err(ComposeFault::NoMemory);
    };
    let Ok(body) = body(alloc, author, table) else {
        return Err(ComposeFault::NoMemory);
    };
    let Ok(text) = with_comment(alloc, source, body.as_str()) else {
        return Err(ComposeFault::NoMemory);
    };
    match is_read_as(alloc, text.as_str(), plain.as_str()) {
        Ok(true) => Ok(text),
        Ok(false) => bare_text(alloc, plain.as_str(), source),
        Err(_) => Err(ComposeFault::NoMemory),
    }
}

// A plain text after the comment that names its source.
fn bare_text(alloc: Global, plain: &str, source: &str) -> Result<String, ComposeFault>
    ensures table { IfOk result (λ text. parse_document (string_bytes text) ≡ parse_document plain.now) }
    ensures comment { IfOk result (λ text. rule.BeginsWith (rule.first_comment source.now) (string_bytes text)) }
    ensures refused { IfErr result rule.IsUnsaid }
{
    let Ok(text) = with_comment(alloc, source, plain) else {
        return Err(ComposeFault::NoMemory);
    };
    match is_read_as(alloc, text.as_str(), plain) {
        Ok(true) => Ok(text),
        Ok(false) => Err(ComposeFault::Unsaid),
        Err(_) => Err(ComposeFault::NoMemory),
    }
}

// A refusal, or lack of memory.
fn fault_for(error: SourceError) -> ComposeFault
    ensures { rule.IsFaultFor error result }
{
    match error.fault {
        SourceFault::NoMemory => ComposeFault::NoMemory,
        _ => ComposeFault::Service(error),
    }
}

// The service of a text.
fn read_text(alloc: Global, text: &str) -> Result<Service, ComposeFault>
    ensures service { IfOk result (λ service. read_bytes text.now ≡ Ok service) }
    ensures refused { IfErr result (rule.IsRefusedText text.now) }
{
    match read_service(alloc, text.as_bytes()) {
        Ok(service) => Ok(service),
        Err(error) => Err(fault_for(error)),
    }
}

// A text with its service, which has what the author wrote.
fn read_composed(alloc: Global, author: &Table, text: String) -> Result<Composed, ComposeFault>
    ensures ok { IfOk result (λ composed. (composed.text ≡ text) × (read_bytes (string_bytes text) ≡ Ok composed.service)
        × SaysTexts (table_view author.now) composed.service) }
    ensures refused { IfErr result (rule.IsRefusedText (string_bytes text)) }
{
    let service = match read_text(alloc, text.as_str()) {
        Ok(service) => service,
        Err(fault) => return Err(fault),
    };
    match says_texts(alloc, author, &service) {
        Ok(true) => Ok(Composed { text, service }),
        Ok(false) => Err(ComposeFault::Unsaid),
        Err(_) => Err(ComposeFault::NoMemory),
    }
}

// The service text of an author's table.
fn compose_table(
    alloc: Global,
    author: &str,
    table: &Table,
    source: &str,
) -> Result<Composed, ComposeFault>
    ensures answer { rule.ComposesTable (table_view table.now) result }
    ensures comment { IfOk result (λ c. rule.BeginsWith (rule.first_comment source.now) (string_bytes c.text)) }
{
    let Ok(translated) = service_of(alloc, table) else {
        return Err(ComposeFault::NoMemory);
    };
    if !translated.mistakes.is_empty() {
        return Err(ComposeFault::Mistakes(translated.mistakes));
    }
    match service_text(alloc, author, &translated.table, source) {
        Ok(text) => read_composed(alloc, table, text),
        Err(fault) => Err(fault),
    }
}

/// The service text of an author's text, and the service that it says. `source` is the name of the author's text; the first line is a
/// comment that names it, and the author's comments before pages are kept. All mistakes are returned, if there is one; otherwise the fault
/// for which the service text is refused. Before it is returned, the text is read again.
pub fn compose(alloc: Global, author: &[u8], source: &str) -> Result<Composed, ComposeFault>
    ensures answer { rule.Composes (rule.author_in author.now) result }
    ensures comment { IfOk result (λ c. rule.BeginsWith (rule.first_comment source.now) (string_bytes c.text)) }
{
    match read_document(alloc, author) {
        Ok(Some(document)) => compose_table(alloc, document.text, &document.table, source),
        Ok(None) => Err(ComposeFault::NotToml),
        Err(_) => Err(ComposeFault::NoMemory),
    }
}
