//! The author's text of a service text.

ghost use Rattle.std.specs.Prelude.{◌≡◌, ◌∷◌, [], Some, Ok, IfOk, IfErr, IfSome, IsTrue, string_bytes};
ghost use Rattle.toml.specs.View.{table_view};
ghost use Rattle.ttx_desk.specs.Services.{service_table, mistakes};
ghost use Rattle.ttx_desk.specs.Composing.{author_in, BeginsWith};
ghost use Rattle.ttx_desk.specs.Decomposing as rule;

use crate::author_text::{author_of, author_text, with_first_lines};
use crate::composition::plain_text;
use crate::depths::is_within;
use crate::translation::service_of;
use std::alloc::{AllocError, Global};
use toml::Table;
use ttx_source::{Service, SourceError, read_document, read_service};

/// An author's text, and the service that it means.
#[derive(Drop)]
pub struct Decomposed {
    pub text: String,
    pub service: Service,
}

/// Why there is no author's text.
#[derive(Clone, Copy)]
pub enum DecomposeFault {
    /// The service text is refused; also if an allocation failed while it was read.
    Service(SourceError),
    /// The author's text would mean another table: a service text that has the key `author`.
    Unsaid,
    /// An allocation failed.
    NoMemory,
}

// Whether an author's text means a table.
fn means(alloc: Global, author: &str, plain: &str) -> Result<bool, AllocError>
    ensures { IfOk result (λ means. IsTrue means → rule.Means author.now plain.now) }
{
    let table = match toml::table_from_str(alloc, author) {
        Ok(table) => table,
        Err(error) if error.is_memory() => return Err(AllocError),
        Err(_) => return Ok(false),
    };
    let Ok(translated) = service_of(alloc, &table) else {
        return Err(AllocError);
    };
    if !translated.mistakes.is_empty() {
        return Ok(false);
    }
    match plain_text(alloc, &translated.table) {
        Some(text) => Ok(text.as_str() == plain),
        None => Err(AllocError),
    }
}

// The author's text of what is printed plainly: everything with further tables inside pages.
fn bare_text(alloc: Global, author: &Table, source: &str) -> Result<String, AllocError>
    ensures { IfOk result (λ text. BeginsWith (rule.first_lines source.now) (string_bytes text)) }
{
    match plain_text(alloc, author) {
        Some(table) => with_first_lines(alloc, source, table.as_str()),
        None => Err(AllocError),
    }
}

// The same, if it means a table.
fn bare_meaning(
    alloc: Global,
    author: &Table,
    source: &str,
    plain: &str,
) -> Result<String, DecomposeFault>
    ensures text { IfOk result (λ text. rule.Means (string_bytes text) plain.now) }
    ensures begins { IfOk result (λ text. BeginsWith (rule.first_lines source.now) (string_bytes text)) }
    ensures refused { IfErr result rule.IsUnsaid }
{
    let Ok(text) = bare_text(alloc, author, source) else {
        return Err(DecomposeFault::NoMemory);
    };
    match means(alloc, text.as_str(), plain) {
        Ok(true) => Ok(text),
        Ok(false) => Err(DecomposeFault::Unsaid),
        Err(_) => Err(DecomposeFault::NoMemory),
    }
}

// An author's text that means a table.
fn text_meaning(
    alloc: Global,
    table: &Table,
    source: &str,
    plain: &str,
) -> Result<String, DecomposeFault>
    ensures text { IfOk result (λ text. rule.Means (string_bytes text) plain.now) }
    ensures begins { IfOk result (λ text. BeginsWith (rule.first_lines source.now) (string_bytes text)) }
    ensures refused { IfErr result rule.IsUnsaid }
{
    let Ok(author) = author_of(alloc, table) else {
        return Err(DecomposeFault::NoMemory);
    };
    let Ok(text) = author_text(alloc, &author, source) else {
        return Err(DecomposeFault::NoMemory);
    };
    match means(alloc, text.as_str(), plain) {
        Ok(true) => Ok(text),
        Ok(false) => bare_meaning(alloc, &author, source, plain),
        Err(_) => Err(DecomposeFault::NoMemory),
    }
}

// The author's text of the table of a service.
fn decompose_table(alloc: Global, table: &Table, source: &str) -> Result<String, DecomposeFault>
    ensures text { IfOk result (λ text. rule.IsAuthorOf (string_bytes text) (table_view table.now)) }
    ensures begins { IfOk result (λ text. BeginsWith (rule.first_lines source.now) (string_bytes text)) }
    ensures refused { IfErr result rule.IsUnsaid }
{
    if !is_within(table, 80) {
        return Err(DecomposeFault::Unsaid);
    }
    match plain_text(alloc, table) {
        Some(plain) => text_meaning(alloc, table, source, plain.as_str()),
        None => Err(DecomposeFault::NoMemory),
    }
}

// The author's text of a service text that is accepted.
fn decompose_text(alloc: Global, service: &[u8], source: &str) -> Result<String, DecomposeFault>
    ensures text { IfOk result (λ text. rule.IsAuthorText (string_bytes text) service.now) }
    ensures begins { IfOk result (λ text. BeginsWith (rule.first_lines source.now) (string_bytes text)) }
    ensures refused { IfErr result rule.IsUnsaid }
{
    match read_document(alloc, service) {
        Ok(Some(document)) => decompose_table(alloc, &document.table, source),
        _ => Err(DecomposeFault::NoMemory),
    }
}

/// The author's text of a service text: characters as they are seen, control codes by names, a national option by its name. Its table means
/// exactly the table of the service text, so composed again it gives the same service. `source` is the name of the service text; the first
/// line is a comment that names it, and the second the key that marks an author's text. Before it is returned, the text is read again.
/// Comments are not kept.
pub fn decompose_service(
    alloc: Global,
    service: &[u8],
    source: &str,
) -> Result<Decomposed, DecomposeFault>
    ensures answer { rule.Decomposes service.now result }
    ensures begins { IfOk result (λ d. BeginsWith (rule.first_lines source.now) (string_bytes d.text)) }
{
    let read = match read_service(alloc, service) {
        Ok(read) => read,
        Err(error) => return Err(DecomposeFault::Service(error)),
    };
    match decompose_text(alloc, service, source) {
        Ok(text) => Ok(Decomposed {
            text,
            service: read,
        }),
        Err(fault) => Err(fault),
    }
}

/// The author's text alone.
pub fn decompose(alloc: Global, service: &[u8], source: &str) -> Result<String, DecomposeFault>
    ensures answer { rule.DecomposesText service.now result }
    ensures begins { IfOk result (λ text. BeginsWith (rule.first_lines source.now) (string_bytes text)) }
{
    match decompose_service(alloc, service, source) {
        Ok(decomposed) => Ok(decomposed.text),
        Err(fault) => Err(fault),
    }
}
