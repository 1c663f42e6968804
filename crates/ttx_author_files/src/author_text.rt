//! `decompose`: the author's text of a service text.

ghost use Rattle.std.specs.Prelude.{◌≡◌, [], length, IfOk, IfErr, string_bytes};
ghost use Rattle.ttx_author_files.specs.Decomposing as rule;

use crate::service_text::filed;
use crate::translation::Translation;
use std::alloc::{AllocError, Global};
use ttx_desk::{DecomposeFault, Decomposed, decompose_service};
use ttx_files::{Filed, FilesFault};

// The line that says how many pages there are.
fn decomposed_line(alloc: Global, count: usize) -> Result<String, AllocError>
    ensures { IfOk result (λ line. string_bytes line ≡ rule.decomposed_line count) }
{
    format!(in alloc; "decomposed {count} pages\n")
}

// The status, the text and the line of a service text that is decomposed.
fn tell_text(alloc: Global, decomposed: Decomposed) -> Result<Filed<u8>, FilesFault>
    ensures told { IfOk result (λ told. (told.verdict ≡ 0) × (told.file.items ≡ string_bytes decomposed.text)
        × (string_bytes told.line ≡ rule.decomposed_line (length decomposed.service.pages))) }
    ensures fault { IfErr result (λ fault. fault ≡ FilesFault.NoMemory) }
{
    let line = decomposed_line(alloc, decomposed.service.pages().len());
    filed(0, decomposed.text.into_bytes(), line)
}

// The line about a service text for which no author's text was found.
fn unsaid_line(alloc: Global, name: &str) -> Result<String, AllocError>
    ensures { IfOk result (λ line. string_bytes line ≡ rule.unsaid_line name.now) }
{
    let mut line = String::from_str(alloc, name)?;
    line.push_str(
        ": error: this cannot be written as an author's text; a key author stands only in authors' texts\n",
    )?;
    Ok(line)
}

// The status, no text, and the line about such a service text.
fn tell_unsaid(alloc: Global, name: &str) -> Result<Filed<u8>, FilesFault>
    ensures told { IfOk result (λ told. (told.verdict ≡ 1) × (told.file.items ≡ []) × (string_bytes told.line ≡ rule.unsaid_line name.now)) }
    ensures fault { IfErr result (λ fault. fault ≡ FilesFault.NoMemory) }
{
    filed(1, Vec::new(alloc), unsaid_line(alloc, name))
}

/// Translates the text of a service into the author's text of it: the line has the number of its pages, and the status is 0. If there is
/// no author's text, for example for a service with a key `author`, there is no text and a line that says so: the status is 1. The name is
/// that of the service text, in this line and in the first comment of the author's text.
pub struct Decompose;

impl Translation for Decompose {
    ghost says = { rule.IsToldBy };

    ghost refuses = { rule.IsRefusedService };

    fn tell(alloc: Global, name: &str, bytes: &[u8]) -> Result<Filed<u8>, FilesFault> {
        match decompose_service(alloc, bytes, name) {
            Ok(decomposed) => tell_text(alloc, decomposed),
            Err(DecomposeFault::Service(error)) => Err(FilesFault::Service(error)),
            Err(DecomposeFault::Unsaid) => tell_unsaid(alloc, name),
            Err(DecomposeFault::NoMemory) => Err(FilesFault::NoMemory),
        }
    }
}
