//! The explanation of a reason.

ghost use Rattle.std.specs.Prelude.{◌≡◌, ◌<◌, IfOk, find, length, string_bytes};
ghost use Rattle.ttx_reasons.specs.Entries.{is_named, entry_text, unknown_line, IsExplained};

use crate::entry::Entry;
use crate::names::nearest;
use std::alloc::{AllocError, Global};

/// The explanation of a word, and whether it is a reason.
#[derive(Drop)]
pub struct Explained {
    pub known: bool,
    pub text: String,
}

// Whether the word is the key or the name of the reason.
fn is_named(entry: &Entry, word: &str) -> bool
    ensures { result ≡ is_named word.now entry.now }
{
    entry.key == word || entry.name == word
}

// The first reason of a table whose key or name is the word.
fn find_entry(table: &[Entry], word: &str) -> Option<Entry>
    ensures { result ≡ find (is_named word.now) table.now }
{
    for entry in table {
        if is_named(entry, word) {
            return Some(*entry);
        }
    }
    None
}

// The text that explains a reason.
fn entry_text(alloc: Global, entry: &Entry) -> Result<String, AllocError>
    ensures { IfOk result (λ text. string_bytes text ≡ entry_text entry.now) }
{
    let (line, meaning, remedy) = (entry.line, entry.meaning, entry.remedy);
    format!(in alloc; "{line}\n\n{meaning}\n\n{remedy}\n")
}

// The line for a word that is no reason, with a name that is near to it.
fn unknown_line(alloc: Global, name: &str) -> Result<String, AllocError>
    ensures { IfOk result (λ text. string_bytes text ≡ unknown_line name.now) }
{
    format!(in alloc; "refused: reason: is it {name}?\n")
}

// The words about a word that is no reason.
fn unknown(alloc: Global, table: &[Entry], word: &str) -> Result<Explained, AllocError>
    requires some { 0 < length table.now }
    requires none { find (is_named word.now) table.now ≡ None }
    ensures { IfOk result (λ explained. IsExplained table.now word.now explained.known (string_bytes explained.text)) }
{
    let near = nearest(alloc, table, word)?;
    let text = unknown_line(alloc, near.name)?;
    Ok(Explained { known: false, text })
}

/// The explanation of a word by a table of reasons, which is not empty: for a reason, by its key or its name, its line, what it means and what
/// to do; of another word, the nearest name.
pub fn explain(alloc: Global, table: &[Entry], word: &str) -> Result<Explained, AllocError>
    requires { 0 < length table.now }
    ensures { IfOk result (λ explained. IsExplained table.now word.now explained.known (string_bytes explained.text)) }
{
    match find_entry(table, word) {
        Some(entry) => Ok(Explained {
            known: true,
            text: entry_text(alloc, &entry)?,
        }),
        None => unknown(alloc, table, word),
    }
}
