//! The reason whose name is nearest to a word.

ghost use Rattle.std.specs.Prelude.{◌≡◌, ◌<◌, ◌≤◌, ℕ, length, map, nat_lt, IfOk};
ghost use Rattle.std.specs.List.{IsFirstBest};
ghost use Rattle.ttx_reasons.specs.Entries.{edits, distances, IsNearest};

use crate::entry::Entry;
use std::alloc::{AllocError, Global};
use strsim::levenshtein;

// How many characters have to be inserted, left out or changed.
fn edits(alloc: Global, name: &str, word: &str) -> Result<usize, AllocError>
    ensures { IfOk result (λ count. count ≡ edits word.now name.now) }
{
    levenshtein(alloc, name, word)
}

// How far each name of the table is from the word.
fn distances(alloc: Global, table: &[Entry], word: &str) -> Result<Vec<usize>, AllocError>
    ensures { IfOk result (λ counts. counts.items ≡ distances word.now table.now) }
{
    let mut counts = Vec::new(alloc);
    for entry in table {
        counts.push(edits(alloc, entry.name, word)?)?;
    }
    Ok(counts)
}

// The index of the first of the least counts.
fn least(counts: &[usize]) -> usize
    requires { 0 < length counts.now }
    ensures best { IsFirstBest nat_lt counts.now (length counts.now) result }
    ensures range { result < length counts.now }
{
    let mut best = 0;
    for index in 1..counts.len() {
        if counts[index] < counts[best] {
            best = index;
        }
    }
    best
}

/// The reason of a table, which is not empty, whose name is nearest to the word; of several, the first.
pub fn nearest(alloc: Global, table: &[Entry], word: &str) -> Result<Entry, AllocError>
    requires { 0 < length table.now }
    ensures { IfOk result (λ entry. IsNearest table.now word.now entry) }
{
    let counts = distances(alloc, table, word)?;
    Ok(table[least(counts.as_slice())])
}
