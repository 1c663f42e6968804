//! What an author can do about a mark that has no code.

ghost use Rattle.std.specs.Prelude.{◌≡◌, ◌<◌, ◌≤◌, length, map, nat_lt, IfOk};
ghost use Rattle.std.specs.List.{IsFirstBest};
ghost use Rattle.ttx_author.specs.Tags.{names};
ghost use Rattle.ttx_author.specs.Remedies as rule;

use crate::signs::has_character;
use crate::tags::name_at;
use std::alloc::{AllocError, Global};
use strsim::generic_levenshtein;

/// For each national option, 0 to 7, whether it has a character.
pub fn options_with(character: char) -> [bool; 8]
    ensures { result ≡ rule.options_with character }
{
    let mut options = [false; 8];
    for option in 0..8u8 {
        options[usize::from(option)] = has_character(option, character);
    }
    options
}

// How many characters have to be inserted, left out or changed.
fn edits(alloc: Global, known: &str, name: &[char]) -> Result<usize, AllocError>
    ensures { IfOk result (λ count. count ≡ rule.edits known.now name.now) }
{
    let known: Vec<char> = known.chars().collect(alloc)?;
    generic_levenshtein(alloc, known.as_slice(), name)
}

// How far each name is from this one.
fn all_edits(alloc: Global, name: &[char]) -> Result<[usize; 34], AllocError>
    ensures { IfOk result (λ counts. counts ≡ map (λ known. rule.edits known name.now) names) }
{
    let mut counts = [0; 34];
    for index in 0..34 {
        counts[index] = edits(alloc, name_at(index), name)?;
    }
    Ok(counts)
}

// The index of the first of the least counts.
fn least(counts: &[usize; 34]) -> usize
    ensures best { IsFirstBest nat_lt counts.now 34 result }
    ensures range { result < 34 }
{
    let mut best = 0;
    for index in 1..34 {
        if counts[index] < counts[best] {
            best = index;
        }
    }
    best
}

/// The name of a tag that is nearest to what an author wrote in braces; of several, the first.
pub fn nearest_tag(alloc: Global, name: &[char]) -> Result<&'static str, AllocError>
    ensures { IfOk result (λ nearest. rule.IsNearest name.now nearest.now) }
{
    let counts = all_edits(alloc, name)?;
    Ok(name_at(least(&counts)))
}
