//! The words about pages that come too late.

ghost use Rattle.std.specs.Prelude.{◌≡◌, ◌++◌, ◌==◌, [], if◌then◌else◌, codes, map, OnOk, IfOk, string_bytes};
ghost use Rattle.ttx_promise.specs.Views.{late_view};
ghost use Rattle.ttx_press.specs.Refusals as rule;

use std::alloc::{AllocError, Global};
use ttx_digits::push_id;
use ttx_promise::LatePage;

// Appends what goes before the page with this number, counted from 0.
fn push_separator(words: &mut String, number: usize) -> Result<(), AllocError>
    ensures { OnOk result (string_bytes words.new ≡ string_bytes words.old ++ (if number == 0 then [] else codes ", ")) }
{
    if number == 0 {
        Ok(())
    } else {
        words.push_str(", ")
    }
}

// Appends the fields that a viewer waits, and those that are allowed.
#[tactic(auto, unfolding(crate::specs::Refusals::numbers_words))]
fn push_fields(words: &mut String, fields: u32, promise: u32) -> Result<(), AllocError>
    ensures { OnOk result (string_bytes words.new ≡ string_bytes words.old ++ rule.numbers_words fields promise) }
{
    write!(words, " {fields} fields")?;
    write!(words, " of {promise}")
}

// Appends a page that comes too late.
#[tactic(auto, unfolding(crate::specs::Refusals::page_words))]
fn push_late(words: &mut String, late: LatePage) -> Result<(), AllocError>
    ensures { OnOk result (string_bytes words.new ≡ string_bytes words.old ++ rule.page_words (late_view late)) }
{
    push_id(words, late.page)?;
    push_fields(words, late.fields, late.promise)
}

// Appends a page that comes too late, after what goes before it.
fn push_part(words: &mut String, number: usize, late: LatePage) -> Result<(), AllocError>
    ensures { OnOk result (string_bytes words.new ≡ string_bytes words.old ++ rule.late_part number (late_view late)) }
{
    push_separator(words, number)?;
    push_late(words, late)
}

/// The words about pages that come too late.
pub fn late_words(alloc: Global, pages: &[LatePage]) -> Result<String, AllocError>
    ensures { IfOk result (λ words. string_bytes words ≡ rule.late_words (map late_view pages.now)) }
{
    let mut words = String::from_str(alloc, "late ")?;
    for number in 0..pages.len() {
        push_part(&mut words, number, pages[number])?;
    }
    Ok(words)
}
