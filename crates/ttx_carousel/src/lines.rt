//! The lines of numbers that stay too short, and of what else a plan with stays misses.

ghost use Rattle.std.specs.Prelude.{◌≡◌, ◌++◌, IfOk, OnOk, string_bytes};
ghost use Rattle.ttx_carousel.specs.StayLines as lines;

use crate::faults::{Missed, ShortStay};
use std::alloc::{AllocError, Global};
use ttx_digits::push_id;
use ttx_header::PageId;
use ttx_numbers::push_number;
use ttx_promise::late_lines;

// Appends the number.
#[tactic(auto, unfolding(crate::specs::StayLines::number_words))]
fn push_name(text: &mut String, number: PageId) -> Result<(), AllocError>
    ensures { OnOk result (string_bytes text.new ≡ string_bytes text.old ++ lines.number_words number) }
{
    text.push_str("stays ")?;
    push_number(text, number)
}

// Appends the fields for which its pages stay, and those of the promise.
#[tactic(auto, unfolding(crate::specs::StayLines::fields_words))]
fn push_fields(text: &mut String, fields: usize, promise: u32) -> Result<(), AllocError>
    ensures { OnOk result (string_bytes text.new ≡ string_bytes text.old ++ lines.fields_words fields promise) }
{
    write!(text, " {fields} fields")?;
    write!(text, " of {promise}")
}

// Appends the line of a number.
#[tactic(auto, unfolding(crate::specs::StayLines::stay_line))]
fn push_short(text: &mut String, short: ShortStay) -> Result<(), AllocError>
    ensures { OnOk result (string_bytes text.new ≡ string_bytes text.old ++ lines.stay_line short) }
{
    push_name(text, short.number)?;
    push_fields(text, short.fields, short.promise)?;
    text.push('\n')
}

/// A line for each number that stays too short: `stays 110 F fields of G`.
pub fn stay_lines(alloc: Global, numbers: &[ShortStay]) -> Result<String, AllocError>
    ensures { IfOk result (λ text. string_bytes text ≡ lines.stay_lines numbers.now) }
{
    let mut text = String::new(alloc);
    for short in numbers {
        push_short(&mut text, *short)?;
    }
    Ok(text)
}

// The line of a page that no certificate accepts.
#[tactic(auto, unfolding(crate::specs::StayLines::unseen_line))]
fn unseen_line(alloc: Global, page: PageId) -> Result<String, AllocError>
    ensures { IfOk result (λ text. string_bytes text ≡ lines.unseen_line page) }
{
    let mut text = String::new(alloc);
    text.push_str("unseen ")?;
    push_id(&mut text, page)?;
    text.push('\n')?;
    Ok(text)
}

// The line of a page that is never shown late.
#[tactic(auto, unfolding(crate::specs::StayLines::never_shown_line))]
fn never_shown_line(alloc: Global, page: PageId, slot: usize) -> Result<String, AllocError>
    ensures { IfOk result (λ text. string_bytes text ≡ lines.never_shown_line page slot) }
{
    let mut text = String::new(alloc);
    text.push_str("never-shown ")?;
    push_id(&mut text, page)?;
    write!(text, " {slot}\n")?;
    Ok(text)
}

/// The line of what is missed: `unseen PAGE`, `late PAGE F fields of G` or `never-shown PAGE SLOT`.
pub fn missed_line(alloc: Global, missed: Missed) -> Result<String, AllocError>
    ensures { IfOk result (λ text. string_bytes text ≡ lines.missed_line missed) }
{
    match missed {
        Missed::Unseen { page } => unseen_line(alloc, page),
        Missed::Late { late } => late_lines(alloc, &[late]),
        Missed::NeverShown { page, slot } => never_shown_line(alloc, page, slot),
    }
}
