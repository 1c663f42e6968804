//! The characters of a row.

ghost use Rattle.std.specs.Prelude.{◌≡◌, ◌++◌, OnOk, string_bytes, None};
ghost use Rattle.ttx_picture.specs.Svg.{code_of, letter_of, has_no_letters, span_start, span_end, letter_text, span_after, letters, text_start};
ghost use Rattle.ttx_picture.specs.Svg.{row_letters};

use crate::escapes::push_escaped;
use crate::shown::shown_glyph;
use crate::svg::pens::{Pen, ink, is_drawn, is_pen, push_pen};
use std::alloc::AllocError;
use ttx_render::{Cell, Glyph};

fn code_of(glyph: Glyph) -> char
    ensures { result ≡ code_of glyph }
{
    match glyph {
        Glyph::Char(code) => code,
        _ => ' ',
    }
}

// The character that a cell shows in this height; otherwise a space.
fn letter_of(reveal: bool, tall: bool, cell: &Cell) -> char
    ensures { result ≡ letter_of reveal tall cell.now }
{
    if is_drawn(tall, cell.part) {
        code_of(shown_glyph(reveal, cell))
    } else {
        ' '
    }
}

fn has_no_letters(reveal: bool, tall: bool, cells: &[Cell]) -> bool
    ensures { result ≡ has_no_letters reveal tall cells.now }
{
    for cell in cells {
        if letter_of(reveal, tall, cell) != ' ' {
            return false;
        }
    }
    true
}

fn push_span_start(text: &mut String, pen: Pen) -> Result<(), AllocError>
    ensures { OnOk result (string_bytes text.new ≡ string_bytes text.old ++ span_start pen) }
{
    text.push_str("<tspan class=\"")?;
    push_pen(text, pen)?;
    text.push_str("\">")
}

fn push_span_end(text: &mut String, current: Option<Pen>) -> Result<(), AllocError>
    ensures { OnOk result (string_bytes text.new ≡ string_bytes text.old ++ span_end current) }
{
    match current {
        None => Ok(()),
        Some(_) => text.push_str("</tspan>"),
    }
}

// Appends a character, in a span of its pen.
fn push_letter(
    text: &mut String,
    current: Option<Pen>,
    letter: char,
    pen: Pen,
) -> Result<(), AllocError>
    ensures { OnOk result (string_bytes text.new ≡ string_bytes text.old ++ letter_text current letter pen) }
{
    if letter == ' ' {
        return text.push(' ');
    }
    if is_pen(current, pen) {
        return push_escaped(text, letter);
    }
    push_span_end(text, current)?;
    push_span_start(text, pen)?;
    push_escaped(text, letter)
}

fn span_after(current: Option<Pen>, letter: char, pen: Pen) -> Option<Pen>
    ensures { result ≡ span_after current letter pen }
{
    if letter == ' ' { current } else { Some(pen) }
}

fn push_letters(
    text: &mut String,
    reveal: bool,
    tall: bool,
    cells: &[Cell],
) -> Result<(), AllocError>
    ensures { OnOk result (string_bytes text.new ≡ string_bytes text.old ++ letters reveal tall None cells.now) }
{
    let mut current = None;
    for cell in cells {
        let letter = letter_of(reveal, tall, cell);
        let pen = ink(cell, false);
        push_letter(text, current, letter, pen)?;
        current = span_after(current, letter, pen);
    }
    push_span_end(text, current)
}

#[tactic(auto, unfolding(crate::specs::Svg::text_start))]
fn push_text_start(text: &mut String) -> Result<(), AllocError>
    ensures { OnOk result (string_bytes text.new ≡ string_bytes text.old ++ text_start) }
{
    text.push_str("<text y=\"18\" textLength=\"800\" lengthAdjust=\"spacingAndGlyphs\">")
}

/// Appends the characters of a row that have this height.
pub fn push_row_letters(
    text: &mut String,
    reveal: bool,
    tall: bool,
    cells: &[Cell],
) -> Result<(), AllocError>
    ensures { OnOk result (string_bytes text.new ≡ string_bytes text.old ++ row_letters reveal tall cells.now) }
{
    if has_no_letters(reveal, tall, cells) {
        return Ok(());
    }
    push_text_start(text)?;
    push_letters(text, reveal, tall, cells)?;
    text.push_str("</text>")
}
