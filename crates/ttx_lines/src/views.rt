//! The lines of a View.

ghost use Rattle.std.specs.Prelude.{◌≡◌, ◌<◌, ◌++◌, OnOk, IfOk, string_bytes};
ghost use Rattle.ttx_lines.specs.ViewLines.{low_digit, low_byte, word_text, cell_words, row_line, rows_from, view_lines};

use crate::texts::push_links;
use std::alloc::{AllocError, Global};
use ttx_render::{Cell, View, cell_word};

// The digit of a number below 16, a to f for 10 to 15.
fn low_digit(number: u8) -> char
    requires { number < 16 }
    ensures { result ≡ low_digit number }
{
    if number < 10 {
        char::from(b'0' + number)
    } else {
        char::from(b'a' - 10 + number)
    }
}

// Adds two hexadecimal digits.
fn push_low_byte(text: &mut String, byte: u8) -> Result<(), AllocError>
    ensures { OnOk result (string_bytes text.new ≡ string_bytes text.old ++ low_byte byte) }
{
    text.push(low_digit(byte / 16))?;
    text.push(low_digit(byte % 16))
}

// Adds eight hexadecimal digits.
#[tactic(auto, unfolding(crate::specs::ViewLines::word_text))]
fn push_word(text: &mut String, word: u32) -> Result<(), AllocError>
    ensures { OnOk result (string_bytes text.new ≡ string_bytes text.old ++ word_text word) }
{
    push_low_byte(text, (word / 0x100_0000) as u8)?;
    push_low_byte(text, (word / 0x1_0000 % 256) as u8)?;
    push_low_byte(text, (word / 0x100 % 256) as u8)?;
    push_low_byte(text, (word % 256) as u8)
}

/// Adds cells as words, each after a space.
pub(crate) fn push_cells(text: &mut String, cells: &[Cell]) -> Result<(), AllocError>
    ensures { OnOk result (string_bytes text.new ≡ string_bytes text.old ++ cell_words cells.now) }
{
    for cell in cells {
        text.push(' ')?;
        push_word(text, cell_word(cell))?;
    }
    Ok(())
}

/// Adds the line of a row.
pub(crate) fn push_row(
    text: &mut String,
    number: usize,
    cells: &[Cell; 40],
) -> Result<(), AllocError>
    ensures { OnOk result (string_bytes text.new ≡ string_bytes text.old ++ row_line number cells.now) }
{
    write!(text, "row {number}")?;
    push_cells(text, cells)?;
    text.push('\n')
}

// Adds the lines of the rows.
fn push_rows(text: &mut String, rows: &[[Cell; 40]]) -> Result<(), AllocError>
    ensures { OnOk result (string_bytes text.new ≡ string_bytes text.old ++ rows_from 0 rows.now) }
{
    for (number, cells) in rows.iter().enumerate() {
        push_row(text, number, cells)?;
    }
    Ok(())
}

/// The lines of a View.
pub fn view_lines(alloc: Global, view: &View) -> Result<String, AllocError>
    ensures { IfOk result (λ text. string_bytes text ≡ view_lines view.now) }
{
    let mut text = String::new(alloc);
    push_rows(&mut text, &view.cells)?;
    text.push_str("links")?;
    push_links(&mut text, &view.links)?;
    text.push('\n')?;
    Ok(text)
}
