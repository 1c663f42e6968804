//! A View as text with terminal codes.

ghost use Rattle.std.specs.Prelude.{◌≡◌, ◌<◌, ◌++◌, OnOk, string_bytes};
ghost use Rattle.ttx_render.specs.Cells.{space_cell};
ghost use Rattle.ttx_picture.specs.Ansi.{sgr, foreground, background, blink, change, changes, cells_ansi, row_ansi, rows_ansi, terminal_of};

use crate::links::push_links;
use crate::shown::{Mosaics, char_with};
use std::alloc::AllocError;
use ttx_render::{Cell, Colour, Glyph, Part, View, colour_number};

fn push_sgr(text: &mut String, number: u8) -> Result<(), AllocError>
    ensures { OnOk result (string_bytes text.new ≡ string_bytes text.old ++ sgr number) }
{
    write!(text, "\u{1b}[{number}m")
}

fn foreground(cell: &Cell) -> u8
    ensures { result ≡ foreground cell.now }
{
    30 + colour_number(cell.fore)
}

fn background(cell: &Cell) -> u8
    ensures { result ≡ background cell.now }
{
    if cell.picture {
        49
    } else {
        40 + colour_number(cell.back)
    }
}

fn blink(cell: &Cell) -> u8
    ensures { result ≡ blink cell.now }
{
    if cell.flash { 5 } else { 25 }
}

fn push_change(text: &mut String, before: u8, now: u8) -> Result<(), AllocError>
    ensures { OnOk result (string_bytes text.new ≡ string_bytes text.old ++ change before now) }
{
    if before == now {
        Ok(())
    } else {
        push_sgr(text, now)
    }
}

fn push_changes(text: &mut String, before: &Cell, cell: &Cell) -> Result<(), AllocError>
    ensures { OnOk result (string_bytes text.new ≡ string_bytes text.old ++ changes before.now cell.now) }
{
    push_change(text, foreground(before), foreground(cell))?;
    push_change(text, background(before), background(cell))?;
    push_change(text, blink(before), blink(cell))
}

// A space with the attributes at the start of a row.
fn space_cell() -> Cell
    ensures { result ≡ space_cell }
{
    Cell {
        glyph: Glyph::Char(' '),
        fore: Colour::White,
        back: Colour::Black,
        flash: false,
        concealed: false,
        picture: false,
        part: Part::Single,
    }
}

// How a View is written for a terminal.
#[derive(Clone, Copy)]
struct Style {
    mosaics: Mosaics,
    reveal: bool,
}

fn push_cells(text: &mut String, style: Style, cells: &[Cell]) -> Result<(), AllocError>
    ensures { OnOk result (string_bytes text.new ≡ string_bytes text.old ++ cells_ansi style.mosaics style.reveal space_cell cells.now) }
{
    let mut before = space_cell();
    for cell in cells {
        push_changes(text, &before, cell)?;
        text.push(char_with(style.mosaics, style.reveal, cell))?;
        before = *cell;
    }
    Ok(())
}

fn push_row(text: &mut String, style: Style, cells: &[Cell]) -> Result<(), AllocError>
    ensures { OnOk result (string_bytes text.new ≡ string_bytes text.old ++ row_ansi style.mosaics style.reveal cells.now) }
{
    push_sgr(text, 37)?;
    push_sgr(text, 40)?;
    push_cells(text, style, cells)?;
    push_sgr(text, 0)?;
    text.push('\n')
}

fn push_rows(text: &mut String, style: Style, rows: &[[Cell; 40]]) -> Result<(), AllocError>
    ensures { OnOk result (string_bytes text.new ≡ string_bytes text.old ++ rows_ansi style.mosaics style.reveal rows.now) }
{
    for cells in rows {
        push_row(text, style, cells)?;
    }
    Ok(())
}

/// Appends a View as lines of characters with terminal codes, with these characters for mosaics. Concealed characters are shown only if
/// `reveal` is true.
pub(crate) fn push_terminal(
    text: &mut String,
    mosaics: Mosaics,
    reveal: bool,
    view: &View,
) -> Result<(), AllocError>
    ensures { OnOk result (string_bytes text.new ≡ string_bytes text.old ++ terminal_of mosaics reveal view.now) }
{
    push_rows(text, Style { mosaics, reveal }, &view.cells)?;
    text.push_str("links")?;
    push_links(text, &view.links)?;
    text.push('\n')
}
