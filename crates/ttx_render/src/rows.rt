//! The cells of a row.

ghost use Rattle.std.specs.Prelude.{◌≡◌, ◌<◌, ◌+◌, replicate, slice_index};
ghost use Rattle.ttx_page.specs.Pages.{IsRow};
ghost use Rattle.ttx_render.specs.Cells.{glyph_of, cell_of, cells_to, space_cell};

use crate::attributes::Attributes;
use crate::cells::{Cell, Glyph, Part};
use crate::colour::Colour;
use crate::held_mosaic::{Held, mosaic_of};
use crate::spacing::Spacing;
use ttx_charset::glyph;

/// How a page shows its cells.
#[derive(Clone, Copy)]
pub struct Style {
    /// The national option, 0 to 7.
    pub option: u8,
    /// Whether cells outside a box show the television picture.
    pub boxes: bool,
    ghost known: { option < 8 },
}

fn glyph_of(now: Attributes, held: Glyph, option: u8, code: u8) -> Glyph
    requires option { option < 8 }
    requires code { code < 128 }
    ensures { result ≡ glyph_of now held option code }
{
    if code < 0x20 {
        if now.hold { held } else { Glyph::Char(' ') }
    } else if now.mosaic && code / 32 % 2 == 1 {
        mosaic_of(code, now.separated)
    } else {
        Glyph::Char(glyph(option, code))
    }
}

fn cell_of(now: Attributes, held: Glyph, style: Style, code: u8) -> Cell
    requires { code < 128 }
    ensures { result ≡ cell_of now held style.option style.boxes code }
{
    Cell {
        glyph: glyph_of(now, held, style.option, code),
        fore: now.fore,
        back: now.back,
        flash: now.flash,
        concealed: now.concealed,
        picture: style.boxes && !now.boxed,
        part: if now.double {
            Part::Upper
        } else {
            Part::Single
        },
    }
}

// The code to the right; 0 beyond column 39.
fn next_code(row: &[u8; 40], c: usize) -> u8
    requires { c < 40 }
    ensures { result ≡ slice_index row.now (c + 1) }
{
    if c + 1 < 40 { row[c + 1] } else { 0 }
}

/// The cells of a row of spaces.
pub fn space_cells() -> [Cell; 40]
    ensures { result ≡ replicate 40 space_cell }
{
    let space = Cell {
        glyph: Glyph::Char(' '),
        fore: Colour::White,
        back: Colour::Black,
        flash: false,
        concealed: false,
        picture: false,
        part: Part::Single,
    };
    [space; 40]
}

/// The cells of a row from its own codes. Height codes have an effect only if `tall` is true (rows 1 to 22).
pub fn row_cells(row: &[u8; 40], tall: bool, style: Style) -> [Cell; 40]
    requires { IsRow row.now }
    ensures { result ≡ cells_to tall row.now 40 style.option style.boxes }
{
    let mut cells = space_cells();
    let mut left = Attributes::start();
    let mut mosaic = Held::none();
    for c in 0..40 {
        let code = row[c];
        let sets = Spacing::of(code).within(tall, code == next_code(row, c));
        let now = left.at(sets);
        let held = mosaic.at(now);
        cells[c] = cell_of(now, held, style, code);
        mosaic = Held::after(now, code, held);
        left = now.after(sets);
    }
    cells
}
