//! Cells as 32-bit words.

ghost use Rattle.std.specs.Prelude.{◌≡◌, ◌<◌, ◌^◌};
ghost use Rattle.ttx_render.specs.CellWords.{glyph_word, part_number, cell_word};

use crate::cells::{Cell, Glyph, Part};
use crate::colour::colour_number;

// 21 bits: the code point of a character, or 110000 hexadecimal plus the blocks of a mosaic.
fn glyph_word(glyph: Glyph) -> u32
    ensures word { result ≡ glyph_word glyph }
    ensures range { result < 2 ^ 21 }
{
    match glyph {
        Glyph::Char(c) => u32::from(c),
        Glyph::Mosaic { blocks, separated } => {
            0x11_0000 + u32::from(blocks) + 0x40 * u32::from(separated)
        }
    }
}

fn part_number(part: Part) -> u32
    ensures number { result ≡ part_number part }
    ensures range { result < 3 }
{
    match part {
        Part::Single => 0,
        Part::Upper => 1,
        Part::Lower => 2,
    }
}

/// A cell as a 32-bit word.
///
/// From the lowest bit: 21 bits of glyph, three of foreground, three of background, one each for flash, concealed and picture,
/// and two of part (0 single, 1 upper, 2 lower).
pub fn cell_word(cell: &Cell) -> u32
    ensures { result ≡ cell_word cell.now }
{
    let colours = u32::from(colour_number(cell.fore)) + 8 * u32::from(colour_number(cell.back));
    let flags = u32::from(cell.flash)
        + 2 * u32::from(cell.concealed)
        + 4 * u32::from(cell.picture)
        + 8 * part_number(cell.part);
    glyph_word(cell.glyph) + 0x20_0000 * (colours + 64 * flags)
}
