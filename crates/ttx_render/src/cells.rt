//! Cells of the display.

use crate::colour::Colour;

/// A character or a mosaic.
///
/// The blocks of a mosaic are bits: 1 top left, 2 top right, 4 middle left, 8 middle right, 10 bottom left, 20 bottom right (hex).
#[derive(Clone, Copy, PartialEq, Eq)]
pub enum Glyph {
    /// A Unicode character.
    Char(char),
    /// A mosaic of six blocks. Separated blocks have gaps, contiguous ones touch.
    Mosaic { blocks: u8, separated: bool },
}

/// A whole cell, or the upper or lower half of a cell in double height.
#[derive(Clone, Copy, PartialEq, Eq)]
pub enum Part {
    Single,
    Upper,
    Lower,
}

/// A cell of the display, one of 25 rows of 40.
#[derive(Clone, Copy, PartialEq, Eq)]
pub struct Cell {
    /// The glyph, even if it is flashing or concealed.
    pub glyph: Glyph,
    /// The foreground colour.
    pub fore: Colour,
    /// The background colour.
    pub back: Colour,
    /// Whether the glyph flashes.
    pub flash: bool,
    /// Whether the glyph is concealed until it is revealed.
    pub concealed: bool,
    /// Whether the television picture is shown in place of the cell.
    pub picture: bool,
    /// Whole, or a half in double height.
    pub part: Part,
}
