//! The held mosaic (EN 300 706, 12.2).

ghost use Rattle.std.specs.Prelude.{◌≡◌, ◌<◌};
ghost use Rattle.ttx_render.specs.Mosaics.{mosaic_of};
ghost use Rattle.ttx_render.specs.Columns.{no_held, held_in, held_after};

use crate::attributes::Attributes;
use crate::cells::Glyph;

/// The held mosaic that a column leaves, with the mode and the height in force at that column.
#[derive(Clone, Copy)]
pub struct Held {
    pub glyph: Glyph,
    pub mosaic: bool,
    pub double: bool,
}

/// The mosaic of a code. Bits 1 to 5 and 7 are its blocks; bit 1 is the lowest.
pub fn mosaic_of(code: u8, separated: bool) -> Glyph
    requires { code < 128 }
    ensures { result ≡ mosaic_of code separated }
{
    Glyph::Mosaic {
        blocks: code % 32 + 32 * (code / 64 % 2),
        separated,
    }
}

impl Held {
    /// At the start of a row no mosaic is held.
    pub fn none() -> Held
        ensures { result ≡ no_held }
    {
        Held {
            glyph: Glyph::Char(' '),
            mosaic: false,
            double: false,
        }
    }

    /// The held mosaic at the next column. It becomes a space if the mode or the height changes.
    pub fn at(self, now: Attributes) -> Glyph
        ensures { result ≡ held_in self now }
    {
        if now.mosaic == self.mosaic && now.double == self.double {
            self.glyph
        } else {
            Glyph::Char(' ')
        }
    }

    /// The held mosaic that a column leaves, from its attributes, its code and the mosaic held at it.
    pub fn after(now: Attributes, code: u8, held: Glyph) -> Held
        requires { code < 128 }
        ensures { result ≡ held_after now code held }
    {
        Held {
            glyph: if now.mosaic && code / 32 % 2 == 1 {
                mosaic_of(code, now.separated)
            } else {
                held
            },
            mosaic: now.mosaic,
            double: now.double,
        }
    }
}
