//! The attributes of a column (EN 300 706, 12.2).

ghost use Rattle.std.specs.Prelude.{◌≡◌};
ghost use Rattle.ttx_render.specs.Attributes.{start};
ghost use Rattle.ttx_render.specs.Columns.{attributes_in, attributes_after};

use crate::colour::Colour;
use crate::spacing::Spacing;

/// The attributes in force at a column, or those that the columns before it leave.
#[derive(Clone, Copy)]
pub struct Attributes {
    /// The foreground colour.
    pub fore: Colour,
    /// The background colour.
    pub back: Colour,
    /// Whether the foreground flashes.
    pub flash: bool,
    /// Whether the column is inside a box.
    pub boxed: bool,
    /// Double height; otherwise normal height.
    pub double: bool,
    /// Whether the foreground is concealed until it is revealed.
    pub concealed: bool,
    /// Mosaic mode; otherwise alphanumeric mode.
    pub mosaic: bool,
    /// Separated mosaics; otherwise contiguous ones.
    pub separated: bool,
    /// Whether spacing codes show the held mosaic.
    pub hold: bool,
}

impl Attributes {
    /// The attributes at the start of a row.
    pub fn start() -> Attributes
        ensures { result ≡ start }
    {
        Attributes {
            fore: Colour::White,
            back: Colour::Black,
            flash: false,
            boxed: false,
            double: false,
            concealed: false,
            mosaic: false,
            separated: false,
            hold: false,
        }
    }

    /// The attributes in force at a column with this code, from those that the columns before it leave: applies the Set-At codes.
    #[rattlefmt::skip]
    pub fn at(self, sets: Spacing) -> Attributes
        ensures { result ≡ attributes_in sets self }
    {
        match sets {
            Spacing::Steady => Attributes { flash: false, ..self },
            Spacing::NormalHeight => Attributes { double: false, ..self },
            Spacing::Conceal => Attributes { concealed: true, ..self },
            Spacing::Contiguous => Attributes { separated: false, ..self },
            Spacing::Separated => Attributes { separated: true, ..self },
            Spacing::BlackBackground => Attributes { back: Colour::Black, ..self },
            Spacing::NewBackground => Attributes { back: self.fore, ..self },
            Spacing::HoldMosaics => Attributes { hold: true, ..self },
            _ => self,
        }
    }

    /// The attributes that a column with this code leaves, from those in force at it: applies the Set-After codes.
    #[rattlefmt::skip]
    pub fn after(self, sets: Spacing) -> Attributes
        ensures { result ≡ attributes_after sets self }
    {
        match sets {
            Spacing::AlphaColour(fore) => Attributes { fore, concealed: false, mosaic: false, ..self },
            Spacing::MosaicColour(fore) => Attributes { fore, concealed: false, mosaic: true, ..self },
            Spacing::Flash => Attributes { flash: true, ..self },
            Spacing::EndBox => Attributes { boxed: false, ..self },
            Spacing::StartBox => Attributes { boxed: true, ..self },
            Spacing::DoubleHeight => Attributes { double: true, ..self },
            Spacing::ReleaseMosaics => Attributes { hold: false, ..self },
            _ => self,
        }
    }
}
