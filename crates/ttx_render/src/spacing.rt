//! Spacing attributes (EN 300 706, 12.2).

ghost use Rattle.std.specs.Prelude.{◌≡◌};
ghost use Rattle.ttx_render.specs.Spacing.{spacing_of, spacing_in};

use crate::colour::{Colour, colour_of};

/// What a code from 00 to 1F sets.
#[derive(Clone, Copy)]
pub enum Spacing {
    Nothing,
    AlphaColour(Colour),
    MosaicColour(Colour),
    Flash,
    Steady,
    EndBox,
    StartBox,
    NormalHeight,
    DoubleHeight,
    Conceal,
    Contiguous,
    Separated,
    BlackBackground,
    NewBackground,
    HoldMosaics,
    ReleaseMosaics,
}

impl Spacing {
    /// What a code sets in itself.
    #[tactic(auto, unfolding(crate::specs::Spacing::spacing_of))]
    pub fn of(code: u8) -> Spacing
        ensures { result ≡ spacing_of code }
    {
        match code {
            0x01..=0x07 => Spacing::AlphaColour(colour_of(code)),
            0x08 => Spacing::Flash,
            0x09 => Spacing::Steady,
            0x0a => Spacing::EndBox,
            0x0b => Spacing::StartBox,
            0x0c => Spacing::NormalHeight,
            0x0d => Spacing::DoubleHeight,
            0x11..=0x17 => Spacing::MosaicColour(colour_of(code - 0x10)),
            0x18 => Spacing::Conceal,
            0x19 => Spacing::Contiguous,
            0x1a => Spacing::Separated,
            0x1c => Spacing::BlackBackground,
            0x1d => Spacing::NewBackground,
            0x1e => Spacing::HoldMosaics,
            0x1f => Spacing::ReleaseMosaics,
            _ => Spacing::Nothing,
        }
    }

    /// What it sets in its row: height codes count only if `tall` is true, box codes only if the next column has the same code (`paired`).
    pub fn within(self, tall: bool, paired: bool) -> Spacing
        ensures { result ≡ spacing_in tall paired self }
    {
        match self {
            Spacing::StartBox | Spacing::EndBox if !paired => Spacing::Nothing,
            Spacing::NormalHeight | Spacing::DoubleHeight if !tall => Spacing::Nothing,
            other => other,
        }
    }
}
