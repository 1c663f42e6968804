//! Colours.

ghost use Rattle.std.specs.Prelude.{◌≡◌, ◌<◌};
ghost use Rattle.ttx_render.specs.Colours.{colour_of, colour_number};

/// The eight colours of Level 1, in the order of their numbers 0 to 7 (EN 300 706, 12.2).
#[derive(Clone, Copy, PartialEq, Eq)]
pub enum Colour {
    Black,
    Red,
    Green,
    Yellow,
    Blue,
    Magenta,
    Cyan,
    White,
}

/// The colour with this number, 0 to 7.
#[tactic(auto, unfolding(crate::specs::Colours::colour_of))]
pub fn colour_of(number: u8) -> Colour
    requires { number < 8 }
    ensures { result ≡ colour_of number }
{
    match number {
        0 => Colour::Black,
        1 => Colour::Red,
        2 => Colour::Green,
        3 => Colour::Yellow,
        4 => Colour::Blue,
        5 => Colour::Magenta,
        6 => Colour::Cyan,
        _ => Colour::White,
    }
}

/// The number of a colour, 0 to 7.
pub fn colour_number(colour: Colour) -> u8
    ensures number { result ≡ colour_number colour }
    ensures range { result < 8 }
{
    match colour {
        Colour::Black => 0,
        Colour::Red => 1,
        Colour::Green => 2,
        Colour::Yellow => 3,
        Colour::Blue => 4,
        Colour::Magenta => 5,
        Colour::Cyan => 6,
        Colour::White => 7,
    }
}
