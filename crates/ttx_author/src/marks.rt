//! The marks of an author's text.

ghost use Rattle.std.specs.Prelude.{◌≡◌, ◌<◌, ◌≤◌, ◌+◌, ◌==◌, length};
ghost use Rattle.std.specs.List.{position};
ghost use Rattle.ttx_author.specs.Marks as rule;

use crate::tags::tag_of;

/// What an author writes into a cell.
#[derive(Clone, Copy)]
pub enum Mark {
    /// A character to be seen.
    Sign(char),
    /// A control code, 00 to 1F.
    Control(u8),
    /// A brace that begins no tag.
    Stray,
}

/// A mark that fills one cell or two, and the number of characters in which it is written.
#[derive(Clone, Copy)]
pub struct Piece {
    pub mark: Mark,
    pub cells: u8,
    pub size: usize,
}

const STRAY: Piece = Piece {
    mark: Mark::Stray,
    cells: 1,
    size: 1,
};

fn closing_brace(text: &[char]) -> Option<usize>
    ensures { result ≡ position (λ c. c == 0x7d) text.now }
{
    text.iter().position(|c| *c == '}')
}

// The piece after an opening brace.
fn braced(rest: &[char]) -> Piece
    ensures value { result ≡ rule.braced rest.now (position (λ c. c == 0x7d) rest.now) }
    ensures size { 1 ≤ result.size }
    ensures inside { result.size ≤ length rest.now + 1 }
{
    let Some(end) = closing_brace(rest) else {
        return STRAY;
    };
    match tag_of(&rest[..end]) {
        None => STRAY,
        Some(tag) => Piece {
            mark: Mark::Control(tag.code),
            cells: tag.cells,
            size: end + 2,
        },
    }
}

/// The piece with which a text begins.
#[tactic(auto, unfolding(crate::specs::Marks::piece_of))]
pub fn piece_of(text: &[char]) -> Piece
    ensures value { result ≡ rule.piece_of text.now }
    ensures size { 1 ≤ result.size }
    ensures inside { 0 < length text.now → result.size ≤ length text.now }
{
    match text {
        [] => STRAY,
        ['{', '{', ..] => Piece {
            mark: Mark::Sign('{'),
            cells: 1,
            size: 2,
        },
        ['{', rest @ ..] => braced(rest),
        [c, ..] => Piece {
            mark: Mark::Sign(*c),
            cells: 1,
            size: 1,
        },
    }
}
