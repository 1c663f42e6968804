//! The codes of an author's row.

ghost use Rattle.std.specs.Prelude.{◌≡◌, ◌<◌, ◌≤◌, ◌-◌, [], ◌∷◌, ◌++◌, false, length, replicate, slice_index, ℕ, List, Ok, Err, IfOk, OnOk, MatchResult};
ghost use Rattle.arrayvec.specs.ArrayVec.{array_vec_len};
ghost use Rattle.ttx_author.specs.Marks.{Placed, placed, marks_of};
ghost use Rattle.ttx_author.specs.Options.{option_number};
ghost use Rattle.ttx_author.specs.Rows as rule;
ghost use Rattle.ttx_author.specs.Rows.{codes_of, line_of};

use crate::marks::{Mark, Piece, piece_of};
use crate::options::NationalOption;
use crate::signs::code_of;
use arrayvec::ArrayVec;

/// Why a mark has no code.
#[derive(Clone, Copy, PartialEq, Eq)]
pub enum Why {
    /// The national option does not have the character.
    Character,
    /// A letter that would show as a mosaic in mosaic mode.
    Letter,
    /// A mosaic outside mosaic mode.
    Mosaic,
    /// A brace that begins no tag.
    Tag,
    /// No cell is left.
    Room,
}

/// The first mark of a text that has no code.
#[derive(Clone, Copy, PartialEq, Eq)]
pub struct Lack {
    /// The index of its character in the text.
    pub place: usize,
    pub why: Why,
}

// Whether mosaic mode is on after a code.
#[tactic(auto, unfolding(ttx_render::specs::Spacing::spacing_of))]
pub(crate) fn mode_after(code: u8, mosaic: bool) -> bool
    ensures { result ≡ rule.mode_after code mosaic }
{
    match code {
        0x01..=0x07 => false,
        0x11..=0x17 => true,
        _ => mosaic,
    }
}

fn why_not(option: u8, mosaic: bool, character: char) -> Why
    requires { option < 8 }
    ensures { result ≡ rule.why_not option mosaic character }
{
    match code_of(!mosaic, option, character) {
        None => Why::Character,
        Some(_) if mosaic => Why::Letter,
        Some(_) => Why::Mosaic,
    }
}

// The code of a mark in this mode.
fn code_at(option: u8, mosaic: bool, place: usize, mark: Mark) -> Result<u8, Lack>
    requires { option < 8 }
    ensures { result ≡ rule.code_at option mosaic place mark }
{
    match mark {
        Mark::Control(code) => Ok(code),
        Mark::Stray => Err(Lack {
            place,
            why: Why::Tag,
        }),
        Mark::Sign(character) => match code_of(mosaic, option, character) {
            Some(code) => Ok(code),
            None => Err(Lack {
                place,
                why: why_not(option, mosaic, character),
            }),
        },
    }
}

/// The codes of a row so far, and the mode that they leave.
#[derive(Drop)]
struct Line {
    codes: ArrayVec<u8, 40>,
    mosaic: bool,
}

impl Line {
    fn new() -> Line
        ensures codes { result.codes.items ≡ [] }
        ensures mosaic { result.mosaic ≡ false }
    {
        Line {
            codes: ArrayVec::new(),
            mosaic: false,
        }
    }

    // Writes the code of a mark, if there is one, into the next of `width` cells.
    fn write(&mut self, width: usize, option: u8, place: usize, mark: Mark) -> Result<(), Lack>
        requires option { option < 8 }
        requires width { width ≤ 40 }
        requires room { array_vec_len self.old.codes ≤ width }
        ensures room { OnOk result (array_vec_len self.new.codes ≤ width) }
        ensures code { (marks : List Placed) → MatchResult result
            (λ _. rule.continued_line width option self.old (placed place mark ∷ marks) ≡ rule.continued_line width option self.new marks)
            (λ lack. rule.continued_line width option self.old (placed place mark ∷ marks) ≡ Err lack) }
    {
        if self.codes.len() == width {
            return Err(Lack {
                place,
                why: Why::Room,
            });
        }
        let code = code_at(option, self.mosaic, place, mark)?;
        self.codes.push(code);
        self.mosaic = mode_after(code, self.mosaic);
        Ok(())
    }

    // Writes a piece of a text into its cells.
    fn write_piece(
        &mut self,
        width: usize,
        option: u8,
        place: usize,
        piece: Piece,
    ) -> Result<(), Lack>
        requires option { option < 8 }
        requires width { width ≤ 40 }
        requires room { array_vec_len self.old.codes ≤ width }
        ensures room { OnOk result (array_vec_len self.new.codes ≤ width) }
        ensures code { (marks : List Placed) → MatchResult result
            (λ _. rule.continued_line width option self.old (replicate piece.cells (placed place piece.mark) ++ marks)
            ≡ rule.continued_line width option self.new marks)
            (λ lack. rule.continued_line width option self.old (replicate piece.cells (placed place piece.mark) ++ marks) ≡ Err lack) }
    {
        for _cell in 0..piece.cells {
            self.write(width, option, place, piece.mark)?;
        }
        Ok(())
    }
}

// The codes of a text in `width` cells.
fn line_of(text: &[char], option: u8, width: usize) -> Result<Line, Lack>
    requires option { option < 8 }
    requires width { width ≤ 40 }
    ensures room { IfOk result (λ line. array_vec_len line.codes ≤ width) }
    ensures code { MatchResult result
        (λ line. codes_of option false width (marks_of text.now) ≡ Ok line.codes.items)
        (λ lack. codes_of option false width (marks_of text.now) ≡ Err lack) }
{
    let mut line = Line::new();
    let mut at = 0;
    while at < text.len() {
        let piece = piece_of(&text[at..]);
        line.write_piece(width, option, at, piece)?;
        at += piece.size;
    }
    Ok(line)
}

// Codes, filled with spaces.
fn filled<const N: usize>(codes: &[u8]) -> [u8; N]
    requires { length codes.now ≤ N }
    ensures { result ≡ rule.filled N codes.now }
{
    let mut cells = [b' '; N];
    cells[..codes.len()].copy_from_slice(codes);
    cells
}

/// The codes of a text in `width` cells, without the spaces after them; or the first mark that has no code.
pub fn codes_of(
    text: &[char],
    option: NationalOption,
    width: usize,
) -> Result<ArrayVec<u8, 40>, Lack>
    requires { width ≤ 40 }
    ensures code { MatchResult result
        (λ codes. codes_of (option_number option) false width (marks_of text.now) ≡ Ok codes.items)
        (λ lack. codes_of (option_number option) false width (marks_of text.now) ≡ Err lack) }
    ensures range { IfOk result (λ codes. (c : ℕ) → slice_index codes.items c < 128) }
{
    Ok(line_of(text, option.number(), width)?.codes)
}

/// The 40 codes of a row, filled with spaces; or the first mark that has no code.
pub fn row_of(text: &[char], option: NationalOption) -> Result<[u8; 40], Lack>
    ensures { result ≡ line_of 40 (option_number option) text.now }
{
    Ok(filled(line_of(text, option.number(), 40)?.codes.as_slice()))
}

/// The 24 codes of the text in a page header, columns 8 to 31 of row 0.
pub fn head_of(text: &[char], option: NationalOption) -> Result<[u8; 24], Lack>
    ensures { result ≡ line_of 24 (option_number option) text.now }
{
    Ok(filled(line_of(text, option.number(), 24)?.codes.as_slice()))
}
