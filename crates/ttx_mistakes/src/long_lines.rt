//! The lines of errors and warnings.

ghost use Rattle.std.specs.Prelude.{◌≡◌, ◌++◌, ◌∷◌, IfOk, OnOk, drop, filter, map, string_bytes, take};
ghost use Rattle.ttx_places.specs.Positions.{begins_character, last_line};
ghost use Rattle.ttx_mistakes.specs.LongLines as rule;
ghost use Rattle.ttx_mistakes.specs.PlacedViews.{placed_view, placed_views};

use crate::placed::{Paper, Placed};
use std::alloc::{AllocError, Global};
use ttx_digits::push_decimal;
use ttx_places::{last_line, position_of};

// Adds bytes.
fn push_bytes(text: &mut Vec<u8>, more: &[u8]) -> Result<(), AllocError>
    ensures { OnOk result (text.new.items ≡ text.old.items ++ more.now) }
{
    text.extend_from_slice(more)
}

/// The same bytes.
pub(crate) fn copied(alloc: Global, bytes: &[u8]) -> Result<Vec<u8>, AllocError>
    ensures { IfOk result (λ copy. copy.items ≡ bytes.now) }
{
    let mut copy = Vec::new(alloc);
    push_bytes(&mut copy, bytes)?;
    Ok(copy)
}

fn is_end(code: u8) -> bool
    ensures { result ≡ rule.is_end code }
{
    code == b'\n' || code == b'\r'
}

fn visible(code: u8) -> u8
    ensures { result ≡ rule.visible code }
{
    if (code < 32 && code != 9) || code == 127 {
        b'?'
    } else {
        code
    }
}

fn blank(code: u8) -> u8
    ensures { result ≡ rule.blank code }
{
    if code == 9 { 9 } else { 32 }
}

// Adds the bytes of a line, as they are printed.
fn push_visible(text: &mut Vec<u8>, line: &[u8]) -> Result<(), AllocError>
    ensures { OnOk result (text.new.items ≡ text.old.items ++ map rule.visible line.now) }
{
    for code in line {
        text.push(visible(*code))?;
    }
    Ok(())
}

// The bytes before a place.
fn before(bytes: &[u8], place: usize) -> &[u8]
    ensures { result.now ≡ take place bytes.now }
{
    match bytes.get(..place) {
        Some(front) => front,
        None => bytes,
    }
}

/// The bytes from a place on.
pub(crate) fn behind(bytes: &[u8], place: usize) -> &[u8]
    ensures { result.now ≡ drop place bytes.now }
{
    match bytes.get(place..) {
        Some(rest) => rest,
        None => &[],
    }
}

// The bytes before the end of a line.
fn until_end(bytes: &[u8]) -> &[u8]
    ensures { result.now ≡ rule.until_end bytes.now }
{
    for (index, code) in bytes.iter().enumerate() {
        if is_end(*code) {
            return &bytes[..index];
        }
    }
    bytes
}

// Adds the line of a place.
fn push_source(text: &mut Vec<u8>, bytes: &[u8], place: usize) -> Result<(), AllocError>
    ensures { OnOk result (text.new.items ≡ text.old.items ++ map rule.visible (rule.source_line bytes.now place)) }
{
    push_visible(text, last_line(before(bytes, place)))?;
    push_visible(text, until_end(behind(bytes, place)))
}

// Adds a blank for each character.
fn push_blanks(text: &mut Vec<u8>, line: &[u8]) -> Result<(), AllocError>
    ensures { OnOk result (text.new.items ≡ text.old.items ++ map rule.blank (filter begins_character line.now)) }
{
    for code in line {
        if *code / 64 != 2 {
            text.push(blank(*code))?;
        }
    }
    Ok(())
}

// Adds a caret below a place.
#[tactic(auto, unfolding(crate::specs::LongLines::caret_line))]
fn push_caret(text: &mut Vec<u8>, bytes: &[u8], place: usize) -> Result<(), AllocError>
    ensures { OnOk result (text.new.items ≡ text.old.items ++ rule.caret_line bytes.now place) }
{
    push_blanks(text, last_line(before(bytes, place)))?;
    push_bytes(text, b"^\n")
}

// Adds a position and what follows it.
fn push_position(line: &mut String, bytes: &[u8], place: usize) -> Result<(), AllocError>
    ensures { OnOk result (string_bytes line.new ≡ string_bytes line.old ++ rule.position_part bytes.now place) }
{
    let at = position_of(bytes, place);
    line.push(':')?;
    push_decimal(line, at.line)?;
    line.push(':')?;
    push_decimal(line, at.column)
}

fn severity(error: bool) -> &'static str
    ensures { result.now ≡ rule.severity error }
{
    if error { ": error: " } else { ": warning: " }
}

// A place in a file, whether it is that of an error, and the words.
#[derive(Clone, Copy)]
pub struct Said<'a> {
    pub file: &'a str,
    pub bytes: &'a [u8],
    pub place: usize,
    pub error: bool,
    pub words: &'a [u8],
}

// What comes before the words.
fn place_part(alloc: Global, said: Said<'_>) -> Result<String, AllocError>
    ensures { IfOk result (λ line. string_bytes line ≡ rule.place_part said.entry.file.now said.entry.bytes.now said.entry.place said.entry.error) }
{
    let mut line = String::from_str(alloc, said.file)?;
    push_position(&mut line, said.bytes, said.place)?;
    line.push_str(severity(said.error))?;
    Ok(line)
}

/// Adds the line with the place and the words.
#[tactic(auto, unfolding(crate::specs::LongLines::place_line))]
pub fn push_place_line(alloc: Global, text: &mut Vec<u8>, said: Said<'_>) -> Result<(), AllocError>
    ensures { OnOk result (text.new.items
        ≡ text.old.items ++ rule.place_line said.entry.file.now said.entry.bytes.now said.entry.place said.entry.error said.entry.words.now) }
{
    let line = place_part(alloc, said)?;
    push_bytes(text, line.as_bytes())?;
    push_bytes(text, said.words)?;
    push_bytes(text, b"\n")
}

/// Adds the three lines about a place.
#[tactic(auto, unfolding(crate::specs::LongLines::lines_at))]
pub fn push_lines(alloc: Global, text: &mut Vec<u8>, said: Said<'_>) -> Result<(), AllocError>
    ensures { OnOk result (text.new.items
        ≡ text.old.items ++ rule.lines_at said.entry.file.now said.entry.bytes.now said.entry.place said.entry.error said.entry.words.now) }
{
    push_place_line(alloc, text, said)?;
    push_source(text, said.bytes, said.place)?;
    push_bytes(text, b"\n")?;
    push_caret(text, said.bytes, said.place)
}

// What comes before the end of the line about the place where a key is first given.
fn first_part(alloc: Global, said: Said<'_>, place: usize) -> Result<String, AllocError>
    ensures { IfOk result (λ line. string_bytes line ≡ rule.first_part said.entry.file.now said.entry.bytes.now place) }
{
    let mut line = String::from_str(alloc, said.file)?;
    push_position(&mut line, said.bytes, place)?;
    line.push_str(": note: the key is first given here")?;
    Ok(line)
}

/// Adds the three lines about the place where a key is first given that a text gives twice.
#[tactic(auto, unfolding(crate::specs::LongLines::first_lines))]
pub fn push_first(
    alloc: Global,
    text: &mut Vec<u8>,
    said: Said<'_>,
    first: Option<usize>,
) -> Result<(), AllocError>
    ensures { OnOk result (text.new.items ≡ text.old.items ++ rule.first_lines said.entry.file.now said.entry.bytes.now first) }
{
    let Some(place) = first else {
        return Ok(());
    };
    let line = first_part(alloc, said, place)?;
    push_bytes(text, line.as_bytes())?;
    push_bytes(text, b"\n")?;
    push_source(text, said.bytes, place)?;
    push_bytes(text, b"\n")?;
    push_caret(text, said.bytes, place)
}

// Adds the lines of an error or a warning, in the short or the long form.
#[tactic(auto, unfolding(crate::specs::LongLines::placed_text))]
fn push_placed_text(
    alloc: Global,
    text: &mut Vec<u8>,
    paper: Paper<'_>,
    placed: &Placed,
) -> Result<(), AllocError>
    ensures { OnOk result (text.new.items
        ≡ text.old.items ++ rule.placed_text paper.entry.long paper.entry.file.now paper.entry.bytes.now (placed_view placed.now)) }
{
    let said = Said {
        file: paper.file,
        bytes: paper.bytes,
        place: placed.place,
        error: placed.error,
        words: placed.words.as_slice(),
    };
    if paper.long {
        push_lines(alloc, text, said)
    } else {
        push_place_line(alloc, text, said)
    }
}

/// Adds the lines of errors and warnings.
pub(crate) fn push_placed(
    alloc: Global,
    text: &mut Vec<u8>,
    paper: Paper<'_>,
    found: &[Placed],
) -> Result<(), AllocError>
    ensures { OnOk result (text.new.items
        ≡ text.old.items ++ rule.placed_texts paper.entry.long paper.entry.file.now paper.entry.bytes.now (placed_views found.now)) }
{
    for placed in found {
        push_placed_text(alloc, text, paper, placed)?;
    }
    Ok(())
}
