//! The place of a character of a value in an author's text.

ghost use Rattle.std.specs.Prelude.{◌≡◌, ◌==◌, if◌then◌else◌, not, codes, drop, length, slice_index, Some, IfOk, OnOk, string_bytes};
ghost use Rattle.std.specs.List.{position};
ghost use Rattle.ttx_places.specs.Paths.{page_path};
ghost use Rattle.ttx_places.specs.Places.{place_of};
ghost use Rattle.ttx_desk.specs.Places as rule;

use crate::mistakes::{Mistake, Part};
use std::alloc::{AllocError, Global};
use ttx_places::{page_path, place_of, push_number, push_part};

/// The sign that a text begins with: how many bytes it has, whether it is a character, and whether it is a line feed.
#[derive(Clone, Copy)]
pub struct Sign {
    pub size: usize,
    pub seen: bool,
    pub feed: bool,
}

// The byte at a place; 0 after the end.
fn byte_at(text: &[u8], place: usize) -> u8
    ensures { result ≡ slice_index text.now place }
{
    match text.get(place) {
        Some(byte) => *byte,
        None => 0,
    }
}

// The text after so many bytes.
fn behind(text: &[u8], size: usize) -> &[u8]
    ensures { result.now ≡ drop size text.now }
{
    if size < text.len() {
        &text[size..]
    } else {
        &[]
    }
}

fn is_white(byte: u8) -> bool
    ensures { result ≡ rule.is_white byte }
{
    byte == b' ' || byte == b'\t' || byte == b'\r' || byte == b'\n'
}

// Where the white space at the beginning of a text ends.
fn white_end(text: &[u8]) -> Option<usize>
    ensures { result ≡ position (λ c. not (rule.is_white c)) text.now }
{
    text.iter().position(|byte| !is_white(*byte))
}

// The size of the white space at the beginning of a text.
fn white_size(text: &[u8]) -> usize
    ensures { result ≡ rule.white_size text.now }
{
    match white_end(text) {
        Some(size) => size,
        None => text.len(),
    }
}

// The size of an escape, by the byte after its backslash.
fn escape_size(byte: u8) -> usize
    ensures { result ≡ rule.escape_size byte }
{
    match byte {
        b'x' => 4,
        b'u' => 6,
        b'U' => 10,
        _ => 2,
    }
}

// The sign of a backslash and this text after it: the end of a line that is left out, or an escape.
fn escaped(rest: &[u8]) -> Sign
    ensures { result ≡ rule.escaped rest.now }
{
    let next = byte_at(rest, 0);
    if is_white(next) {
        return Sign {
            size: white_size(rest) + 1,
            seen: false,
            feed: false,
        };
    }
    Sign {
        size: escape_size(next),
        seen: true,
        feed: next == b'n',
    }
}

// The size of a character in UTF-8, by its first byte.
fn utf8_size(byte: u8) -> usize
    ensures { result ≡ rule.utf8_size byte }
{
    match byte {
        0xf0..=0xff => 4,
        0xe0..=0xef => 3,
        0xc0..=0xdf => 2,
        _ => 1,
    }
}

// The sign that a text begins with; `basic` if it stands in double quotation marks.
fn sign_of(text: &[u8], basic: bool) -> Sign
    ensures { result ≡ rule.sign_of basic text.now }
{
    let first = byte_at(text, 0);
    if basic && first == b'\\' {
        return escaped(behind(text, 1));
    }
    Sign {
        size: utf8_size(first),
        seen: true,
        feed: first == b'\n',
    }
}

// The size of three quotation marks, with the line feed after them.
fn lines_front(text: &[u8]) -> usize
    ensures { result ≡ rule.lines_front text.now }
{
    match byte_at(text, 3) {
        b'\n' => 4,
        b'\r' if byte_at(text, 4) == b'\n' => 5,
        _ => 3,
    }
}

// The size of the quotation marks that a text begins with.
fn text_front(text: &[u8]) -> usize
    ensures { result ≡ rule.text_front text.now }
{
    let mark = byte_at(text, 0);
    if byte_at(text, 1) == mark && byte_at(text, 2) == mark {
        lines_front(text)
    } else {
        1
    }
}

// Whether a sign is a character after all line feeds that come first.
fn is_counted(sign: Sign, feeds: usize) -> bool
    ensures { result ≡ rule.is_counted sign feeds }
{
    sign.seen && feeds == 0
}

// Whether a sign is the character that is sought: no line feed and no character is left to pass.
fn is_sought(sign: Sign, feeds: usize, index: usize) -> bool
    ensures { result ≡ rule.is_sought sign feeds index }
{
    is_counted(sign, feeds) && index == 0
}

// The line feeds that are left after a sign.
fn feeds_after(sign: Sign, feeds: usize) -> usize
    ensures { result ≡ rule.feeds_after sign feeds }
{
    if sign.feed {
        feeds.saturating_sub(1)
    } else {
        feeds
    }
}

// The index that is left after a sign.
fn index_after(sign: Sign, feeds: usize, index: usize) -> usize
    ensures { result ≡ rule.index_after sign feeds index }
{
    if is_counted(sign, feeds) {
        index.saturating_sub(1)
    } else {
        index
    }
}

// The bytes from a character to the end: the one with this index after so many line feeds.
fn sign_left(text: &[u8], basic: bool, feeds: usize, index: usize) -> Option<usize>
    ensures { result ≡ rule.sign_left (length text.now) basic feeds index text.now }
{
    let mut rest = text;
    let mut feeds = feeds;
    let mut left = index;
    for _sign in 0..text.len() {
        let sign = sign_of(rest, basic);
        if is_sought(sign, feeds, left) {
            return Some(rest.len());
        }
        left = index_after(sign, feeds, left);
        feeds = feeds_after(sign, feeds);
        rest = behind(rest, sign.size);
    }
    None
}

// The place of a character of the text whose quotation mark is at `mark`: the one with this index after so many line feeds.
fn character_place(file: &[u8], mark: usize, feeds: usize, index: usize) -> usize
    ensures { result ≡ rule.character_place file.now mark feeds index }
{
    let value = behind(file, mark);
    let inner = behind(value, text_front(value));
    match sign_left(inner, byte_at(file, mark) == b'"', feeds, index) {
        Some(left) => file.len().saturating_sub(left),
        None => mark,
    }
}

// Adds a part to the path of its page, or of `info`.
fn push_mistaken(path: &mut String, part: Part) -> Result<(), AllocError>
    ensures { OnOk result (string_bytes path.new ≡ rule.part_path (string_bytes path.old) part) }
{
    match part {
        Part::Option => push_part(path, "option"),
        Part::Head => push_part(path, "head"),
        Part::Status => push_part(path, "text"),
        Part::Line { .. } => {
            push_part(path, "rows")?;
            push_part(path, "text")
        }
        Part::Row { number } => {
            push_part(path, "rows")?;
            push_number(path, number)
        }
    }
}

// The path of a page, or of `info`.
fn table_path(alloc: Global, page: usize) -> Result<String, AllocError>
    ensures { IfOk result (λ path. string_bytes path ≡ (if page == 0 then codes "/info" else page_path page)) }
{
    if page == 0 {
        String::from_str(alloc, "/info")
    } else {
        page_path(alloc, page)
    }
}

// The path of the value with a mistake.
fn mistake_path(alloc: Global, mistake: &Mistake) -> Result<String, AllocError>
    ensures { IfOk result (λ path. string_bytes path ≡ rule.mistake_path mistake.now) }
{
    let mut path = table_path(alloc, mistake.page)?;
    push_mistaken(&mut path, mistake.part)?;
    Ok(path)
}

// How many line feeds come before a line of `text`.
fn feeds_before(part: Part) -> usize
    ensures { result ≡ rule.feeds_before part }
{
    match part {
        Part::Line { number } => number.saturating_sub(1),
        _ => 0,
    }
}

// The place of a mistake in the value that begins at `mark`.
fn place_in_value(file: &[u8], mark: usize, mistake: &Mistake) -> usize
    ensures { result ≡ rule.place_in_value file.now mark mistake.now.part mistake.now.place }
{
    match mistake.part {
        Part::Option => mark,
        part => character_place(file, mark, feeds_before(part), mistake.place),
    }
}

// The place of a mistake, if its value begins at `mark`.
fn place_behind(file: &str, mistake: &Mistake, mark: Option<usize>) -> usize
    ensures { result ≡ rule.place_behind file.now mistake.now mark }
{
    match mark {
        Some(mark) => place_in_value(file.as_bytes(), mark, mistake),
        None => 0,
    }
}

// Where the value with a mistake begins.
fn mark_of(alloc: Global, text: &str, mistake: &Mistake) -> Result<Option<usize>, AllocError>
    ensures { IfOk result (λ mark. place_of (rule.mistake_path mistake.now) text.now ≡ Some mark) }
{
    let path = mistake_path(alloc, mistake)?;
    place_of(alloc, text, path.as_str())
}

/// The place of a mistake in an author's text, in bytes: that of the character, or of the value if it concerns the whole.
pub fn mistake_place(alloc: Global, text: &str, mistake: &Mistake) -> Result<usize, AllocError>
    ensures { IfOk result (rule.IsPlace text.now mistake.now) }
{
    let mark = mark_of(alloc, text, mistake)?;
    Ok(place_behind(text, mistake, mark))
}
