//! Lines and columns of bytes in a text, for people.

ghost use Rattle.std.specs.Prelude.{◌≡◌, ◌+◌, ◌<◌, ◌^◌, if◌then◌else◌, take};
ghost use Rattle.ttx_places.specs.Positions.{is_line_feed, begins_character, last_line, line_after, column_after};

/// A line and a column, both from 1. A column counts characters.
#[derive(Clone, Copy)]
pub struct Position {
    pub line: usize,
    pub column: usize,
}

// The position after a byte, given the position of the byte.
fn after_byte(at: Position, byte: u8) -> Position
    requires line { at.line < 2 ^ 63 }
    requires column { at.column < 2 ^ 63 }
    ensures line { result.line ≡ at.line + (if is_line_feed byte then 1 else 0) }
    ensures column { result.column ≡ (if is_line_feed byte then 1 else at.column + (if begins_character byte then 1 else 0)) }
{
    let Position { line, column } = at;
    if byte == b'\n' {
        Position {
            line: line + 1,
            column: 1,
        }
    } else if byte / 64 == 2 {
        at
    } else {
        Position {
            line,
            column: column + 1,
        }
    }
}

// The position of the first byte after this text.
fn position_after(text: &[u8]) -> Position
    ensures line { result.line ≡ line_after text.now }
    ensures column { result.column ≡ column_after text.now }
{
    let mut at = Position { line: 1, column: 1 };
    for byte in text {
        at = after_byte(at, *byte);
    }
    at
}

/// The position of the byte at a place.
pub fn position_of(text: &[u8], place: usize) -> Position
    ensures line { result.line ≡ line_after (take place text.now) }
    ensures column { result.column ≡ column_after (take place text.now) }
{
    position_after(&text[..place.min(text.len())])
}

// Where the line begins after a byte, given where the line of the byte begins.
fn start_after(start: usize, index: usize, byte: u8) -> usize
    requires { index < 2 ^ 63 }
    ensures { result ≡ (if is_line_feed byte then index + 1 else start) }
{
    if byte == b'\n' { index + 1 } else { start }
}

/// The bytes after the last line feed.
pub fn last_line(text: &[u8]) -> &[u8]
    ensures { result.now ≡ last_line text.now }
{
    let mut start = 0;
    for (index, byte) in text.iter().enumerate() {
        start = start_after(start, index, *byte);
    }
    &text[start..]
}
