//! What in the characters of a row probably looks other than it is written.

ghost use Rattle.std.specs.List.{list_all};
ghost use Rattle.std.specs.Prelude.{◌≡◌, ◌<◌, ◌≤◌, true, drop, length};
ghost use Rattle.ttx_check.specs.RowSigns as rule;

use ttx_charset::glyph;

// Whether mosaics are shown after a code.
fn mosaic_after(mosaic: bool, code: u8) -> bool
    ensures { result ≡ rule.mosaic_after mosaic code }
{
    if code < 0x08 {
        return false;
    }
    (0x10 <= code && code < 0x18) || mosaic
}

// Whether a code shows a character.
fn is_character(mosaic: bool, code: u8) -> bool
    ensures { result ≡ rule.is_character mosaic code }
{
    if mosaic {
        0x40 <= code && code < 0x60
    } else {
        0x20 <= code && code < 0x7f
    }
}

// Whether a code shows another character than in ASCII.
fn is_other(option: u8, mosaic: bool, code: u8) -> bool
    requires { option < 8 }
    ensures value { result ≡ rule.is_other option mosaic code }
    ensures range { result ≡ true → (0x20 ≤ code) × (code < 0x80) }
{
    if !is_character(mosaic, code) {
        return false;
    }
    u32::from(glyph(option, code)) != u32::from(code)
}

// Whether a code shows itself under each option, and is part of no box and no escape.
fn is_plain(code: u8) -> bool
    ensures { result ≡ rule.is_plain code }
{
    match code {
        0x0b | 0x23 | 0x24 | 0x40 => false,
        _ => code < 0x5b || (0x61 <= code && code < 0x7b),
    }
}

/// Whether each code of a row is plain: then nothing in it looks other than it is written.
pub fn is_plain_row(row: &[u8]) -> bool
    ensures { result ≡ list_all rule.is_plain row.now }
{
    row.iter().all(|code| is_plain(*code))
}

/// The first code of a row that shows another character than in ASCII: its column, the code and the character.
pub fn other_code(option: u8, row: &[u8]) -> Option<(usize, u8, char)>
    requires { option < 8 }
    ensures { result ≡ rule.other_code option row.now }
{
    let mut mosaic = false;
    for (column, code) in row.iter().enumerate() {
        if is_other(option, mosaic, *code) {
            return Some((column, *code, glyph(option, *code)));
        }
        mosaic = mosaic_after(mosaic, *code);
    }
    None
}

fn is_hex(code: u8) -> bool
    ensures { result ≡ rule.is_hex code }
{
    (48 <= code && code < 58) || ((65 <= code && code < 71) || (97 <= code && code < 103))
}

// Whether a row begins with an escape.
#[tactic(auto, unfolding(crate::specs::RowSigns::is_escape))]
fn is_escape(row: &[u8]) -> bool
    ensures { result ≡ rule.is_escape row.now }
{
    if row.len() < 6 {
        return false;
    }
    ((row[0] == b'\\') && (row[1] == b'u' && is_hex(row[2])))
        && ((is_hex(row[3]) && is_hex(row[4])) && is_hex(row[5]))
}

// The codes from a column on.
fn rest_from(row: &[u8], column: usize) -> &[u8]
    requires { column ≤ length row.now }
    ensures { result.now ≡ drop column row.now }
{
    &row[column..]
}

/// Whether a row has an escape of TOML, as characters.
pub fn has_escape(row: &[u8]) -> bool
    ensures { result ≡ rule.has_escape row.now }
{
    for (column, _code) in row.iter().enumerate() {
        if is_escape(rest_from(row, column)) {
            return true;
        }
    }
    false
}

// Whether a code is inside a box, given whether the code before it is.
fn boxed_after(boxed: bool, before: u8, code: u8) -> bool
    ensures { result ≡ rule.boxed_after boxed before code }
{
    if before == 0x0b && code == 0x0b {
        return true;
    }
    !(before == 0x0a && code == 0x0a) && boxed
}

/// Whether a row has a box that it does not end.
pub fn is_open(row: &[u8]) -> bool
    ensures { result ≡ rule.is_open row.now }
{
    let mut boxed = false;
    let mut before = 0;
    for code in row {
        boxed = boxed_after(boxed, before, *code);
        before = *code;
    }
    boxed
}
