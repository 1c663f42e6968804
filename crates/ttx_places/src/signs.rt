//! Places of characters in the texts of a TOML text.

ghost use Rattle.std.specs.Prelude.{◌≡◌, ◌≤◌, length, drop};
ghost use Rattle.ttx_places.specs.Signs as rule;

use toml_parser::bytes::byte_at;

// The bytes that an escape takes, from its backslash on.
fn escape_size(letter: u8) -> usize
    ensures { result ≡ rule.escape_size letter }
{
    match letter {
        b'x' => 4,
        b'u' => 6,
        b'U' => 10,
        _ => 2,
    }
}

// The bytes of a character, by its first byte.
fn utf8_size(byte: u8) -> usize
    ensures { result ≡ rule.utf8_size byte }
{
    if byte < 192 {
        1
    } else if byte < 224 {
        2
    } else if byte < 240 {
        3
    } else {
        4
    }
}

// The bytes that stand for the next character.
fn sign_size(basic: bool, text: &[u8]) -> usize
    ensures { result ≡ rule.sign_size basic text.now }
{
    if basic && byte_at(text, 0) == b'\\' {
        escape_size(byte_at(text, 1))
    } else {
        utf8_size(byte_at(text, 0))
    }
}

// The text after so many bytes.
fn skipped(text: &[u8], size: usize) -> &[u8]
    ensures rest { result.now ≡ drop size text.now }
    ensures within { length result.now ≤ length text.now }
{
    match text.get(size..) {
        Some(rest) => rest,
        None => &[],
    }
}

// The text after a number of characters.
fn after_signs(basic: bool, count: usize, text: &[u8]) -> &[u8]
    ensures rest { result.now ≡ rule.after_signs basic count text.now }
    ensures within { length result.now ≤ length text.now }
{
    let mut rest = text;
    for _sign in 0..count {
        rest = skipped(rest, sign_size(basic, rest));
    }
    rest
}

// Whether a text stands in three quotation marks.
fn is_long(text: &[u8]) -> bool
    ensures { result ≡ rule.is_long text.now }
{
    byte_at(text, 0) == byte_at(text, 1) && byte_at(text, 1) == byte_at(text, 2)
}

/// The place of the character with this index, from 0, of the text whose first quotation mark is the byte at `place`: the place of the
/// first byte that stands for it. For a text in three quotation marks it is `place`.
#[tactic(auto, unfolding(crate::specs::Signs::character_place))]
pub fn character_place(bytes: &[u8], place: usize, index: usize) -> usize
    ensures { result ≡ rule.character_place bytes.now place index }
{
    let text = skipped(bytes, place);
    if is_long(text) {
        return place;
    }
    let rest = after_signs(byte_at(text, 0) == b'"', index, skipped(text, 1));
    bytes.len() - rest.len()
}
