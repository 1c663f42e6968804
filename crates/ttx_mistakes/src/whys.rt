//! The rule that a page number or a subcode breaks.

ghost use Rattle.std.specs.Prelude.{◌≡◌};
ghost use Rattle.std.specs.List.{list_any};
ghost use Rattle.ttx_mistakes.specs.Notes as rule;

use toml_parser::bytes::byte_at;

fn has_small_digit(text: &[u8]) -> bool
    ensures { result ≡ list_any rule.is_small_digit text.now }
{
    text.iter().any(|c| 97 <= *c && *c < 103)
}

fn is_page_length(size: usize) -> bool
    ensures { result ≡ rule.is_page_length size }
{
    size == 3 || size == 8
}

fn is_magazine(digit: u8) -> bool
    ensures { result ≡ rule.is_magazine digit }
{
    49 <= digit && digit <= 56
}

/// The first rule that a page number, or a link, breaks.
#[tactic(auto, unfolding(crate::specs::Notes::why_page))]
pub fn why_page(text: &str) -> &'static str
    ensures { result.now ≡ rule.why_page text.now }
{
    let text = text.as_bytes();
    if has_small_digit(text) {
        return ": hexadecimal digits are capitals";
    }
    if !is_page_length(text.len()) {
        return ": a page is three digits, as 100; in a link it may have a subcode, as 100/0001";
    }
    if !is_magazine(byte_at(text, 0)) {
        return ": the first digit, the magazine, is 1 to 8";
    }
    if byte_at(text, 1) == b'F' && byte_at(text, 2) == b'F' {
        ": page FF has no text, time-filling headers have this number"
    } else {
        ": after the magazine come two digits, 0 to 9 or A to F"
    }
}

fn is_subcode_length(size: usize) -> bool
    ensures { result ≡ rule.is_subcode_length size }
{
    size == 4 || size == 8
}

/// The first rule that a subcode, of a page or in a link, breaks (EN 300 706, 9.3.1.2).
#[tactic(auto, unfolding(crate::specs::Notes::why_subcode))]
pub fn why_subcode(text: &str) -> &'static str
    ensures { result.now ≡ rule.why_subcode text.now }
{
    if has_small_digit(text.as_bytes()) {
        return ": hexadecimal digits are capitals";
    }
    if !is_subcode_length(text.len()) {
        return ": a subcode is four digits, as 0001";
    }
    if text == "3F7F" {
        ": 3F7F means any subcode, in a link"
    } else {
        ": its digits are at most 3, F, 7 and F"
    }
}
