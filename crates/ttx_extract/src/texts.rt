//! Values as they are written in TOML.

ghost use Rattle.std.specs.Prelude.{◌≡◌, ◌<◌, ◌≤◌, ◌++◌, ◌∷◌, [], OnOk, codes, flat_map, length, string_bytes, take};
ghost use Rattle.std.specs.Fmt.{decimal};
ghost use Rattle.ttx_extract.specs.ServiceTexts.{escape, trimmed, quoted, flag_line, number_line, text_line, line, number_word, pair_word};

use std::alloc::AllocError;
use ttx_digits::{digit, push_byte};

/// Adds the three digits of a page number.
#[tactic(auto, unfolding(crate::specs::ServiceTexts::number_word))]
pub fn push_number(text: &mut String, mag: u8, page: u8) -> Result<(), AllocError>
    requires { mag < 10 }
    ensures { OnOk result (string_bytes text.new ≡ string_bytes text.old ++ number_word mag page) }
{
    text.push(digit(mag))?;
    push_byte(text, page)
}

/// Adds two bytes as four digits in quotation marks.
#[tactic(auto, unfolding(crate::specs::ServiceTexts::pair_word))]
pub fn push_pair(text: &mut String, bytes: [u8; 2]) -> Result<(), AllocError>
    ensures { OnOk result (string_bytes text.new ≡ string_bytes text.old ++ pair_word bytes) }
{
    text.push('"')?;
    push_byte(text, bytes[0])?;
    push_byte(text, bytes[1])?;
    text.push('"')
}

// Adds a character. A quotation mark, a backslash, a code below 20 and code 7F are escapes.
#[tactic(auto, unfolding(crate::specs::ServiceTexts::escape))]
fn push_code(text: &mut String, code: u8) -> Result<(), AllocError>
    ensures { OnOk result (string_bytes text.new ≡ string_bytes text.old ++ escape code) }
{
    match code {
        b'"' => text.push_str("\\\""),
        b'\\' => text.push_str("\\\\"),
        b' '..=b'~' => text.push(char::from(code)),
        _ => {
            text.push_str("\\u00")?;
            push_byte(text, code)
        }
    }
}

/// Characters without the spaces at their end.
pub fn trimmed(characters: &[u8]) -> &[u8]
    ensures { result.now ≡ trimmed characters.now }
{
    let mut end = characters.len();
    while end > 0 && characters[end - 1] == b' ' {
        end -= 1;
    }
    &characters[..end]
}

/// Adds characters in quotation marks.
#[tactic(auto, unfolding(crate::specs::ServiceTexts::quoted))]
pub fn push_quoted(text: &mut String, characters: &[u8]) -> Result<(), AllocError>
    ensures { OnOk result (string_bytes text.new ≡ string_bytes text.old ++ quoted characters.now) }
{
    text.push('"')?;
    for code in characters {
        push_code(text, *code)?;
    }
    text.push('"')
}

/// Adds a line with a key that is true.
#[tactic(auto, unfolding(crate::specs::ServiceTexts::flag_line))]
pub fn push_flag(text: &mut String, key: &str, is_set: bool) -> Result<(), AllocError>
    ensures { OnOk result (string_bytes text.new ≡ string_bytes text.old ++ flag_line key.now is_set) }
{
    if is_set {
        writeln!(text, "{key} = true")?;
    }
    Ok(())
}

/// Adds a line with a number that isn't the default.
#[tactic(auto, unfolding(crate::specs::ServiceTexts::number_line))]
pub fn push_number_line(
    text: &mut String,
    key: &str,
    default: u8,
    number: u8,
) -> Result<(), AllocError>
    ensures { OnOk result (string_bytes text.new ≡ string_bytes text.old ++ number_line key.now default number) }
{
    if number != default {
        writeln!(text, "{key} = {number}")?;
    }
    Ok(())
}

/// Adds a line with a text that isn't all spaces.
#[tactic(auto, unfolding(crate::specs::ServiceTexts::text_line))]
pub fn push_text_line(text: &mut String, key: &str, characters: &[u8]) -> Result<(), AllocError>
    ensures { OnOk result (string_bytes text.new ≡ string_bytes text.old ++ text_line key.now characters.now) }
{
    let kept = trimmed(characters);
    if kept.is_empty() {
        return Ok(());
    }
    write!(text, "{key} = ")?;
    push_quoted(text, kept)?;
    text.push('\n')
}
