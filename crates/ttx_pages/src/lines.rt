//! The line of a page.

ghost use Rattle.std.specs.Prelude.{◌≡◌, ◌<◌, ◌++◌, OnOk, codes, string_bytes};
ghost use Rattle.ttx_pages.specs.Lines.{character, quoted, quoted_text, counts_text, quoted_line, listed_line};

use std::alloc::AllocError;
use ttx_code::odd_of;
use ttx_digits::{push_byte, push_control, push_id};
use ttx_header::Header;

// Appends a character in quotation marks, escaped if necessary.
fn push_character(text: &mut String, code: u8) -> Result<(), AllocError>
    requires { code < 128 }
    ensures { OnOk result (string_bytes text.new ≡ string_bytes text.old ++ character code) }
{
    match code {
        b'"' | b'\\' => {
            text.push('\\')?;
            text.push(char::from(code))
        }
        0..=31 | 127 => {
            text.push_str("\\x")?;
            push_byte(text, code)
        }
        _ => text.push(char::from(code)),
    }
}

// Appends the character of a byte; `\?` if the byte has even parity.
#[tactic(auto, unfolding(crate::specs::Lines::quoted))]
fn push_quoted(text: &mut String, byte: u8) -> Result<(), AllocError>
    ensures { OnOk result (string_bytes text.new ≡ string_bytes text.old ++ quoted byte) }
{
    match odd_of(byte) {
        Some(code) => push_character(text, code),
        None => text.push_str("\\?"),
    }
}

/// Appends the characters of bytes, escaped as in quotation marks.
pub(crate) fn push_characters(text: &mut String, bytes: &[u8]) -> Result<(), AllocError>
    ensures { OnOk result (string_bytes text.new ≡ string_bytes text.old ++ quoted_text bytes.now) }
{
    for byte in bytes {
        push_quoted(text, *byte)?;
    }
    Ok(())
}

#[tactic(auto, unfolding(crate::specs::Lines::counts_text))]
fn push_counts(text: &mut String, times: usize, rows: usize, links: usize) -> Result<(), AllocError>
    ensures { OnOk result (string_bytes text.new ≡ string_bytes text.old ++ counts_text times rows links) }
{
    write!(text, " sent {times} rows {rows}")?;
    if links != 0 {
        text.push_str(" links")?;
    }
    Ok(())
}

#[tactic(auto, unfolding(crate::specs::Lines::quoted_line))]
fn push_text(text: &mut String, bytes: &[u8]) -> Result<(), AllocError>
    ensures { OnOk result (string_bytes text.new ≡ string_bytes text.old ++ quoted_line bytes.now) }
{
    text.push_str(" \"")?;
    push_characters(text, bytes)?;
    text.push_str("\"\n")
}

/// Appends the line of a page with so many headers, rows and packets X/27/0.
#[tactic(auto, unfolding(crate::specs::Lines::listed_line))]
pub(crate) fn push_page_line(
    text: &mut String,
    header: &Header,
    times: usize,
    rows: usize,
    links: usize,
) -> Result<(), AllocError>
    ensures { OnOk result (string_bytes text.new ≡ string_bytes text.old
        ++ listed_line header.now.id times rows links header.now.control header.now.text) }
{
    push_id(text, header.id())?;
    push_counts(text, times, rows, links)?;
    push_control(text, header.control())?;
    push_text(text, header.text())
}
