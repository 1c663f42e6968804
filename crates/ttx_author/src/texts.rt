//! The texts of rows.

ghost use Rattle.std.specs.Prelude.{◌≡◌, ◌<◌, ◌≤◌, ◌%◌, ◌++◌, [], false, map, take, IfOk, OnOk, Ok, slice_index, slice_index_or, ℕ, length};
ghost use Rattle.ttx_author.specs.Options.{option_number};
ghost use Rattle.ttx_author.specs.Rows.{line_of};
ghost use Rattle.ttx_author.specs.Tags.{names};
ghost use Rattle.ttx_author.specs.Texts as rule;

use crate::options::NationalOption;
use crate::rows::mode_after;
use crate::signs::sign;
use crate::tags::name_at;
use std::alloc::{AllocError, Global};

// Appends the name at an index, in braces.
fn push_name(text: &mut Vec<char>, index: usize) -> Result<(), AllocError>
    requires { index < 34 }
    ensures { OnOk result (text.new.items ≡ text.old.items ++ rule.in_braces (slice_index_or names index [])) }
{
    text.push('{')?;
    for byte in name_at(index).as_bytes() {
        text.push(char::from(*byte))?;
    }
    text.push('}')?;
    Ok(())
}

// Appends what is written for one code.
fn push_code(text: &mut Vec<char>, option: u8, mosaic: bool, code: u8) -> Result<(), AllocError>
    requires option { option < 8 }
    requires code { code < 128 }
    ensures { OnOk result (text.new.items ≡ text.old.items ++ rule.one option mosaic code) }
{
    if code < 0x20 {
        push_name(text, usize::from(code))
    } else {
        text.push(sign(mosaic, option, code))?;
        Ok(())
    }
}

// Whether codes begin with the two of a box or of its end.
fn starts_box(codes: &[u8]) -> bool
    ensures { result ≡ rule.starts_box codes.now }
{
    match codes {
        [code, next, ..] => code == next && (*code == 0x0a || *code == 0x0b),
        _ => false,
    }
}

// The text of codes.
fn written(alloc: Global, codes: &[u8], option: u8) -> Result<Vec<char>, AllocError>
    requires option { option < 8 }
    requires codes { (c : ℕ) → slice_index codes.now c < 128 }
    ensures { IfOk result (λ text. text.items ≡ rule.written option false codes.now) }
{
    let mut text = Vec::new(alloc);
    let mut mosaic = false;
    let mut at = 0;
    while at < codes.len() {
        let code = codes[at];
        if starts_box(&codes[at..]) {
            push_name(&mut text, usize::from(code) + 22)?;
            at += 2;
        } else {
            push_code(&mut text, option, mosaic, code)?;
            mosaic = mode_after(code, mosaic);
            at += 1;
        }
    }
    Ok(text)
}

// The codes of a row, which is sent with parity in its highest bits.
fn without_parity<const N: usize>(row: &[u8; N]) -> [u8; N]
    ensures { result ≡ map (λ code. code % 128) row.now }
{
    let mut codes = [0; N];
    for c in 0..N {
        codes[c] = row[c] % 128;
    }
    codes
}

// The number of codes before the spaces at the end.
fn end_of(codes: &[u8]) -> usize
    ensures within { result ≤ length codes.now }
    ensures codes { take result codes.now ≡ rule.before_spaces codes.now }
{
    let mut end = codes.len();
    while end > 0 && codes[end - 1] == b' ' {
        end -= 1;
    }
    end
}

/// The text of a row of 40 codes or of the 24 of a header, without the spaces at its end. Parity bits are left out. The text means
/// the row again.
pub fn text_of<const N: usize>(
    alloc: Global,
    row: &[u8; N],
    option: NationalOption,
) -> Result<Vec<char>, AllocError>
    ensures text { IfOk result (λ text. text.items ≡ rule.text_of (option_number option) (map (λ code. code % 128) row.now)) }
    ensures meaning { IfOk result (λ text. line_of N (option_number option) text.items ≡ Ok (map (λ code. code % 128) row.now)) }
{
    let codes = without_parity(row);
    let end = end_of(&codes);
    written(alloc, &codes[..end], option.number())
}
