//! Texts as codes.

ghost use Rattle.std.specs.Prelude.{◌≡◌, ◌≤◌, ◌<◌, ◌++◌, [], ℕ, Some, IfOk, OnOk, MatchResult, slice_index, string_bytes, map};
ghost use Rattle.std.specs.Str.{chars};
ghost use Rattle.toml.specs.View.{table_view};
ghost use Rattle.ttx_author.specs.Options.{option_number};
ghost use Rattle.ttx_desk.specs.Texts as rule;

use crate::mistakes::{Fault, Mistake, Part};
use crate::tables::put;
use std::alloc::{AllocError, Global};
use toml::{Table, Value};
use ttx_author::{NationalOption, codes_of};

/// The characters of a text.
#[tactic(auto, using(std::proofs::lemmas::Str::chars_from_encodes))]
pub fn characters(alloc: Global, text: &str) -> Result<Vec<char>, AllocError>
    ensures { IfOk result (λ characters. characters.items ≡ chars text.now) }
{
    let characters: Vec<char> = text.chars().collect(alloc)?;
    Ok(characters)
}

// Codes as a text.
fn text_of(alloc: Global, codes: &[u8]) -> Result<String, AllocError>
    requires { (c : ℕ) → slice_index codes.now c < 128 }
    ensures { IfOk result (λ text. string_bytes text ≡ codes.now) }
{
    let mut text = String::new(alloc);
    for code in codes {
        text.push(char::from(*code))?;
    }
    Ok(text)
}

/// A text, and where it goes: the key, the cells that it has, the national option and the part of the page that it is.
#[derive(Clone, Copy)]
pub struct Written<'a> {
    pub key: &'a str,
    pub text: &'a [char],
    pub width: usize,
    pub option: NationalOption,
    pub page: usize,
    pub part: Part,
}

/// Puts the codes of a text into a table, or notes its first mark that has none.
pub fn put_text(
    alloc: Global,
    table: &mut Table,
    written: &Written<'_>,
    mistakes: &mut Vec<Mistake>,
) -> Result<(), AllocError>
    requires { written.now.width ≤ 40 }
    ensures table { OnOk result (table_view table.new
        ≡ rule.text_put written.now.width (option_number written.now.option) written.now.key.now (Some written.now.text.now) (table_view table.old)) }
    ensures mistakes { OnOk result (mistakes.new.items
        ≡ mistakes.old.items ++ rule.text_mistakes written.now.width (option_number written.now.option) written.now.page written.now.part (Some written.now.text.now)) }
{
    match codes_of(written.text, written.option, written.width) {
        Ok(codes) => put(
            alloc,
            table,
            written.key,
            Value::String(text_of(alloc, codes.as_slice())?),
        ),
        Err(lack) => {
            mistakes.push(Mistake {
                page: written.page,
                part: written.part,
                place: lack.place,
                fault: Fault::Mark { why: lack.why },
            })?;
            Ok(())
        }
    }
}
