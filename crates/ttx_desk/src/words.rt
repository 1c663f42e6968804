//! What is wrong in an author's text, in words.

ghost use Rattle.std.specs.Prelude.{◌≡◌, ◌++◌, ◌==◌, ◌<◌, codes, map, option_map, drop, take, length, flat_map, slice_index_or, IfOk, OnOk, string_bytes, ℕ, List};
ghost use Rattle.std.specs.List.{position};
ghost use Rattle.toml.specs.View.{table_view};
ghost use Rattle.ttx_author.specs.Options.{option_number, option_names};
ghost use Rattle.ttx_author.specs.Signs.{has_character};
ghost use Rattle.ttx_desk.specs.Words as rule;

use crate::mistakes::{Fault, Mistake};
use crate::wrongs::{Wrong, wrong_part};
use std::alloc::{AllocError, Global};
use toml::Table;
use ttx_author::{Why, codes_of, nearest_tag, options_with};
use ttx_digits::push_decimal;

static OPTION_NAMES: [&str; 7] = [
    "english", "german", "swedish", "italian", "french", "spanish", "czech",
];

fn name_or<'a>(names: &[&'a str], number: usize, other: &'a str) -> &'a str
    ensures { result.now ≡ slice_index_or (map (λ name. name.now) names.now) number other.now }
{
    match names.get(number) {
        Some(name) => *name,
        None => other,
    }
}

#[tactic(auto, unfolding(ttx_author::specs::Options::option_names))]
fn option_names() -> &'static [&'static str]
    ensures { map (λ name. name.now) result.now ≡ option_names }
{
    &OPTION_NAMES
}

/// The name of the national option with a number; option 7 has the characters of English.
pub(crate) fn option_name(number: usize) -> &'static str
    ensures { result.now ≡ rule.option_name number }
{
    name_or(option_names(), number, "option 7")
}

fn is_unseen(c: char) -> bool
    ensures { result ≡ rule.is_unseen c }
{
    c < ' ' || c == '\u{7f}'
}

// Adds a character, or its number if it is invisible.
fn push_sign(text: &mut String, c: char) -> Result<(), AllocError>
    ensures { OnOk result (string_bytes text.new ≡ string_bytes text.old ++ rule.sign_text c) }
{
    if is_unseen(c) {
        text.push_str("character ")?;
        push_decimal(text, u32::from(c) as usize)
    } else {
        text.push(c)
    }
}

#[tactic(auto, unfolding(crate::specs::Words::signs_text))]
fn push_signs(text: &mut String, signs: &[char]) -> Result<(), AllocError>
    ensures { OnOk result (string_bytes text.new ≡ string_bytes text.old ++ rule.signs_text signs.now) }
{
    for c in signs {
        push_sign(text, *c)?;
    }
    Ok(())
}

#[tactic(auto, unfolding(crate::specs::Words::utf8_text))]
fn push_characters(text: &mut String, characters: &[char]) -> Result<(), AllocError>
    ensures { OnOk result (string_bytes text.new ≡ string_bytes text.old ++ rule.utf8_text characters.now) }
{
    for c in characters {
        text.push(*c)?;
    }
    Ok(())
}

// Adds a comma and a name.
fn push_after_comma(text: &mut String, name: &str) -> Result<(), AllocError>
    ensures { OnOk result (string_bytes text.new ≡ string_bytes text.old ++ rule.after_comma name.now) }
{
    text.push_str(", ")?;
    text.push_str(name)
}

// Adds names, each after a comma.
fn push_names(text: &mut String, names: &[&str]) -> Result<(), AllocError>
    ensures { OnOk result (string_bytes text.new ≡ string_bytes text.old ++ flat_map rule.after_comma (map (λ name. name.now) names.now)) }
{
    for name in names {
        push_after_comma(text, *name)?;
    }
    Ok(())
}

// Whether the national option with a number has a character.
fn has_option(c: char, number: usize) -> bool
    requires { number < 8 }
    ensures { result ≡ has_character number c }
{
    options_with(c)[number]
}

// Adds the name of a national option, if it has a character.
fn push_if(names: &mut Vec<&'static str>, c: char, number: usize) -> Result<(), AllocError>
    requires { number < 8 }
    ensures { OnOk result (map (λ name. name.now) names.new.items ≡ map (λ name. name.now) names.old.items ++ rule.name_if c number) }
{
    if has_option(c, number) {
        names.push(option_name(number))?;
    }
    Ok(())
}

// The names of the options that have a character.
fn names_with(alloc: Global, c: char) -> Result<Vec<&'static str>, AllocError>
    ensures { IfOk result (λ names. map (λ name. name.now) names.items ≡ rule.names_with c) }
{
    let mut names = Vec::new(alloc);
    for number in 0..7usize {
        push_if(&mut names, c, number)?;
    }
    Ok(names)
}

// Adds names, separated by commas.
#[tactic(auto, unfolding(crate::specs::Words::name_list))]
fn push_name_list(text: &mut String, names: &[&str]) -> Result<(), AllocError>
    ensures { OnOk result (string_bytes text.new ≡ string_bytes text.old ++ rule.name_list (map (λ name. name.now) names.now)) }
{
    match names {
        [] => Ok(()),
        [name, names @ ..] => {
            text.push_str(*name)?;
            push_names(text, names)
        }
    }
}

// Adds the options that have a character: these names.
fn push_known(text: &mut String, names: &[&str]) -> Result<(), AllocError>
    ensures { OnOk result (string_bytes text.new
        ≡ string_bytes text.old ++ (codes "; these have it: " ++ rule.name_list (map (λ name. name.now) names.now))) }
{
    text.push_str("; these have it: ")?;
    push_name_list(text, names)
}

// Adds the options that have a character.
fn push_options(text: &mut String, names: &[&str]) -> Result<(), AllocError>
    ensures { OnOk result (string_bytes text.new ≡ string_bytes text.old ++ rule.options_words (map (λ name. name.now) names.now)) }
{
    match names {
        [] => text.push_str("; no national option has it"),
        [_name, ..] => push_known(text, names),
    }
}

// Adds what an author can do about a character that the option does not have.
fn push_remedy(alloc: Global, text: &mut String, c: char) -> Result<(), AllocError>
    ensures { OnOk result (string_bytes text.new ≡ string_bytes text.old ++ rule.remedy_words c) }
{
    if is_unseen(c) {
        return text.push_str("; control codes are written by names, as {red}");
    }
    let names = names_with(alloc, c)?;
    push_options(text, names.as_slice())
}

// Adds what is wrong with a character that the option does not have.
fn push_missing(alloc: Global, text: &mut String, option: usize, c: char) -> Result<(), AllocError>
    ensures { OnOk result (string_bytes text.new ≡ string_bytes text.old ++ rule.missing_words option c) }
{
    text.push_str(option_name(option))?;
    text.push_str(" has no ")?;
    push_sign(text, c)?;
    push_remedy(alloc, text, c)
}

// The characters before a place.
fn front(text: &[char], place: usize) -> &[char]
    ensures { result.now ≡ take place text.now }
{
    if place < text.len() {
        &text[..place]
    } else {
        text
    }
}

// The characters from a place on.
fn rest(text: &[char], place: usize) -> &[char]
    ensures { result.now ≡ drop place text.now }
{
    if place < text.len() {
        &text[place..]
    } else {
        &[]
    }
}

// The cell in which a mark stands, from 1.
fn cell_at(wrong: &Wrong, place: usize) -> usize
    ensures { result ≡ rule.cell_at (option_number wrong.now.option) wrong.now.width wrong.now.text.items place }
{
    let before = front(wrong.text.as_slice(), place);
    match codes_of(before, wrong.option, wrong.width) {
        Ok(codes) => codes.len() + 1,
        Err(_) => wrong.width,
    }
}

// Adds what is wrong with a mark of the other mode, in this cell.
fn push_mode(
    text: &mut String,
    cell: usize,
    c: char,
    mode: &str,
    needs: &str,
) -> Result<(), AllocError>
    ensures { OnOk result (string_bytes text.new ≡ string_bytes text.old ++ rule.mode_words cell c mode.now needs.now) }
{
    write!(text, "cell {cell} stands {mode}, where ")?;
    push_sign(text, c)?;
    write!(
        text,
        " is not shown; a tag such as {{{needs}}} is missing before it"
    )
}

fn closing_brace(text: &[char]) -> Option<usize>
    ensures { result ≡ position (λ c. c == 0x7d) text.now }
{
    text.iter().position(|c| *c == '}')
}

// The name after a brace, up to the brace that closes it.
fn name_behind(text: &[char]) -> Option<&[char]>
    ensures { option_map (λ name. name.now) result ≡ rule.name_behind text.now }
{
    let [_brace, rest @ ..] = text else {
        return None;
    };
    match closing_brace(rest) {
        Some(end) => Some(front(rest, end)),
        None => None,
    }
}

// Adds the name of the nearest tag.
fn push_nearest(text: &mut String, nearest: &str) -> Result<(), AllocError>
    ensures { OnOk result (string_bytes text.new ≡ string_bytes text.old ++ rule.nearest_words nearest.now) }
{
    write!(text, "}}; the nearest is {{{nearest}}}")
}

// Adds that there is no tag of a name, and the nearest one.
fn push_near(text: &mut String, name: &[char], nearest: &str) -> Result<(), AllocError>
    ensures { OnOk result (string_bytes text.new ≡ string_bytes text.old ++ rule.near_words name.now nearest.now) }
{
    text.push_str("there is no {")?;
    push_characters(text, name)?;
    push_nearest(text, nearest)
}

// Adds what is wrong with a brace that begins no tag.
fn push_brace(alloc: Global, text: &mut String, name: Option<&[char]>) -> Result<(), AllocError>
    ensures { OnOk result ((words : List ℕ) × rule.IsBraceWords (option_map (λ name. name.now) name.entry) words
        × (string_bytes text.new ≡ string_bytes text.old ++ words)) }
{
    let Some(name) = name else {
        return text.push_str("no } ends this name; a brace that is to be seen is written {{");
    };
    let nearest = nearest_tag(alloc, name)?;
    push_near(text, name, nearest)
}

// The character at a place.
fn character_at(text: &[char], place: usize) -> char
    ensures { result ≡ slice_index_or text.now place 0x20 }
{
    match text.get(place) {
        Some(c) => *c,
        None => ' ',
    }
}

// Adds why a mark has no code.
fn push_mark(
    alloc: Global,
    text: &mut String,
    wrong: &Wrong,
    place: usize,
    why: Why,
) -> Result<(), AllocError>
    ensures { OnOk result ((words : List ℕ)
        × rule.IsMarkWords (option_number wrong.now.option) wrong.now.width wrong.now.text.items place why words
        × (string_bytes text.new ≡ string_bytes text.old ++ words)) }
{
    let c = character_at(wrong.text.as_slice(), place);
    let cell = cell_at(wrong, place);
    match why {
        Why::Character => push_missing(alloc, text, usize::from(wrong.option.number()), c),
        Why::Letter => push_mode(text, cell, c, "in mosaic mode", "white"),
        Why::Mosaic => push_mode(text, cell, c, "outside mosaic mode", "mosaic white"),
        Why::Tag => push_brace(alloc, text, name_behind(rest(wrong.text.as_slice(), place))),
        Why::Room => {
            text.push_str("no cell is left; there are ")?;
            push_decimal(text, wrong.width)
        }
    }
}

// Adds the names of all options.
fn push_all_names(text: &mut String) -> Result<(), AllocError>
    ensures { OnOk result (string_bytes text.new ≡ string_bytes text.old ++ rule.name_list option_names) }
{
    push_name_list(text, option_names())
}

// Adds what is wrong with the name of a national option.
fn push_name(text: &mut String, name: &[char]) -> Result<(), AllocError>
    ensures { OnOk result (string_bytes text.new ≡ string_bytes text.old ++ rule.name_words name.now) }
{
    text.push_str("no national option is called ")?;
    push_signs(text, name)?;
    text.push_str("; the names are ")?;
    push_all_names(text)
}

// Adds what is wrong in a part.
fn push_words(
    alloc: Global,
    text: &mut String,
    wrong: &Wrong,
    mistake: &Mistake,
) -> Result<(), AllocError>
    ensures { OnOk result ((words : List ℕ)
        × rule.IsWords mistake.now.fault (option_number wrong.now.option) wrong.now.width wrong.now.text.items mistake.now.place words
        × (string_bytes text.new ≡ string_bytes text.old ++ words)) }
{
    match mistake.fault {
        Fault::Mark { why } => push_mark(alloc, text, wrong, mistake.place, why),
        Fault::Name => push_name(text, wrong.text.as_slice()),
        Fault::Twice => text.push_str("this row stands in `text` too; leave one of them out"),
        Fault::Lines => text.push_str("`text` has more than 24 lines; a page has rows 1 to 24"),
    }
}

/// Adds what is wrong.
pub fn push_fault(
    alloc: Global,
    text: &mut String,
    author: &Table,
    mistake: &Mistake,
) -> Result<(), AllocError>
    ensures { OnOk result ((words : List ℕ) × rule.IsFaultWords (table_view author.now) mistake.now words
        × (string_bytes text.new ≡ string_bytes text.old ++ words)) }
{
    let wrong = wrong_part(alloc, author, mistake)?;
    push_words(alloc, text, &wrong, mistake)
}
