//! Two Views beside each other, as text.

ghost use Rattle.std.specs.Prelude.{◌≡◌, ◌≤◌, ◌<◌, ◌++◌, IfOk, OnOk, false, length, replicate, string_bytes};
ghost use Rattle.ttx_failure.specs.Beside as rule;
ghost use Rattle.ttx_picture.specs.Forms.{picture_of};
ghost use Rattle.ttx_picture.specs.declared.forms.Form.TheVariants.{Text};

use crate::unlike::{is_unlike, unlike_links};
use std::alloc::{AllocError, Global};
use ttx_digits::push_decimal;
use ttx_document::push_words;
use ttx_picture::{Form, push_picture};
use ttx_render::{Cell, View};

// The first line of a text, and what is after it.
fn first_line(text: &str) -> (&str, &str)
    ensures line { result.0.now ≡ rule.line_of text.now }
    ensures rest { result.1.now ≡ rule.after_line text.now }
{
    match text.split_once('\n') {
        Some((line, rest)) => (line, rest),
        None => (text, ""),
    }
}

// How many characters a text is.
fn width(line: &str) -> usize
    ensures { result ≡ rule.width line.now }
{
    let bytes = line.as_bytes();
    let mut count = 0;
    for at in 0..bytes.len() {
        if !(128 <= bytes[at] && bytes[at] <= 191) {
            count += 1;
        }
    }
    count
}

fn push_spaces(text: &mut String, count: usize) -> Result<(), AllocError>
    ensures { OnOk result (string_bytes text.new ≡ string_bytes text.old ++ replicate count 32) }
{
    for _ in 0..count {
        text.push(' ')?;
    }
    Ok(())
}

// Appends spaces up to 40 characters.
#[tactic(auto, unfolding(crate::specs::Beside::padding))]
fn push_padding(text: &mut String, line: &str) -> Result<(), AllocError>
    ensures { OnOk result (string_bytes text.new ≡ string_bytes text.old ++ rule.padding line.now) }
{
    push_spaces(text, 40usize.saturating_sub(width(line)))
}

#[tactic(auto, unfolding(crate::specs::Beside::mark_text))]
fn push_mark(text: &mut String, unlike: bool) -> Result<(), AllocError>
    ensures { OnOk result (string_bytes text.new ≡ string_bytes text.old ++ rule.mark_text unlike) }
{
    if unlike {
        text.push_str("* ")
    } else {
        text.push_str("  ")
    }
}

#[tactic(auto, unfolding(crate::specs::Beside::indent_text))]
fn push_indent(text: &mut String, number: usize) -> Result<(), AllocError>
    ensures { OnOk result (string_bytes text.new ≡ string_bytes text.old ++ rule.indent_text number) }
{
    if number < 10 {
        text.push_str(" ")
    } else {
        Ok(())
    }
}

// Appends the number of a row in two places.
#[tactic(auto, unfolding(crate::specs::Beside::number_text))]
fn push_number(text: &mut String, number: usize) -> Result<(), AllocError>
    ensures { OnOk result (string_bytes text.new ≡ string_bytes text.old ++ rule.number_text number) }
{
    push_indent(text, number)?;
    push_decimal(text, number)?;
    push_words(text, "  ")
}

#[tactic(auto, unfolding(crate::specs::Beside::both_text))]
fn push_both(text: &mut String, own: &str, shown: &str) -> Result<(), AllocError>
    ensures { OnOk result (string_bytes text.new ≡ string_bytes text.old ++ rule.both_text own.now shown.now) }
{
    push_words(text, own)?;
    push_padding(text, own)?;
    push_words(text, " | ")?;
    push_words(text, shown)?;
    push_words(text, "\n")
}

// Appends a row of both.
#[tactic(auto, unfolding(crate::specs::Beside::beside_row))]
fn push_row(
    text: &mut String,
    unlike: bool,
    number: usize,
    own: &str,
    shown: &str,
) -> Result<(), AllocError>
    ensures { OnOk result (string_bytes text.new ≡ string_bytes text.old ++ rule.beside_row unlike number own.now shown.now) }
{
    push_mark(text, unlike)?;
    push_number(text, number)?;
    push_both(text, own, shown)
}

/// The texts of two Views: lines for their rows, and one for their links.
#[derive(Clone, Copy)]
struct Texts<'a> {
    own: &'a str,
    shown: &'a str,
}

// Appends the rows of both, given their texts. Returns the texts after the rows.
fn push_rows<'a>(
    text: &mut String,
    shown: &[[Cell; 40]],
    own: &[[Cell; 40]],
    texts: Texts<'a>,
) -> Result<Texts<'a>, AllocError>
    requires { length shown.now ≤ length own.now }
    ensures rows { OnOk result (string_bytes text.new ≡ string_bytes text.old
        ++ rule.beside_rows own.now 0 shown.now texts.entry.own.now texts.entry.shown.now) }
    ensures own { IfOk result (λ rest. rest.own.now ≡ rule.text_after shown.now texts.entry.own.now) }
    ensures shown { IfOk result (λ rest. rest.shown.now ≡ rule.text_after shown.now texts.entry.shown.now) }
{
    let mut own_text = texts.own;
    let mut shown_text = texts.shown;
    for (number, cells) in shown.iter().enumerate() {
        let unlike = is_unlike(number, cells, &own[number]);
        let (own_line, own_rest) = first_line(own_text);
        let (shown_line, shown_rest) = first_line(shown_text);
        push_row(text, unlike, number, own_line, shown_line)?;
        own_text = own_rest;
        shown_text = shown_rest;
    }
    Ok(Texts {
        own: own_text,
        shown: shown_text,
    })
}

// Appends the links of both.
#[tactic(auto, unfolding(crate::specs::Beside::links_row))]
fn push_links_row(text: &mut String, unlike: bool, own: &str, shown: &str) -> Result<(), AllocError>
    ensures { OnOk result (string_bytes text.new ≡ string_bytes text.old ++ rule.links_row unlike own.now shown.now) }
{
    push_mark(text, unlike)?;
    push_words(text, "    ")?;
    push_both(text, own, shown)
}

#[tactic(auto, unfolding(crate::specs::Beside::heads_text))]
fn push_heads(text: &mut String) -> Result<(), AllocError>
    ensures { OnOk result (string_bytes text.new ≡ string_bytes text.old ++ rule.heads_text) }
{
    push_words(text, "\n      as authored")?;
    push_spaces(text, 29)?;
    push_words(text, " | as the receiver shows it\n")
}

// The text of a View.
fn text_of(alloc: Global, view: &View) -> Result<String, AllocError>
    ensures { IfOk result (λ text. string_bytes text ≡ picture_of Text false view.now) }
{
    let mut text = String::new(alloc);
    push_picture(&mut text, Form::Text, false, view)?;
    Ok(text)
}

// Appends the rows and the links of both, given their texts.
#[tactic(auto, unfolding(crate::specs::Beside::beside_both))]
fn push_views(
    text: &mut String,
    shown: &View,
    own: &View,
    texts: Texts<'_>,
) -> Result<(), AllocError>
    ensures { OnOk result (string_bytes text.new ≡ string_bytes text.old
        ++ rule.beside_both shown.now own.now texts.entry.own.now texts.entry.shown.now) }
{
    let rest = push_rows(text, &shown.cells, &own.cells, texts)?;
    let unlike = unlike_links(&shown.links, &own.links);
    let (own_line, _) = first_line(rest.own);
    let (shown_line, _) = first_line(rest.shown);
    push_links_row(text, unlike, own_line, shown_line)
}

/// Appends the page as it was authored beside what is shown. Rows that differ are marked.
#[tactic(auto, unfolding(crate::specs::Beside::beside_text))]
pub(crate) fn push_beside(
    alloc: Global,
    text: &mut String,
    shown: &View,
    own: &View,
) -> Result<(), AllocError>
    ensures { OnOk result (string_bytes text.new ≡ string_bytes text.old ++ rule.beside_text shown.now own.now) }
{
    let own_text = text_of(alloc, own)?;
    let shown_text = text_of(alloc, shown)?;
    let texts = Texts {
        own: own_text.as_str(),
        shown: shown_text.as_str(),
    };
    push_heads(text)?;
    push_views(text, shown, own, texts)
}
