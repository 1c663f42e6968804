//! The differences of two Views, in lines.

ghost use Rattle.std.specs.Prelude.{◌≡◌, ◌<◌, ◌≤◌, ◌∷◌, ◌++◌, [], OnOk, IfOk, codes, length, string_bytes};
ghost use Rattle.std.specs.Str.{bytes_eq};
ghost use Rattle.ttx_lines.specs.Texts.{link_ids_text};
ghost use Rattle.ttx_lines.specs.UnlikeViews.{compared, both_rows, unlike_row, unlike_rows, both_links, unlike_links, unlike_lines};
ghost use Rattle.ttx_lines.specs.ViewLines.{cell_words};

use crate::texts::push_links;
use crate::views::{push_cells, push_row};
use std::alloc::{AllocError, Global};
use ttx_links::Target;
use ttx_render::{Cell, View};

// The cells of a row that are compared.
fn compared(number: usize, cells: &[Cell; 40]) -> &[Cell]
    ensures { result.now ≡ compared number cells.now }
{
    if number == 0 { &cells[8..32] } else { cells }
}

// The words of cells.
fn words_of(alloc: Global, cells: &[Cell]) -> Result<String, AllocError>
    ensures { IfOk result (λ words. string_bytes words ≡ cell_words cells.now) }
{
    let mut words = String::new(alloc);
    push_cells(&mut words, cells)?;
    Ok(words)
}

// Whether the words of the cells that are compared are equal.
fn are_alike(
    alloc: Global,
    number: usize,
    shown: &[Cell; 40],
    own: &[Cell; 40],
) -> Result<bool, AllocError>
    ensures { IfOk result (λ b. b ≡ bytes_eq (cell_words (compared number shown.now)) (cell_words (compared number own.now))) }
{
    let shown = words_of(alloc, compared(number, shown))?;
    let own = words_of(alloc, compared(number, own))?;
    Ok(shown.as_str() == own.as_str())
}

// Adds both lines of a row.
fn push_both_rows(
    text: &mut String,
    number: usize,
    shown: &[Cell; 40],
    own: &[Cell; 40],
) -> Result<(), AllocError>
    ensures { OnOk result (string_bytes text.new ≡ string_bytes text.old ++ both_rows number shown.now own.now) }
{
    text.push_str("shown ")?;
    push_row(text, number, shown)?;
    text.push_str("page ")?;
    push_row(text, number, own)
}

// Adds both lines of a row where they differ.
#[tactic(auto, unfolding(crate::specs::UnlikeViews::unlike_row))]
fn push_unlike_row(
    alloc: Global,
    text: &mut String,
    number: usize,
    shown: &[Cell; 40],
    own: &[Cell; 40],
) -> Result<(), AllocError>
    ensures { OnOk result (string_bytes text.new ≡ string_bytes text.old ++ unlike_row number shown.now own.now) }
{
    if are_alike(alloc, number, shown, own)? {
        Ok(())
    } else {
        push_both_rows(text, number, shown, own)
    }
}

// Adds the lines of the rows that differ.
fn push_unlike_rows(
    alloc: Global,
    text: &mut String,
    shown: &[[Cell; 40]],
    own: &[[Cell; 40]],
) -> Result<(), AllocError>
    requires { length shown.now ≤ length own.now }
    ensures { OnOk result (string_bytes text.new ≡ string_bytes text.old ++ unlike_rows own.now 0 shown.now) }
{
    for (number, cells) in shown.iter().enumerate() {
        push_unlike_row(alloc, text, number, cells, &own[number])?;
    }
    Ok(())
}

// The text of links.
fn text_of(alloc: Global, links: &[Option<Target>]) -> Result<String, AllocError>
    ensures { IfOk result (λ text. string_bytes text ≡ link_ids_text links.now) }
{
    let mut text = String::new(alloc);
    push_links(&mut text, links)?;
    Ok(text)
}

// Adds both lines of the links.
fn push_both_links(text: &mut String, shown: &str, own: &str) -> Result<(), AllocError>
    ensures { OnOk result (string_bytes text.new ≡ string_bytes text.old ++ both_links shown.now own.now) }
{
    write!(text, "shown links{shown}\npage links{own}\n")
}

// Adds both lines of the links where they differ.
#[tactic(auto, unfolding(crate::specs::UnlikeViews::unlike_links))]
fn push_unlike_links(
    alloc: Global,
    text: &mut String,
    shown: &[Option<Target>],
    own: &[Option<Target>],
) -> Result<(), AllocError>
    ensures { OnOk result (string_bytes text.new ≡ string_bytes text.old ++ unlike_links shown.now own.now) }
{
    let shown = text_of(alloc, shown)?;
    let own = text_of(alloc, own)?;
    if shown.as_str() == own.as_str() {
        Ok(())
    } else {
        push_both_links(text, shown.as_str(), own.as_str())
    }
}

/// Adds the lines of two Views where they differ: of what is shown, and of the page.
pub fn push_unlike_lines(
    alloc: Global,
    text: &mut String,
    shown: &View,
    own: &View,
) -> Result<(), AllocError>
    ensures { OnOk result (string_bytes text.new ≡ string_bytes text.old ++ unlike_lines shown.now own.now) }
{
    push_unlike_rows(alloc, text, &shown.cells, &own.cells)?;
    push_unlike_links(alloc, text, &shown.links, &own.links)
}
