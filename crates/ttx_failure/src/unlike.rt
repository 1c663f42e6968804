//! The differences between what is shown and the page as it was authored.

ghost use Rattle.std.specs.Prelude.{◌≡◌, ◌≤◌, ◌==◌, ◌++◌, if◌then◌else◌, OnOk, length, string_bytes};
ghost use Rattle.ttx_failure.specs.Unlike as rule;
ghost use Rattle.ttx_header.specs.Ids.{same_id};

use std::alloc::AllocError;
use ttx_document::push_words;
use ttx_links::Target;
use ttx_render::{Cell, View, cell_word};

// The cells of a row that are compared.
fn compared(number: usize, cells: &[Cell; 40]) -> &[Cell]
    ensures cells { result.now ≡ rule.compared number cells.now }
    ensures size { length result.now ≡ (if number == 0 then 24 else 40) }
{
    if number == 0 { &cells[8..32] } else { cells }
}

// Whether some cells differ.
fn unlike_cells(shown: &[Cell], own: &[Cell]) -> bool
    requires { length shown.now ≤ length own.now }
    ensures { result ≡ rule.unlike_cells shown.now own.now }
{
    for i in 0..shown.len() {
        if cell_word(&shown[i]) != cell_word(&own[i]) {
            return true;
        }
    }
    false
}

/// Whether row `number` differs in the cells that are compared.
#[tactic(auto, unfolding(crate::specs::Unlike::is_unlike))]
pub(crate) fn is_unlike(number: usize, shown: &[Cell; 40], own: &[Cell; 40]) -> bool
    ensures { result ≡ rule.is_unlike number shown.now own.now }
{
    unlike_cells(compared(number, shown), compared(number, own))
}

fn same_target(a: &Target, b: &Target) -> bool
    ensures { result ≡ same_id a.now b.now }
{
    a.mag() == b.mag() && a.page() == b.page() && a.sub() == b.sub()
}

fn same_link(a: &Option<Target>, b: &Option<Target>) -> bool
    ensures { result ≡ rule.same_link a.now b.now }
{
    match (a, b) {
        (None, None) => true,
        (Some(a), Some(b)) => same_target(a, b),
        _ => false,
    }
}

/// Whether some links differ.
pub(crate) fn unlike_links(shown: &[Option<Target>], own: &[Option<Target>]) -> bool
    requires { length shown.now ≤ length own.now }
    ensures { result ≡ rule.unlike_links shown.now own.now }
{
    for i in 0..shown.len() {
        if !same_link(&shown[i], &own[i]) {
            return true;
        }
    }
    false
}

#[tactic(auto, unfolding(crate::specs::Unlike::number_if))]
fn push_number_if(text: &mut String, unlike: bool, number: usize) -> Result<(), AllocError>
    ensures { OnOk result (string_bytes text.new ≡ string_bytes text.old ++ rule.number_if unlike number) }
{
    if unlike {
        write!(text, " row {number},")
    } else {
        Ok(())
    }
}

// Appends the names of the rows that differ.
fn push_numbers(
    text: &mut String,
    shown: &[[Cell; 40]],
    own: &[[Cell; 40]],
) -> Result<(), AllocError>
    requires { length shown.now ≤ length own.now }
    ensures { OnOk result (string_bytes text.new ≡ string_bytes text.old ++ rule.unlike_numbers own.now 0 shown.now) }
{
    for (number, cells) in shown.iter().enumerate() {
        push_number_if(text, is_unlike(number, cells, &own[number]), number)?;
    }
    Ok(())
}

#[tactic(auto, unfolding(crate::specs::Unlike::links_words))]
fn push_links_words(text: &mut String, unlike: bool) -> Result<(), AllocError>
    ensures { OnOk result (string_bytes text.new ≡ string_bytes text.old ++ rule.links_words unlike) }
{
    if unlike {
        text.push_str(" links,")
    } else {
        Ok(())
    }
}

/// Appends which rows differ, and whether the links do.
#[tactic(auto, unfolding(crate::specs::Unlike::unlike_text))]
pub(crate) fn push_unlike(text: &mut String, shown: &View, own: &View) -> Result<(), AllocError>
    ensures { OnOk result (string_bytes text.new ≡ string_bytes text.old ++ rule.unlike_text shown.now own.now) }
{
    push_words(text, "It shows otherwise:")?;
    push_numbers(text, &shown.cells, &own.cells)?;
    push_links_words(text, unlike_links(&shown.links, &own.links))?;
    push_words(text, " as marked below.")
}
