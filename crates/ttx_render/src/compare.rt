//! Compares Views.

ghost use Rattle.std.specs.Prelude.{◌≡◌, ◌<◌, ◌≤◌, ◌↔◌, ℕ, IsTrue, slice_index_or};
ghost use Rattle.ttx_render.specs.Cells.{space_cell};
ghost use Rattle.ttx_render.specs.Comparison.{SameButClock};

use crate::cells::{Cell, Glyph, Part};
use crate::colour::Colour;
use crate::view::View;
use ttx_links::Target;

fn same_glyph(a: Glyph, b: Glyph) -> bool
    ensures { IsTrue result ↔ (a ≡ b) }
{
    a == b
}

fn same_colour(a: Colour, b: Colour) -> bool
    ensures { IsTrue result ↔ (a ≡ b) }
{
    a == b
}

fn same_part(a: Part, b: Part) -> bool
    ensures { IsTrue result ↔ (a ≡ b) }
{
    a == b
}

fn same_cell(a: Cell, b: Cell) -> bool
    ensures { IsTrue result ↔ (a ≡ b) }
{
    same_glyph(a.glyph, b.glyph)
        && same_colour(a.fore, b.fore)
        && same_colour(a.back, b.back)
        && a.flash == b.flash
        && a.concealed == b.concealed
        && a.picture == b.picture
        && same_part(a.part, b.part)
}

fn same_link(a: Option<Target>, b: Option<Target>) -> bool
    ensures { IsTrue result ↔ (a ≡ b) }
{
    a == b
}

// Whether the cells of columns `from` to before `to` are equal.
fn same_cells(a: &[Cell; 40], b: &[Cell; 40], from: usize, to: usize) -> bool
    requires { to ≤ 40 }
    ensures { IsTrue result ↔ ((c : ℕ) → from ≤ c → c < to → slice_index_or a.now c space_cell ≡ slice_index_or b.now c space_cell) }
{
    for c in from..to {
        if !same_cell(a[c], b[c]) {
            return false;
        }
    }
    true
}

/// Whether six links are the same.
pub(crate) fn same_links(a: &[Option<Target>; 6], b: &[Option<Target>; 6]) -> bool
    ensures { IsTrue result ↔ (a.now ≡ b.now) }
{
    for i in 0..6 {
        if !same_link(a[i], b[i]) {
            return false;
        }
    }
    true
}

/// Whether two Views have the same links and the same cells, except columns 0 to 7 and 32 to 39 of row 0: the receiver's own
/// columns and the clock.
pub fn same_but_clock(a: &View, b: &View) -> bool
    ensures { IsTrue result ↔ SameButClock a.now b.now }
{
    if !same_links(&a.links, &b.links) || !same_cells(&a.cells[0], &b.cells[0], 8, 32) {
        return false;
    }
    for number in 1..25 {
        if !same_cells(&a.cells[number], &b.cells[number], 0, 40) {
            return false;
        }
    }
    true
}
