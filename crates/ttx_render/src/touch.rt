//! Updates the rows of a View after one row of the memory has changed.

ghost use Rattle.std.specs.Prelude.{◌≡◌, ◌<◌, ◌+◌};
ghost use Rattle.ttx_page.specs.Views.{memory_of};
ghost use Rattle.ttx_render.specs.View.{own_cells, view_row, is_below};
ghost use Rattle.ttx_render.specs.Touch.{DiffersAt, IsView};

use crate::cells::Cell;
use crate::rows::row_cells;
use crate::view::{below, codes_of, hides_next, is_tall, style_of};
use ttx_page::PageMemory;

// Whether the next row is hidden, given whether this one is.
#[tactic(auto, using(crate::proofs::ViewRows::is_below_known))]
fn next_below(memory: &PageMemory, number: usize, hidden: bool) -> bool
    requires number { number < 25 }
    requires hidden { hidden ≡ is_below (memory_of memory.now) number }
    ensures { result ≡ is_below (memory_of memory.now) (number + 1) }
{
    if hidden {
        false
    } else {
        hides_next(&codes_of(memory, number), number)
    }
}

// Whether a row is hidden.
fn is_below(memory: &PageMemory, number: usize) -> bool
    requires { number < 25 }
    ensures { result ≡ is_below (memory_of memory.now) number }
{
    let mut hidden = false;
    for above in 0..number {
        hidden = next_below(memory, above, hidden);
    }
    hidden
}

#[tactic(auto, unfolding(crate::specs::View::own_cells))]
fn own_cells(memory: &PageMemory, number: usize) -> [Cell; 40]
    requires { number < 25 }
    ensures { result ≡ own_cells (memory_of memory.now) number }
{
    row_cells(
        &codes_of(memory, number),
        is_tall(number),
        style_of(memory.control()),
    )
}

#[tactic(auto, using(crate::proofs::ViewRows::view_row_known))]
fn view_row(memory: &PageMemory, number: usize, hidden: bool) -> [Cell; 40]
    requires number { number < 25 }
    requires hidden { hidden ≡ is_below (memory_of memory.now) number }
    ensures { result ≡ view_row (memory_of memory.now) number }
{
    if hidden {
        below(&own_cells(memory, number - 1))
    } else {
        own_cells(memory, number)
    }
}

/// Turns the View of the old memory into that of the new one: renders the row in which they differ, and the rows below it as far
/// as the change of hidden rows reaches.
pub fn retouch(old: &PageMemory, new: &PageMemory, row: usize, cells: &mut [[Cell; 40]; 25])
    requires row { row < 25 }
    requires differs { DiffersAt (memory_of old.now) (memory_of new.now) row }
    requires cells { IsView (memory_of old.now) cells.old }
    ensures { IsView (memory_of new.now) cells.new }
{
    let mut was = is_below(old, row);
    let mut now = was;
    for number in row..25 {
        if number > row && !was && !now {
            return;
        }
        cells[number] = view_row(new, number, now);
        was = next_below(old, number, was);
        now = next_below(new, number, now);
    }
}
