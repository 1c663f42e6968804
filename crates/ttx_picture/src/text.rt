//! A View as plain text.

ghost use Rattle.std.specs.Prelude.{◌≡◌, ◌++◌, OnOk, string_bytes};
ghost use Rattle.ttx_picture.specs.Text.{cells_text, rows_text, text_of};

use crate::escapes::push_written;
use crate::links::push_links;
use crate::shown::{are_blank, char_of};
use std::alloc::AllocError;
use ttx_render::{Cell, View};

// Appends the characters of cells up to the last one that is not a space.
fn push_cells(
    text: &mut String,
    escapes: bool,
    reveal: bool,
    cells: &[Cell],
) -> Result<(), AllocError>
    ensures { OnOk result (string_bytes text.new ≡ string_bytes text.old ++ cells_text escapes reveal cells.now) }
{
    for (at, cell) in cells.iter().enumerate() {
        if are_blank(reveal, &cells[at..]) {
            return Ok(());
        }
        push_written(text, escapes, char_of(reveal, cell))?;
    }
    Ok(())
}

/// Appends the rows as lines, escaped if the text is part of HTML (`escapes`).
pub(crate) fn push_rows(
    text: &mut String,
    escapes: bool,
    reveal: bool,
    rows: &[[Cell; 40]],
) -> Result<(), AllocError>
    ensures { OnOk result (string_bytes text.new ≡ string_bytes text.old ++ rows_text escapes reveal rows.now) }
{
    for cells in rows {
        push_cells(text, escapes, reveal, cells)?;
        text.push('\n')?;
    }
    Ok(())
}

/// Appends a View as lines of characters. Concealed characters are shown only if `reveal` is true.
pub(crate) fn push_text(text: &mut String, reveal: bool, view: &View) -> Result<(), AllocError>
    ensures { OnOk result (string_bytes text.new ≡ string_bytes text.old ++ text_of reveal view.now) }
{
    push_rows(text, false, reveal, &view.cells)?;
    text.push_str("links")?;
    push_links(text, &view.links)?;
    text.push('\n')
}
