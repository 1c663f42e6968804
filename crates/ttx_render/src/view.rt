//! Renders the View of a memory.

ghost use Rattle.std.specs.Prelude.{◌≡◌, ◌<◌, ◌&&◌, ◌++◌, drop, map, replicate};
ghost use Rattle.ttx_header.specs.Control.{option_of};
ghost use Rattle.ttx_page.specs.Pages.{IsRow, has_double_height, is_tall};
ghost use Rattle.ttx_page.specs.Views.{memory_of};
ghost use Rattle.ttx_render.specs.View.{is_shown, codes_of, has_boxes, lower, rows_to, view_of};

use crate::cells::{Cell, Glyph, Part};
use crate::rows::{Style, row_cells, space_cells};
use ttx_header::Control;
use ttx_links::Target;
use ttx_page::PageMemory;

/// What a viewer sees of a page: 25 rows of 40 cells, and six links.
///
/// `Rows` is a parameter only because the checker cannot yet follow how a struct is made of nested arrays and of targets.
#[derive(Clone, Copy)]
pub struct View<Rows = [[Cell; 40]; 25]> {
    pub cells: Rows,
    pub links: [Option<Target>; 6],
}

/// How a page with these control bits shows its cells. Cells outside a box show the picture in a newsflash (C5) or a subtitle (C6).
pub fn style_of(control: Control) -> Style
    ensures option { result.option ≡ option_of control.0 }
    ensures boxes { result.boxes ≡ has_boxes control.0 }
{
    Style {
        option: control.option(),
        boxes: control.is_newsflash() || control.is_subtitle(),
    }
}

/// Whether height codes have an effect in this row: rows 1 to 22.
pub fn is_tall(number: usize) -> bool
    ensures { result ≡ is_tall number }
{
    1 <= number && number <= 22
}

fn is_shown(memory: &PageMemory, number: usize) -> bool
    ensures { result ≡ is_shown (memory_of memory.now) number }
{
    if number == 0 {
        !memory.control().suppresses_header()
    } else {
        !memory.control().inhibits_display() && (number != 24 || memory.show24())
    }
}

fn lower(cell: Cell) -> Cell
    ensures { result ≡ lower cell }
{
    match cell.part {
        Part::Upper => Cell {
            part: Part::Lower,
            ..cell
        },
        _ => Cell {
            glyph: Glyph::Char(' '),
            ..cell
        },
    }
}

fn space_codes() -> [u8; 40]
    ensures codes { result ≡ replicate 40 0x20 }
    ensures row { IsRow result }
{
    [b' '; 40]
}

// Row 0 with spaces in columns 0 to 7.
fn head_codes(row: &[u8; 40]) -> [u8; 40]
    requires { IsRow row.now }
    ensures codes { result ≡ replicate 8 0x20 ++ drop 8 row.now }
    ensures row { IsRow result }
{
    let mut codes = *row;
    codes[..8].fill(b' ');
    codes
}

/// The codes that row `number`, 0 to 24, shows: spaces if the row is not shown (C7, C10, or row 24 without `show24`).
#[tactic(auto, unfolding(crate::specs::View::codes_of))]
pub fn codes_of(memory: &PageMemory, number: usize) -> [u8; 40]
    requires { number < 25 }
    ensures codes { result ≡ codes_of (memory_of memory.now) number }
    ensures row { IsRow result }
{
    if !is_shown(memory, number) {
        space_codes()
    } else if number == 0 {
        head_codes(&memory.rows()[0])
    } else {
        memory.rows()[number]
    }
}

/// The cells of the hidden row below these cells: lower halves, or spaces in the same attributes.
pub fn below(above: &[Cell; 40]) -> [Cell; 40]
    ensures { result ≡ map lower above.now }
{
    let mut cells = *above;
    for c in 0..40 {
        cells[c] = lower(above[c]);
    }
    cells
}

fn has_double_height(codes: &[u8; 40]) -> bool
    ensures { result ≡ has_double_height codes.now }
{
    codes.iter().any(|code| *code == 0x0d)
}

/// Whether a row with these codes hides the next row, if it is not hidden itself.
pub fn hides_next(codes: &[u8; 40], number: usize) -> bool
    ensures { result ≡ is_tall number && has_double_height codes.now }
{
    is_tall(number) && has_double_height(codes)
}

// Fills the rows in place, each from its own codes or from the row above that hides it. Row 0 hides no row.
fn fill_rows(memory: &PageMemory, cells: &mut [[Cell; 40]; 25])
    ensures { cells.new ≡ rows_to (memory_of memory.now) 25 }
{
    let style = style_of(memory.control());
    cells[0] = row_cells(&codes_of(memory, 0), false, style);
    let mut hidden = false;
    for number in 1..25 {
        if hidden {
            cells[number] = below(&cells[number - 1]);
            hidden = false;
        } else {
            let codes = codes_of(memory, number);
            cells[number] = row_cells(&codes, is_tall(number), style);
            hidden = hides_next(&codes, number);
        }
    }
}

fn joined<Rows: Copy>(cells: Rows, links: [Option<Target>; 6]) -> View<Rows>
    ensures { result ≡ record { cells = cells; links = links } }
{
    View { cells, links }
}

fn six_of(links: &[Option<Target>; 6]) -> [Option<Target>; 6]
    ensures { result ≡ links.now }
{
    [links[0], links[1], links[2], links[3], links[4], links[5]]
}

/// The View of a memory: what a viewer sees, by the display rules of Level 1 (EN 300 706, 12.2).
#[inline(never)]
pub fn render(memory: &PageMemory) -> View
    ensures { result ≡ view_of (memory_of memory.now) }
{
    let mut cells = [space_cells(); 25];
    fill_rows(memory, &mut cells);
    joined(cells, six_of(memory.links()))
}
