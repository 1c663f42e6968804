//! A View as an SVG picture.

ghost use Rattle.std.specs.Prelude.{◌≡◌, ◌<◌, ◌++◌, OnOk, false, string_bytes};
ghost use Rattle.ttx_picture.specs.Svg.{group_start, row_ground, row_tall, row_glyphs, has_upper, is_upper, grounds_from, glyphs_from, pass};
ghost use Rattle.ttx_picture.specs.Svg.{black_screen, body, drawn, svg_start, svg_of};
ghost use Rattle.ttx_picture.specs.declared.svg.pens.Layer.TheVariants.{Ground, Top, Middle, Bottom};
ghost use Rattle.ttx_picture.specs.Bare.{is_mosaic, has_ground};
ghost use Rattle.std.specs.List.{list_any};

mod letters;
mod pens;
mod strokes;
mod styles;

use letters::push_row_letters;
use pens::{Layer, ground};
use std::alloc::AllocError;
use strokes::push_drawn;
pub(crate) use styles::push_style;
use ttx_render::{Cell, Glyph, Part, View};

fn is_mosaic(glyph: Glyph) -> bool
    ensures { result ≡ is_mosaic glyph }
{
    matches!(glyph, Glyph::Mosaic { .. })
}

fn has_mosaics(cells: &[Cell]) -> bool
    ensures { result ≡ list_any (λ c. is_mosaic c.glyph) cells.now }
{
    cells.iter().any(|cell| is_mosaic(cell.glyph))
}

// Appends the mosaics of a row. Most rows have none, and need no look at each block.
fn push_mosaics(
    text: &mut String,
    reveal: bool,
    tall: bool,
    cells: &[Cell; 40],
) -> Result<(), AllocError>
    ensures { OnOk result (string_bytes text.new
        ≡ string_bytes text.old ++ drawn reveal tall Top cells.now ++ drawn reveal tall Middle cells.now ++ drawn reveal tall Bottom cells.now) }
{
    if !has_mosaics(cells) {
        return Ok(());
    }
    push_drawn(text, reveal, tall, Layer::Top, cells)?;
    push_drawn(text, reveal, tall, Layer::Middle, cells)?;
    push_drawn(text, reveal, tall, Layer::Bottom, cells)
}

// Appends the glyphs of a row in single or double height: mosaics, then characters.
fn push_pass(
    text: &mut String,
    reveal: bool,
    tall: bool,
    cells: &[Cell; 40],
) -> Result<(), AllocError>
    ensures { OnOk result (string_bytes text.new ≡ string_bytes text.old ++ pass reveal tall cells.now) }
{
    push_mosaics(text, reveal, tall, cells)?;
    push_row_letters(text, reveal, tall, cells)
}

fn is_upper(part: Part) -> bool
    ensures { result ≡ is_upper part }
{
    match part {
        Part::Upper => true,
        _ => false,
    }
}

fn has_upper(cells: &[Cell]) -> bool
    ensures { result ≡ has_upper cells.now }
{
    for cell in cells {
        if is_upper(cell.part) {
            return true;
        }
    }
    false
}

// Opens the group of a row.
fn push_group_start(text: &mut String, number: usize) -> Result<(), AllocError>
    requires { number < 25 }
    ensures { OnOk result (string_bytes text.new ≡ string_bytes text.old ++ group_start number) }
{
    let top = 24 * number;
    write!(text, "<g transform=\"translate(0 {top})")
}

fn has_ground(cell: &Cell) -> bool
    ensures { result ≡ has_ground cell.now }
{
    ground(cell).is_some()
}

fn have_grounds(cells: &[Cell]) -> bool
    ensures { result ≡ list_any has_ground cells.now }
{
    cells.iter().any(|cell| has_ground(cell))
}

// Appends the backgrounds of a row, if it has any.
fn push_backgrounds(text: &mut String, cells: &[Cell; 40]) -> Result<(), AllocError>
    ensures { OnOk result (string_bytes text.new ≡ string_bytes text.old ++ drawn false false Ground cells.now) }
{
    if !have_grounds(cells) {
        return Ok(());
    }
    push_drawn(text, false, false, Layer::Ground, cells)
}

fn push_row_ground(text: &mut String, number: usize, cells: &[Cell; 40]) -> Result<(), AllocError>
    requires { number < 25 }
    ensures { OnOk result (string_bytes text.new ≡ string_bytes text.old ++ row_ground number cells.now) }
{
    push_group_start(text, number)?;
    text.push_str("\">")?;
    push_backgrounds(text, cells)?;
    text.push_str("</g>")
}

fn push_row_tall(
    text: &mut String,
    reveal: bool,
    number: usize,
    cells: &[Cell; 40],
) -> Result<(), AllocError>
    requires { number < 25 }
    ensures { OnOk result (string_bytes text.new ≡ string_bytes text.old ++ row_tall reveal number cells.now) }
{
    if !has_upper(cells) {
        return Ok(());
    }
    push_group_start(text, number)?;
    text.push_str("scale(1 2)\">")?;
    push_pass(text, reveal, true, cells)?;
    text.push_str("</g>")
}

fn push_row_glyphs(
    text: &mut String,
    reveal: bool,
    number: usize,
    cells: &[Cell; 40],
) -> Result<(), AllocError>
    requires { number < 25 }
    ensures { OnOk result (string_bytes text.new ≡ string_bytes text.old ++ row_glyphs reveal number cells.now) }
{
    push_group_start(text, number)?;
    text.push_str("\">")?;
    push_pass(text, reveal, false, cells)?;
    text.push_str("</g>")?;
    push_row_tall(text, reveal, number, cells)
}

fn push_grounds(text: &mut String, rows: &[[Cell; 40]; 25]) -> Result<(), AllocError>
    ensures { OnOk result (string_bytes text.new ≡ string_bytes text.old ++ grounds_from 0 rows.now) }
{
    for (number, cells) in rows.iter().enumerate() {
        push_row_ground(text, number, cells)?;
    }
    Ok(())
}

fn push_glyphs(text: &mut String, reveal: bool, rows: &[[Cell; 40]; 25]) -> Result<(), AllocError>
    ensures { OnOk result (string_bytes text.new ≡ string_bytes text.old ++ glyphs_from reveal 0 rows.now) }
{
    for (number, cells) in rows.iter().enumerate() {
        push_row_glyphs(text, reveal, number, cells)?;
    }
    Ok(())
}

#[tactic(auto, unfolding(crate::specs::Svg::black_screen))]
fn push_base(text: &mut String) -> Result<(), AllocError>
    ensures { OnOk result (string_bytes text.new ≡ string_bytes text.old ++ black_screen) }
{
    text.push_str("<rect width=\"800\" height=\"600\"/>")
}

// Appends the contents of the picture.
pub(crate) fn push_body(text: &mut String, reveal: bool, view: &View) -> Result<(), AllocError>
    ensures { OnOk result (string_bytes text.new ≡ string_bytes text.old ++ body reveal view.now) }
{
    push_base(text)?;
    push_grounds(text, &view.cells)?;
    push_glyphs(text, reveal, &view.cells)
}

#[tactic(auto, unfolding(crate::specs::Svg::svg_start))]
pub(crate) fn push_svg_start(text: &mut String) -> Result<(), AllocError>
    ensures { OnOk result (string_bytes text.new ≡ string_bytes text.old ++ svg_start) }
{
    text.push_str(
        "<svg xmlns=\"http://www.w3.org/2000/svg\" class=\"t\" viewBox=\"0 0 800 600\" xml:space=\"preserve\" role=\"img\" \
          aria-label=\"Teletext page\">",
    )
}

/// Appends a View as an SVG picture. Concealed characters are shown only if `reveal` is true.
pub(crate) fn push_svg(text: &mut String, reveal: bool, view: &View) -> Result<(), AllocError>
    ensures { OnOk result (string_bytes text.new ≡ string_bytes text.old ++ svg_of reveal view.now) }
{
    push_svg_start(text)?;
    text.push_str("<style>")?;
    push_style(text)?;
    text.push_str("</style>")?;
    push_body(text, reveal, view)?;
    text.push_str("</svg>\n")
}
