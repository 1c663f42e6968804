//! The paths for backgrounds and mosaics.

ghost use Rattle.std.specs.Prelude.{◌≡◌, ◌<◌, ◌≤◌, ◌++◌, OnOk, string_bytes};
ghost use Rattle.ttx_picture.specs.Svg.{left_block, right_block, has_block, block, half_of, layer_text, height_text, lowered, lifted, path_start};
ghost use Rattle.ttx_picture.specs.Svg.{path_end, stroke, pen_after, is_down, drawn};
ghost use Rattle.ttx_picture.specs.Shown.{shown_glyph as seen};

use crate::shown::shown_glyph;
use crate::svg::pens::{Layer, Pen, ground, ink, is_drawn, is_pen, push_pen};
use std::alloc::AllocError;
use ttx_render::{Cell, Glyph};

fn left_block(layer: Layer) -> u8
    ensures value { result ≡ left_block layer }
    ensures some { 0 < result }
    ensures most { result ≤ 16 }
{
    match layer {
        Layer::Middle => 4,
        Layer::Bottom => 16,
        _ => 1,
    }
}

fn has_block(blocks: u8, value: u8) -> bool
    requires { 0 < value }
    ensures { result ≡ has_block blocks value }
{
    blocks / value % 2 == 1
}

// The pen for a block of a cell; `None` if the block is not drawn.
fn block(reveal: bool, tall: bool, value: u8, cell: &Cell) -> Option<Pen>
    requires { 0 < value }
    ensures { result ≡ block cell.now tall value (seen reveal cell.now) }
{
    match shown_glyph(reveal, cell) {
        Glyph::Char(_) => None,
        Glyph::Mosaic { blocks, separated } => {
            if is_drawn(tall, cell.part) && has_block(blocks, value) {
                Some(ink(cell, separated))
            } else {
                None
            }
        }
    }
}

// The pen for one half of a cell; `None` if nothing is drawn.
fn half_of(reveal: bool, tall: bool, layer: Layer, value: u8, cell: &Cell) -> Option<Pen>
    requires { 0 < value }
    ensures { result ≡ half_of reveal tall layer value cell.now }
{
    match layer {
        Layer::Ground => ground(cell),
        _ => block(reveal, tall, value, cell),
    }
}

fn layer_text(layer: Layer) -> &'static str
    ensures { result.now ≡ layer_text layer }
{
    match layer {
        Layer::Ground => "g ",
        _ => "",
    }
}

fn height_text(layer: Layer) -> &'static str
    ensures { result.now ≡ height_text layer }
{
    match layer {
        Layer::Top => " 4H",
        Layer::Bottom => " 20H",
        _ => " 12H",
    }
}

fn push_lowered(text: &mut String, layer: Layer, x: usize) -> Result<(), AllocError>
    ensures { OnOk result (string_bytes text.new ≡ string_bytes text.old ++ lowered layer x) }
{
    write!(text, "M{x}")?;
    text.push_str(height_text(layer))
}

fn push_lifted(text: &mut String, down: bool, x: usize) -> Result<(), AllocError>
    ensures { OnOk result (string_bytes text.new ≡ string_bytes text.old ++ lifted down x) }
{
    if down { write!(text, "{x}") } else { Ok(()) }
}

fn push_path_start(text: &mut String, layer: Layer, pen: Pen) -> Result<(), AllocError>
    ensures { OnOk result (string_bytes text.new ≡ string_bytes text.old ++ path_start layer pen) }
{
    text.push_str("<path class=\"")?;
    text.push_str(layer_text(layer))?;
    push_pen(text, pen)?;
    text.push_str("\" d=\"")
}

fn push_path_end(text: &mut String, current: Option<Pen>) -> Result<(), AllocError>
    ensures { OnOk result (string_bytes text.new ≡ string_bytes text.old ++ path_end current) }
{
    match current {
        None => Ok(()),
        Some(_) => text.push_str("\"/>"),
    }
}

// The state of a path: its pen, whether the pen is down, and its x coordinate.
#[derive(Clone, Copy)]
struct PathPoint {
    current: Option<Pen>,
    down: bool,
    x: usize,
}

// Opens a path with another pen.
fn push_other(text: &mut String, layer: Layer, at: PathPoint, pen: Pen) -> Result<(), AllocError>
    ensures { OnOk result (string_bytes text.new ≡ string_bytes text.old ++ lifted at.down at.x ++ path_end at.current
        ++ path_start layer pen ++ lowered layer at.x) }
{
    push_lifted(text, at.down, at.x)?;
    push_path_end(text, at.current)?;
    push_path_start(text, layer, pen)?;
    push_lowered(text, layer, at.x)
}

// Appends the stroke for a half that begins at this point.
fn push_stroke(
    text: &mut String,
    layer: Layer,
    at: PathPoint,
    half: Option<Pen>,
) -> Result<(), AllocError>
    ensures { OnOk result (string_bytes text.new ≡ string_bytes text.old ++ stroke layer at.current at.down at.x half) }
{
    match half {
        None => push_lifted(text, at.down, at.x),
        Some(pen) => {
            if !is_pen(at.current, pen) {
                push_other(text, layer, at, pen)
            } else if at.down {
                Ok(())
            } else {
                push_lowered(text, layer, at.x)
            }
        }
    }
}

fn pen_after(current: Option<Pen>, half: Option<Pen>) -> Option<Pen>
    ensures { result ≡ pen_after current half }
{
    match half {
        None => current,
        Some(pen) => Some(pen),
    }
}

fn is_down(half: Option<Pen>) -> bool
    ensures { result ≡ is_down half }
{
    match half {
        None => false,
        Some(_) => true,
    }
}

/// Appends the paths of one layer of a row.
pub fn push_drawn(
    text: &mut String,
    reveal: bool,
    tall: bool,
    layer: Layer,
    cells: &[Cell; 40],
) -> Result<(), AllocError>
    ensures { OnOk result (string_bytes text.new ≡ string_bytes text.old ++ drawn reveal tall layer cells.now) }
{
    let mut current = None;
    let mut down = false;
    let mut x = 0;
    for cell in cells {
        let left = half_of(reveal, tall, layer, left_block(layer), cell);
        let right = half_of(reveal, tall, layer, 2 * left_block(layer), cell);
        push_stroke(text, layer, PathPoint { current, down, x }, left)?;
        current = pen_after(current, left);
        let middle = PathPoint {
            current,
            down: is_down(left),
            x: x + 10,
        };
        push_stroke(text, layer, middle, right)?;
        current = pen_after(current, right);
        down = is_down(right);
        x += 20;
    }
    push_lifted(text, down, x)?;
    push_path_end(text, current)
}
