//! The Level 1 display: what a viewer sees of the memory of a page (EN 300 706, 12.2).
//!
//! `View` has its rows as a type parameter, with `[[Cell; 40]; 25]` as default, because the checker cannot build nested arrays of
//! structs in a literal. For a caller it is a plain struct.
#![tactic(auto)]

mod attributes;
mod cache;
mod cell_words;
mod cells;
mod colour;
mod compare;
mod held_mosaic;
pub mod laws;
mod rows;
mod spacing;
mod touch;
mod view;

pub use cache::Cache;
pub use cell_words::cell_word;
pub use cells::{Cell, Glyph, Part};
pub use colour::{Colour, colour_number};
pub use compare::same_but_clock;
pub use view::{View, render};
