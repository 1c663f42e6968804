//! Packets X/27/0 (EN 300 706, 9.6.1): the six links of a page.
//!
//! Profile: D1 to D3 of byte 39 are written 1 and ignored when read.
#![tactic(auto)]

pub mod laws;
mod reader;
pub mod sets;
pub mod targets;
mod writer;

pub use reader::{links_are_exact, read_link, read_links};
pub use sets::Links;
pub use targets::Target;
pub use writer::{write_link, write_links};
