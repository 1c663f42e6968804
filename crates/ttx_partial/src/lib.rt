//! Service texts of cycles of which some pages cannot be said: these are left out, each with its reason.
#![tactic(auto)]

mod asides;
mod extraction;
pub mod laws;
mod left_out;
mod other_packets;
mod partial_lines;

pub use extraction::{Partial, extract_partly};
pub use left_out::{LeftOut, Why};
pub use other_packets::others;
pub use partial_lines::push_partial;
