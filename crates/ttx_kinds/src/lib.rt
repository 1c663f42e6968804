//! What the bytes of a file are: a packet file, one of the program's texts, or none of them; and what a command's place takes.
#![tactic(auto)]

mod kinds;
mod laws;
mod lines;
mod places;
mod texts;

pub use kinds::{Kind, kind_of};
pub use laws::certificates_are_recognised;
pub use lines::push_other;
pub use places::Place;
