//! The lines of a field with which the pages of a cycle have a deadline.
#![tactic(auto)]

mod line_values;
mod lines;

pub use line_values::{Values, first_values};
pub use lines::push_values;
