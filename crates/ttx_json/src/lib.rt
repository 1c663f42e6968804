//! JSON objects of plain members, a line each.
#![tactic(auto)]

mod members;
mod objects;

pub use members::{Member, count, flag, word};
pub use objects::{object_line, push_object};
