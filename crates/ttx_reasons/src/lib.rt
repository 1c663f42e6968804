//! The reasons of rejections: one table of what each means and what to do, and the text that `explain` writes.
#![tactic(auto)]

mod entry;
mod explanation;
mod names;
mod reasons;

pub use entry::Entry;
pub use explanation::{Explained, explain};
pub use reasons::REASONS;
