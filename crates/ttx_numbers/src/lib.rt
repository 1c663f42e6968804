//! Page numbers, and the pages of a list that share one.
#![tactic(auto)]

mod numbers;

pub use numbers::{is_first, push_number, share_number, siblings};
