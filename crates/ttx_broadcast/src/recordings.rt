//! An air again, from its log and the texts that were on the air.

mod answers;
pub mod faults;
mod first_edition;
pub mod lines;
pub mod log_comparison;
pub mod log_newsroom;
pub mod moments;
pub mod replays;
mod settings;
