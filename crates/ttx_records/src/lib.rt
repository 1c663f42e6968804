//! Answers of commands as JSON: each line is an object with the names and values of the plain line.
#![tactic(auto)]

mod all_pages;
mod counters;
mod item_reports;
mod item_waits;
mod late_verdicts;
mod members;
mod names;
mod number_waits;
mod numbers;
pub mod objects;
mod requirements;
mod verdicts;
mod wait_reports;
mod waits;

pub use counters::{counter_record, none_record};
pub use item_reports::report_item_waits;
pub use number_waits::report_number_waits;
pub use wait_reports::report_waits;
pub use waits::wait_records;
