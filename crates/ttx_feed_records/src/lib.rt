//! Verdicts and reports on feeds as JSON objects, with the names and values of the lines of `monitor`.
#![tactic(auto)]

mod breaches;
mod members;
mod reports;
mod verdicts;

pub use reports::{Objects, report_feed_json};
pub use verdicts::{monitor_feed_json, monitor_rows_json};
