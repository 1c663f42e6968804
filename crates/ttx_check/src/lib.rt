//! Checks service texts for their authors: where a text is refused, and what in a service is probably a mistake.
#![tactic(auto)]

pub mod acceptance;
mod check_report;
mod entries;
mod links;
mod page_warnings;
pub mod parts;
mod queues;
pub mod readings;
pub mod refusals;
mod reports;
mod row_signs;
mod rows;
mod service_warnings;
pub mod spots;
mod texts;
mod traffic;
pub mod unknown_keys;
pub mod warning;
pub mod warning_lines;

pub use check_report::{Reported, Reporter, check};
pub use readings::{Reading, reading_of};
pub use reports::{Checked, report};
pub use service_warnings::warnings;
pub use warning::Warning;
