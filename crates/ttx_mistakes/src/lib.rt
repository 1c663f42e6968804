//! All mistakes of a service text, and the warnings about it, each at its place.
#![tactic(auto)]

pub mod check_report;
pub mod error_notes;
mod faults;
pub mod first_keys;
mod ids;
pub mod key_notes;
pub mod laws;
mod long_lines;
pub mod long_reports;
mod mistake_list;
pub mod mistakes;
pub mod notes;
mod page_parts;
pub mod placed;
mod stay_notes;
pub mod warning_notes;
mod whys;

pub use check_report::{Style, report_in_style};
pub use long_reports::{
    errors_in, notes_of, pages_in, placed_notes, report_on, shown, status, toml_mistake,
    warnings_in,
};
pub use mistake_list::all_mistakes;
pub use placed::{Paper, Placed, push_notes, value_place};
