//! A deadline that is asked for: `find_with` makes a certificate with it, `certify_required` requires it of a certificate.
#![tactic(auto)]

mod asked_deadlines;
mod copies;
pub mod laws;
mod required_files;
mod required_lines;
mod requirements;

pub use asked_deadlines::{Asked, FoundWith, find_with, with_found};
pub use required_files::{LateRequired, Required};
pub use required_lines::{late_required_line, required_line};
pub use requirements::{
    LateRequiredVerdict, RequiredVerdict, Unmet, certify_late_required, certify_required,
    first_unmet,
};
