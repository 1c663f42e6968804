//! Finding certificates.

pub mod certificates;
pub mod start_names;
pub mod survey;
