//! Texts by their SHA-256, and what a log records, with the texts that it names.
#![tactic(auto)]

mod digests;
mod filed;
mod recalled_log;
mod recorded;

pub use digests::find_text;
pub use filed::FiledText;
pub use recalled_log::{RecallFault, recall};
pub use recorded::{Recorded, Told};
