//! Splices: an old cycle is replaced by a new one, and each receiver must keep seeing the pages that stay. (The specification requires
//! the crate's name.)
//!
//! A splice is judged over the joined stream. The starts of the old certificate count before the change, those of the new one after it,
//! each under the header that it has in the joined stream.
#![tactic(auto)]

mod acceptance;
mod bridges;
mod common;
mod first_seam;
mod joined_items;
mod last_blocks;
mod lates;
pub mod laws;
mod lines;
mod periods;
mod run_order;
mod seams;
mod sent;
mod sides;
mod six_files;
mod spliced_files;
mod starts;
mod verdict;
mod verdict_line;

pub use acceptance::splice;
pub use last_blocks::{Amid, Stored, first_amid, first_stored};
pub use lines::splice_line;
pub use periods::{sent_line, sent_verdict};
pub use seams::latest_header;
pub use sent::SentVerdict;
pub use six_files::Six;
pub use spliced_files::{AfterPeriods, AtAnyTime, splice_six};
pub use verdict::{SpliceReason, SpliceVerdict};
pub use verdict_line::{SpliceJudge, splice_files};
