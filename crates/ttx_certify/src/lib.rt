//! The certifier: whether every permitted receiver sees each page of a cycle in time, and the laws that say what a yes guarantees.
//!
//! With two passes (`Walk`, `certify_passes`) the verdict is about the second reading. The first one contributes only the headers at its
//! end. If the second one ends with other headers, the verdict is `Unsteady`.
//!
//! The second pass keeps a few facts about each page, and for each item of each page how far its named starts are confirmed, its last k
//! transmissions (k is the repeat count, at most 8) and its first k - 1, because a run may go round the end of the period. It keeps no
//! packet and no record of each slot. A transmission takes 5 bytes and an item 92 bytes, 4.8 MB for the 26 items of each of 2,000 pages,
//! allocated before the first slot, page by page, so that they also fill the gaps that reading the service has left.
#![tactic(auto)]

mod acceptance;
mod all_files;
mod all_lines;
mod all_reasons;
mod certified_files;
mod certified_services;
mod item_reasons;
pub mod laws;
mod page_reasons;
mod reception;
mod takers;
mod two_readings;
mod verdict;
pub mod verdict_laws;
mod verdict_lines;
mod verdicts;
mod walks;
mod wordings;

pub use acceptance::{certify, certify_all};
pub use all_files::All;
pub use all_lines::{all_text, reasons_in};
pub use all_reasons::{AllReasons, PageReason};
pub use certified_files::{AtOnce, certify_files};
pub use certified_services::{certify_all_of_service, certify_service, find_service};
pub use reception::receive;
pub use ttx_files::{FilesFault, TextFile};
pub use two_readings::{answer_passes, certify_passes};
pub use verdict::Verdict;
pub use verdict_lines::{push_reason, push_yes, verdict_line};
pub use walks::passes::{Second, Walk, WalkFault};
pub use wordings::VerdictWording;
