//! Service texts from cycles: what a cycle sends, written as an author would write it.
#![tactic(auto)]

mod conflicts;
mod draft;
mod drafts;
mod extraction;
pub mod faults;
mod gathered;
mod infos;
pub mod laws;
mod page_names;
mod page_texts;
mod refusals;
mod sent_page;
mod serial;
mod service_texts;
mod texts;
mod unlike_pages;

pub use extraction::{Extracted, extract};
pub use faults::ExtractFault;
pub use refusals::push_refusal;
