//! The pages of a cycle: its headers, and what is sent under them.
#![tactic(auto)]

mod firsts;
pub mod keys;
pub mod laws;
mod lines;
mod listing;
mod page_list;
mod records;
mod rest;

pub use firsts::page_headers;
pub use keys::Part;
pub use listing::pages_text;
pub use page_list::{pages, pages_json};
pub use records::pages_records;
