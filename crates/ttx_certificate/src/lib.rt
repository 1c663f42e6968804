//! Certificates: the starts that are named for the items of pages, and their texts.
//!
//! Entries are in the order of one number, made of magazine, page, subcode and item, so looking one up is a binary search.
#![tactic(auto)]

mod certificate_faults;
pub mod certificate_laws;
mod certificates;
mod entries;
mod entry_lines;
mod item_numbers;
mod limits;
mod line_words;
mod no_memory;
mod number_words;
mod reader;
mod writer;
mod written;

pub use certificate_faults::CertFault;
pub use certificates::Certificate;
pub use entries::{Entry, Starts};
pub use item_numbers::item_number;
pub use limits::limit;
pub use no_memory::NoMemory;
pub use reader::read_certificate;
pub use ttx_digits::{digit, push_id, push_numbers};
pub use writer::{push_item, write_certificate};
