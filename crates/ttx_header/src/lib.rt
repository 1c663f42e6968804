//! Page headers: the ids of pages, the control bits, and the 42 bytes of a page header.
//!
//! `bitflags!` writes operators without contracts, so `Control` has its constants and its `impl Flags` written out. Use `union`,
//! `insert` and `contains`.
#![tactic(auto)]

pub mod control;
pub mod headers;
pub mod ids;
pub mod laws;
pub mod parts;
mod reader;
mod writer;

pub use control::Control;
pub use headers::Header;
pub use ids::PageId;
pub use reader::{read_header, read_id};
pub use writer::{time_fill, write_header};
