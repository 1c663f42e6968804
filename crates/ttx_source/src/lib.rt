//! Service definitions: the settings and pages of a service, read from TOML.
//!
//! The table of a page is walked once, and the value at each key is kept by the key (`PageEntries`). That each place has the value at its
//! key is a `requires` of the crate's own readers, and no ghost field of the type: such a field has to be a proposition, and nothing
//! proves that an equation between TOML values is one.
#![tactic(auto)]

pub mod controls;
pub mod documents;
pub mod faults;
pub mod info_table;
pub mod key_faults;
pub mod keys;
pub mod links;
mod page_entries;
pub mod page_table;
pub mod promises;
pub mod reader;
pub mod rows;
pub mod services;
pub mod texts;
pub mod values;

pub use documents::{Document, read_document, read_table};
pub use faults::{SourceError, SourceFault};
pub use promises::{Promise, promises_of_table, read_promises, read_stays, stays_of_table};
pub use reader::{read_service, service_of_table};
pub use services::Service;
