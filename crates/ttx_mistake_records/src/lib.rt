//! What `check` finds as JSON objects: each mistake is an object, and how many there are.
#![tactic(auto)]

mod author_records;
mod check_objects;
mod records;
mod service_records;

pub use check_objects::check_file_json;
