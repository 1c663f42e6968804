//! Editions of service texts: each text is read, planned and certified with the same numbers, or refused in one line. Where only an
//! item that comes too late through a change is in the way, the cycle begins at another page header.
#![tactic(auto)]

mod author_refusals;
mod certificates;
mod changes;
mod demand;
mod house;
mod late_words;
pub mod laws;
mod opened_air;
mod planned_service;
mod press;
mod printed_edition;
mod refusals;
mod script;
mod service_file;
mod shared_time;
mod slow_pages;
mod successor;
mod terms;
mod turns;

pub use demand::Demand;
pub use house::House;
pub use opened_air::{Opening, opened};
pub use printed_edition::printed;
pub use service_file::ServiceFile;
