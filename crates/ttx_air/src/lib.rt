//! A service on the air: an edition that a newsroom hands out takes over if the change serves the receivers, and the log says what happened;
//! and a newsroom over the text of a service, by which each new text is made an edition and handed out once.
#![tactic(auto)]

mod airing;
mod airtime;
mod candidate;
mod faults;
mod first_edition;
pub mod laws;
mod lines;
mod listed;
mod log;
mod missing_pages;
mod newsroom;
mod period_end;
mod press;
mod reasons;
mod sources;
mod station;
mod text_newsroom;
mod verdicts;

pub use airing::air;
pub use airtime::{Airtime, Receivers};
pub use candidate::{Candidate, News};
pub use faults::AirFault;
pub use listed::Listed;
pub use log::Outputs;
pub use newsroom::Newsroom;
pub use press::{Press, PressFault};
pub use sources::TextSource;
pub use text_newsroom::{TextNewsroom, text_mark};
