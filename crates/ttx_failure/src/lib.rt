//! Failing receptions in sentences and as a picture: the page as it was authored beside what the receiver of a counter-run shows.
#![tactic(auto)]

mod beside;
mod choices;
mod failures;
mod figures;
mod forms;
mod hits;
pub mod laws;
mod packets;
mod places;
mod sentences;
mod tellings;
mod unlike;

pub use forms::FailureForm;
pub use tellings::tell_failure;
