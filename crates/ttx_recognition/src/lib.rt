//! Recognises files and feeds that are no packets of 42 bytes, and says what they are.
#![tactic(auto)]

mod form;
mod lines;
mod packets;
mod recognition;
mod recorded;

pub use form::{Form, Unlike};
pub use lines::push_unlike;
pub use recognition::recognise;
pub use recorded::Recorded;
