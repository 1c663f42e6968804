//! Receivers: what permitted receivers do with the slots they are given, and the law that what is sent is held.
#![tactic(auto)]

mod careful;
mod cleared;
mod eager;
pub mod laws;
mod packets;
pub mod receiver;
mod scripted;
pub mod starvation;
mod steps;
pub mod touch;
mod tuned;
mod tuning;
mod watched;

pub use careful::Careful;
pub use cleared::Cleared;
pub use eager::Eager;
pub use receiver::Receiver;
pub use scripted::Scripted;
pub use watched::Watched;
