//! A service on the air from its text, while an author changes the text: the first edition, the log with what was asked for, and the airing;
//! and the same again from its log.
#![tactic(auto)]

mod faults;
pub mod laws;
mod log_copy;
mod on_air;
mod recordings;
mod request;
mod settings;

pub use faults::BroadcastFault;
pub use log_copy::LogCopy;
pub use on_air::broadcast;
pub use recordings::faults::ReplayFault;
pub use recordings::lines::{log_line, outcome_line, outcome_status};
pub use recordings::log_comparison::is_same_so_far;
pub use recordings::log_newsroom::LogNewsroom;
pub use recordings::moments::begin_of;
pub use recordings::replays::replay;
pub use request::{ClockName, Request};
pub use ttx_air::{Outputs, TextSource};
pub use ttx_press::{Demand, ServiceFile};
