//! The commands of the program `ttx`, over readers and writers.
#![tactic(auto)]

pub mod claims;
pub mod commands;
pub mod laws;
mod receiver_steps;

pub use claims::Claim;
pub use ttx_arguments::{Look, Order, ReceiverKind, Tuning, WordsFault, words};
pub use ttx_broadcast::{
    BroadcastFault, LogCopy, Outputs, ServiceFile, begin_of, is_same_so_far, replay,
};
pub use ttx_failure::FailureForm;
pub use ttx_faults::{AirRefusal, CounterFileFault, ExtractionFault, ToolFault};
pub use ttx_files::TextFile;
