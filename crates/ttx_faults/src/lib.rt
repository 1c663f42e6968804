//! Why a command fails, and the line and the status of the program that tell of it.
#![tactic(auto)]

mod faults;
mod reports;

pub use faults::{AirRefusal, CounterFileFault, ExtractionFault, ToolFault};
pub use reports::{report_air, report_extraction, report_fault, report_words, write_text};
