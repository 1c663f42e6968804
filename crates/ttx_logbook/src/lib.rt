//! The as-run log of an air, read as a value.
#![tactic(auto)]

mod beginnings;
mod cuts;
mod entries;
mod first_line;
mod lines;
mod log;
mod numbers;
mod promises;
mod reader;
mod settings;
mod values;

pub use first_line::settings_line;
pub use log::{Log, LogFault};
pub use reader::read_log;
pub use values::{Begin, ClockName, Entry, Event, Promise, Settings, Size, Start};
