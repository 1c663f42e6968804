//! Counter-runs: failing receptions. What is received keeps every rule, and the receiver ends with a wrong View, so the page is not
//! seen.
#![tactic(auto)]

mod checks;
mod claim;
pub mod completeness;
mod counter;
mod counter_faults;
mod former;
mod keys;
pub mod laws;
mod magazines;
mod numbers;
mod plain;
mod plain_counters;
mod reader;
mod refutation;
mod replays;
mod rule;
mod run_slots;
mod scripted_receiver;
mod starvation;
mod starvation_start;
mod streaks;
mod taken_choices;
mod writer;

pub use checks::check_counter;
pub use counter::{Counter, Hit};
pub use counter_faults::CounterFault;
pub use reader::read_counter;
pub use refutation::refute;
pub use replays::replay;
pub use taken_choices::{Followed, Taken, follow};
pub use writer::write_counter;
