//! The files of a command: it reads packet files, service definitions and certificates, and writes lines and OUT.
#![tactic(auto)]

mod faults;
pub mod feeds;
mod readers;
mod slots;
mod told;
mod verdicts;
mod writers;

pub use faults::{FeedFault, FilesFault, TextFile};
pub use readers::{
    Inputs, Served, Texts, read_definition, read_inputs, read_packets, read_served,
    read_service_text, read_text, read_texts, read_witness,
};
pub use slots::{SlotTaker, read_slots};
pub use told::{Filed, Told, write_told};
pub use verdicts::{Judge, answer_files};
pub use writers::{write_both, write_line};
