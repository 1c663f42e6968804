//! Packet files: the slots of a cycle, 42 bytes each, end to end. Also bounded texts, and readers and writers that count.
#![tactic(auto)]

pub mod arrays;
pub mod counted;
pub mod cycles;
pub mod faults;
pub mod faulty;
pub mod laws;
mod reader;
mod slot_bytes;
mod slot_reader;
mod texts;
mod writer;

pub use counted::Counted;
pub use cycles::Cycle;
pub use faults::{CycleFault, TextFault, WriteFault};
pub use reader::read_cycle;
pub use slot_reader::SlotReader;
pub use texts::{MOST_BYTES, read_text};
pub use writer::{write_bytes, write_cycle};
