//! Packet 8/30 format 1: the initial page, the network, the date and the time of a service.
//!
//! Profile: bits 1 and 8 of byte 11 are written 1, the high half of byte 12 and bytes 18 to 21 are written 0; all are ignored when
//! read. Faults come in the order Hamming (byte 2), designation (format 2 is one), Hamming (bytes 3 to 8), digit, parity.
#![tactic(auto)]

pub mod faults;
pub mod fields;
pub mod laws;
mod reader;
mod writer;

pub use faults::InfoFault;
pub use fields::Info;
pub use reader::read_info;
pub use writer::write_info;
