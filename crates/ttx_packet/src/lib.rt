//! Packets of 42 bytes: the kind of a slot, its address, and whether one wrong bit in each byte can change its kind.
//!
//! Row 2 of magazine 1 may arrive as 42 zero bytes, where each of its bytes has one bit set and loses it. All its characters are wrong
//! then, so reading the slot as empty changes nothing.
#![tactic(auto)]

pub mod laws;
pub mod place;
pub mod slots;
mod writer;

pub use slots::{Slot, clean, slot_of};
pub use writer::address;
