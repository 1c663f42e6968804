//! Why a packet 8/30 is not a readable format 1.

use thiserror::Error;

/// Why a packet 8/30 format 1 cannot be read. If there are several faults, the first in this order of tests is reported: byte
/// 2 unreadable; designation; bytes 3 to 8 unreadable; digits; parity.
#[derive(Clone, Copy, PartialEq, Eq, Debug, Error)]
pub enum InfoFault {
    /// The designation is above 1, so this is not format 1.
    #[error("the designation is above 1")]
    Designation,
    /// Byte 2, or one of bytes 3 to 8, is unreadable as Hamming 8/4.
    #[error("a Hamming byte is unreadable")]
    Hamming,
    /// A half byte of the date or the time is not a digit plus one (1 to 10).
    #[error("a half byte of the date or the time is no digit")]
    Digit,
    /// A character of the status display has even parity.
    #[error("a character has even parity")]
    Parity,
}
