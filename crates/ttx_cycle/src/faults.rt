//! Why a packet file or a text cannot be read, or bytes cannot be written.

use thiserror::Error;

/// Why a packet file cannot be read.
#[derive(Clone, Copy, Debug, PartialEq, Eq, Error)]
pub enum CycleFault {
    /// A call of `read` failed.
    #[error("the packet file can't be read")]
    Read,
    /// 1 to 41 bytes follow the last whole slot.
    #[error("{rest} bytes stand after the last whole slot")]
    Truncated { rest: usize },
    /// The file is empty.
    #[error("the packet file has no slot")]
    Empty,
    /// The file has more than 2,752,512 bytes (65,536 slots). Reported before `Truncated`.
    #[error("the packet file has more than 65536 slots")]
    TooLong,
    /// An allocation failed.
    #[error("out of memory")]
    NoMemory,
}

/// A write failed. Exactly the first `written` bytes were written.
#[derive(Clone, Copy, Debug, Error)]
#[error("a write failed after {written} bytes")]
pub struct WriteFault {
    pub written: usize,
}

/// Why a text cannot be read.
#[derive(Clone, Copy, Debug, Error)]
pub enum TextFault {
    /// A call of `read` failed.
    #[error("the text can't be read")]
    Read,
    /// The text has more bytes than allowed.
    #[error("the text is too long")]
    TooLong,
    /// An allocation failed.
    #[error("out of memory")]
    NoMemory,
}
