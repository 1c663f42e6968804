//! Why the text of a certificate is refused.

use thiserror::Error;

/// The first fault of the text of a certificate. Lines are counted from 1.
#[derive(Clone, Copy, Debug, PartialEq, Eq, Error)]
pub enum CertFault {
    /// The first line is not that of a certificate of version 1 or 2, or has no end.
    #[error("the first line isn't `ttx certificate 1` or `ttx certificate 2`")]
    Title,
    /// The line has a wrong shape, has no end, or is missing.
    #[error("line {line} has the wrong shape")]
    Line { line: usize },
    /// The starts of the line do not rise, or the entry does not come after the one before it.
    #[error("line {line} isn't in order")]
    Order { line: usize },
    /// A number of the line is out of its range.
    #[error("a number of line {line} is out of range")]
    Range { line: usize },
    /// An allocation failed.
    #[error("out of memory")]
    NoMemory,
}
