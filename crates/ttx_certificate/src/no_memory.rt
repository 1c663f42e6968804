//! An allocation that failed.

/// An allocation failed.
#[derive(Clone, Copy, PartialEq, Eq, Debug)]
pub struct NoMemory;
