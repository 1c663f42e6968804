//! A log, and why a text is none.

use crate::values::{Entry, Settings, Start};

/// The as-run log of an air.
#[derive(Drop)]
pub struct Log<'a> {
    pub settings: Settings<'a>,
    pub start: Start<'a>,
    pub later: Vec<Entry<'a>>,
}

/// Why no log is read from a text.
#[derive(Drop)]
pub enum LogFault {
    /// This line, counted from 1, is not understood.
    Line { line: usize },
    /// Memory ran out.
    NoMemory,
}
