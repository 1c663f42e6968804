//! Why the text of a counter-run is refused.

/// Why the text of a counter-run is refused. Lines are counted from 1.
#[derive(Clone, Copy)]
pub enum CounterFault {
    /// The first line is not the title of a counter-run.
    Title,
    /// The first line that differs from the text of the counter-run that the numbers describe.
    Line { line: usize },
    /// An allocation failed.
    NoMemory,
}
