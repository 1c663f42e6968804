//! What a log records.

use crate::filed::FiledText;

/// What is recorded of the end of a period.
#[derive(Clone, Copy)]
pub enum Told<'a> {
    /// This text took over.
    Changed(&'a FiledText),
    /// The text with this digest did not take over; the words say why.
    Kept { digest: &'a str, words: &'a str },
    /// No text was read; the words say why.
    Unread { words: &'a str },
}

/// What is recorded, and before which field.
#[derive(Clone, Copy)]
pub struct Recorded<'a> {
    pub field: u32,
    pub told: Told<'a>,
}
