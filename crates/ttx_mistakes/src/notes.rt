//! Errors and warnings about a service text.

/// An error or a warning about a service text.
#[derive(Drop)]
pub struct Note {
    /// Whether the text is refused for it.
    pub error: bool,
    /// The path of the value that it concerns.
    pub path: String,
    /// The character of the text there that it concerns, from 0.
    pub sign: Option<usize>,
    /// The name of the value and what is wrong.
    pub words: Vec<u8>,
}
