//! What a newsroom returns.

use ttx_playout::Edition;

/// An edition that may be put on the air, and its mark: bytes that identify it in the log, such as a space and a digest of its text.
#[derive(Drop)]
pub struct Candidate {
    pub edition: Edition,
    pub mark: String,
}

/// What a newsroom returns.
#[derive(Drop)]
pub enum News {
    /// There is nothing new.
    Nothing,
    /// There is a next edition.
    Next(Candidate),
    /// There is a new text, but it makes no edition. The words say why, in one line.
    Refused { mark: String, words: String },
    /// There is a new text, for which memory ran out.
    NoMemory { mark: String },
}
