//! An entry of the table of reasons.

/// A reason of a rejection.
#[derive(Clone, Copy)]
pub struct Entry {
    /// Its number, with the command before it unless that is `certify`; its name if it has no number.
    pub key: &'static str,
    pub name: &'static str,
    /// The line of the rejection, with words in capitals for what it names.
    pub line: &'static str,
    pub meaning: &'static str,
    /// What to do.
    pub remedy: &'static str,
}
