//! The classes of receivers.

/// The classes of receivers: what they do with the page that they showed before, at the first header of the page they are set to.
#[derive(Clone, Copy, PartialEq, Eq)]
pub enum Class {
    /// May keep what was shown.
    Any,
    /// Surely erases it.
    Clearing,
}
