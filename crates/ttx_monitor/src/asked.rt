//! What a monitor is asked for.

/// What a monitor is asked for: the slot of the cycle with which the feed begins, if it is named; whether it reports each breach up to the
/// end of the feed, or stops at the first; and every how many fields it reports its state, if it does.
#[derive(Clone, Copy)]
pub struct Asked {
    pub start: Option<u32>,
    pub all: bool,
    pub every: Option<u32>,
}
