//! The verdict of a monitor on a feed.

use crate::breach::Breach;
use ttx_recognition::Unlike;

/// Whether a feed stays within the error rule. `start` is the slot of the cycle with which it begins.
#[derive(Clone, Copy)]
pub enum FeedVerdict {
    /// It is no feed of packets of 42 bytes.
    Unlike(Unlike),
    /// It does, with so many slots and so many wrong bytes, of which a text byte was wrong in `streak` successive transmissions at most;
    /// `rest` bytes follow the last slot.
    Yes {
        start: u32,
        slots: u64,
        wrong: u64,
        streak: u8,
        rest: usize,
    },
    /// It does not: this slot of the feed is the first that breaks the rule.
    No {
        start: u32,
        slot: u64,
        breach: Breach,
    },
    /// It does not: at this slot it has slipped by `by` slots of a cycle of `count`.
    Shifted {
        start: u32,
        slot: u64,
        by: usize,
        count: usize,
    },
}
