//! The verdict of a row monitor on a feed.

use crate::breach::RowBreach;
use ttx_recognition::Unlike;

/// Whether a feed stays within the error rule by rows. `start` is the slot of the cycle with which it begins.
#[derive(Clone, Copy)]
pub enum RowVerdict {
    /// It is no feed of packets of 42 bytes.
    Unlike(Unlike),
    /// It does, with so many slots, of which so many were lost where they may be; `rest` bytes follow the last slot.
    Yes {
        start: u32,
        slots: u64,
        lost: u64,
        rest: usize,
    },
    /// It does not: this slot of the feed is the first that breaks the rule.
    No {
        start: u32,
        slot: u64,
        breach: RowBreach,
    },
    /// It does not: at this slot it has slipped by `by` slots of a cycle of `count`.
    Shifted {
        start: u32,
        slot: u64,
        by: usize,
        count: usize,
    },
}
