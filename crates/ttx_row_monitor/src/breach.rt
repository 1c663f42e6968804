//! The ways in which a received slot breaks the error rule by rows.

use ttx_monitor::Breach;

/// How a slot breaks the rule.
#[derive(Clone, Copy, PartialEq, Eq, Debug)]
pub enum RowBreach {
    /// By itself: too many wrong bits, or a packet is lost that must not be.
    Slot(Breach),
    /// As many successive transmissions of this row as the repeat count did not come whole; the slot is the latest. The page is its index in
    /// the list of pages.
    Row { page: u32, row: u8 },
}
