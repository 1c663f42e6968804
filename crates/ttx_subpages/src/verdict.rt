//! The verdict on all numbers with several pages.

use crate::lack::Lack;
use ttx_late::LateVerdict;

/// Whether the subpages of each number are seen in turn by viewers who key only the number; if not, the first reason.
#[derive(Clone, Copy)]
pub enum NumbersVerdict {
    /// They are, each within `gap` slots after the deadline and again and again, and nothing else is.
    Yes { gap: usize },
    /// The cycle is not accepted for receivers that show a page late: reasons 1 to 13.
    No(LateVerdict),
    /// It is, but the subpages of a number are not sent whole: reasons 14 and 15.
    Lacking(Lack),
}
