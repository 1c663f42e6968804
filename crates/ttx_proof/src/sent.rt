//! The verdict on a splice when the old cycle has been sent for some periods.

use crate::verdict::SpliceReason;

/// Whether a change may be made now; if not, the first reason.
#[derive(Clone, Copy)]
pub enum SentVerdict {
    Yes,
    /// 1 to 5. The splice is not accepted.
    No(SpliceReason),
    /// 6. The splice is accepted, but the old cycle has to be sent for `left` more slots.
    TooSoon { left: u32 },
}
