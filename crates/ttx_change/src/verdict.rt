//! The verdict on a splice for receivers that show a page only where it ends.

use ttx_header::PageId;
use ttx_playout::LateChange;
use ttx_proof::SentVerdict;

/// Whether a splice is accepted for receivers that show a page only where it ends, too; if not, the first reason.
#[derive(Clone, Copy)]
pub enum LateSplice {
    Yes,
    /// 1 to 6. The splice is not accepted, or not yet.
    No(SentVerdict),
    /// 7. When the old cycle ends, not all of the page has come under its last header, in this slot of the old cycle.
    Amid { page: PageId, slot: usize },
    /// 8. This slot of the new cycle would still be stored in the old page, and differs from it.
    Stored { page: PageId, slot: u32 },
    /// 9. After the last header of the old page the next one of its magazine has the same page number, or there is none.
    Unfollowed { page: PageId },
}

/// Whether a change of the edition on the air is accepted for receivers that show a page late, also those that show it only where it ends;
/// if not, the first reason.
#[derive(Clone, Copy)]
pub enum WholeChange {
    Yes,
    /// The change is not accepted, or a page is not followed by another page number in time.
    No(LateChange),
    /// When the edition on the air ends, something of a page is still open: `Amid`, `Stored` or `Unfollowed`.
    Open(LateSplice),
}
