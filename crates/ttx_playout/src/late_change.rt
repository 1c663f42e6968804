//! Verdicts on changes for receivers that may show pages late.

use ttx_header::PageId;
use ttx_proof::SpliceReason;

/// Whether a change is accepted and the pages are followed by other page numbers in time; if not, the first reason.
#[derive(Clone, Copy)]
pub enum LateChange {
    /// Both hold.
    Yes,
    /// The change is not accepted.
    No(SpliceReason),
    /// In the next edition the header of a page at this slot is not followed by one with another page number.
    NeverShown { page: PageId, slot: usize },
    /// In the next edition the next header of the magazine comes as late as `gap` slots after a header of a page, which is too late.
    TooFar { gap: usize },
    /// Across the change this page of the edition on the air is not followed in time by another page number.
    Unfollowed { page: PageId },
}
