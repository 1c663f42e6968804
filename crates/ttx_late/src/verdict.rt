//! The certifier's verdict for receivers that may show pages late.

use ttx_header::PageId;
use ttx_witness::Reason;

/// Whether a cycle is accepted with a certificate and each page is followed by another page number; if not, the first reason.
#[derive(Clone, Copy)]
pub enum LateVerdict {
    /// Accepted, and each page is followed. The next header of its magazine comes at most `gap` slots after a header of a page.
    Yes { gap: usize },
    /// Not accepted, for one of the reasons 1 to 12.
    No(Reason),
    /// Reason 13. Accepted, but after the page's header in `slot` the next header of its magazine has the page's own number.
    NeverShown { page: PageId, slot: usize },
}
