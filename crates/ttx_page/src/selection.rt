//! What a receiver is set to.

use ttx_header::PageId;

/// What a receiver is set to.
#[derive(Clone, Copy, PartialEq, Eq)]
pub enum Selection {
    /// One subpage, by its id.
    Exact(PageId),
    /// Any subpage of a page number: its magazine, 1 to 8, and its two hexadecimal digits in one byte.
    AnySub(u8, u8),
}

mod calls;
