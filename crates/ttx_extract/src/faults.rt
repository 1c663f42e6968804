//! Why a cycle has no service text.

use ttx_header::PageId;
use ttx_page::Item;
use ttx_source::SourceError;
use ttx_witness::Reason;

/// Why a cycle has no service text.
#[derive(Clone, Copy)]
pub enum ExtractFault {
    /// The first page that isn't sent unchanged: slot `second` sends the item with other contents than its first slot, `first`.
    Conflict {
        page: PageId,
        item: Item,
        first: u32,
        second: u32,
    },
    /// The first page that isn't sent unchanged has this reason, one of the certifier's reasons 2 to 7, and no two slots differ.
    Reason(Reason),
    /// The packet 8/30 in the slot has a local offset of minus zero.
    Info {
        slot: u32,
    },
    /// Headers name more than 2,000 pages, or one with subcode 3F7F, which no page has; or the text of what the cycle sends isn't a
    /// service definition.
    Service(SourceError),
    /// The text is longer than 4,194,304 bytes.
    TooLong,
    /// The text is read back as another service than it was written from.
    Unsaid,
    /// Memory ran out.
    NoMemory,
}
