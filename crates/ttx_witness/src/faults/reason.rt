//! The reasons why a cycle is not accepted.

use ttx_header::PageId;
use ttx_page::Item;

/// Why a cycle is not accepted with a certificate. Slots and starts are counted from 0. The reasons are numbered from 1 in this
/// order.
#[derive(Clone, Copy)]
pub enum Reason {
    /// A bad slot: one wrong bit in each byte can turn it into another packet.
    BadSlot {
        slot: u32,
    },
    /// No header has the id of the page.
    NoHeader {
        page: PageId,
    },
    /// The page is the only one of its number, and a header of that number has another subcode.
    OtherSubpage {
        page: PageId,
        slot: u32,
    },
    /// A header of the page has the erase bit (C4).
    Erased {
        page: PageId,
        slot: u32,
    },
    /// A header of the page has other control bits C5 to C14, or other characters.
    HeadDiffers {
        page: PageId,
        slot: u32,
    },
    /// A transmission of a row that a viewer sees does not have the row's characters.
    RowDiffers {
        page: PageId,
        slot: u32,
    },
    /// A transmission of the links does not have the page's links, or needs correction.
    LinksDiffer {
        page: PageId,
        slot: u32,
    },
    /// The certificate names no start for an item that a viewer sees.
    NoWitness {
        page: PageId,
        item: Item,
    },
    /// A named start is not a transmission of the item with a sure run.
    WitnessBad {
        page: PageId,
        item: Item,
        start: u32,
    },
    /// The run from the next named start ends too late after the owner of this start.
    Late {
        page: PageId,
        item: Item,
        start: u32,
    },
    /// The second pass over the slots does not match the first.
    Unsteady,
    /// The header after this one comes too late, for a blank item without named starts.
    LateBlank {
        page: PageId,
        item: Item,
        header: u32,
    },
}

/// The first reason why a page is not sent unchanged. `None` if it is.
#[derive(Clone, Copy)]
pub struct PageFault {
    pub reason: Option<Reason>,
}
