//! The page header in a slot, with the index of its page.

ghost use Rattle.std.specs.Prelude.{◌≡◌, List};
ghost use Rattle.ttx_header.specs.Ids.{Id};
ghost use Rattle.ttx_witness.specs.sent.Collected.{IsIndex};
ghost use Rattle.ttx_witness.specs.sent.IndexedHeaders.{IsHeaderOf};

use crate::sent::page_index::{PageIndex, place_of};
use ttx_header::{PageId, read_id};

/// A page header: its id, whether it ends the pages of all magazines (C11), and the index of its page in the list of pages, if the page
/// is listed.
#[derive(Clone, Copy)]
pub struct IndexedHeader {
    pub id: PageId,
    pub is_serial: bool,
    pub page: Option<u32>,
}

/// The page header in a slot, if there is one.
#[inline(always)]
pub fn indexed_header(index: &PageIndex, slot: &[u8; 42]) -> Option<IndexedHeader>
    ensures { (ids : List Id) → IsIndex ids index.now → IsHeaderOf ids slot.now result }
{
    ttx_cycle::arrays::is_slot(slot);
    ttx_header::laws::headers_have_fields();
    ttx_header::laws::headers_are_headers();
    match read_id(slot) {
        Some((id, control)) => Some(IndexedHeader {
            id,
            is_serial: control.is_serial(),
            page: place_of(index, id),
        }),
        None => None,
    }
}
