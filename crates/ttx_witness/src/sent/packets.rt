//! The packets in slots: headers, rows and links.

ghost use Rattle.std.specs.Prelude.{◌≡◌, ◌<◌, Bool, IfSome, MatchOption, Some, true};
ghost use Rattle.ttx_header.specs.Ids.{Id};
ghost use Rattle.ttx_page.specs.Packets.{packet_of};
ghost use Rattle.ttx_page.specs.Streams.{heads_page, carries};
ghost use Rattle.ttx_page.specs.declared.item.Item.{Item as ItemValue};
ghost use Rattle.ttx_page.specs.declared.item.Item.TheVariants.{Row as TheRow, Links as TheLinks};
ghost use Rattle.ttx_witness.specs.faults.Comparing.{HoldsHeader, HoldsNoHeader, HoldsId, HoldsRow, HoldsNoRow, HoldsLinks, mine_after};
ghost use Rattle.ttx_witness.specs.faults.Comparing.{HoldsNoLinks, sends, heads_other_subpage, is_number_of};
ghost use Rattle.ttx_witness.specs.sent.Collected.{IsItem, item_number};

use crate::sent::page_items::item_of;
use ttx_header::{Control, Header, PageId, read_id};
use ttx_packet::place::Address;
use ttx_packet::{Slot, slot_of};
use ttx_page::{Item, RowNumber};

/// The page header in a slot, if there is one.
pub fn header_in(slot: &[u8; 42]) -> Option<Header>
    ensures { MatchOption result (HoldsNoHeader (packet_of slot.now)) (λ h. HoldsHeader h (packet_of slot.now)) }
{
    ttx_cycle::arrays::is_slot(slot);
    ttx_header::laws::headers_have_fields();
    ttx_header::laws::headers_are_headers();
    ttx_header::read_header(slot)
}

/// The address of the row in a slot, if there is one.
pub fn row_in(slot: &[u8; 42]) -> Option<Address>
    ensures { MatchOption result (HoldsNoRow (packet_of slot.now)) (λ at. HoldsRow at slot.now) }
{
    match slot_of(slot) {
        Slot::Row(at, _) => Some(at),
        Slot::Empty => None,
        Slot::Unreadable => None,
        Slot::Header(_, _) => None,
        Slot::Links(_, _) => None,
        Slot::Info(_, _) => None,
        Slot::Other(_) => None,
    }
}

/// The address of the X/27/0 in a slot, if there is one.
pub fn links_in(slot: &[u8; 42]) -> Option<Address>
    ensures { MatchOption result (HoldsNoLinks (packet_of slot.now)) (λ at. HoldsLinks at slot.now) }
{
    match slot_of(slot) {
        Slot::Links(at, _) => Some(at),
        Slot::Empty => None,
        Slot::Unreadable => None,
        Slot::Header(_, _) => None,
        Slot::Row(_, _) => None,
        Slot::Info(_, _) => None,
        Slot::Other(_) => None,
    }
}

/// The id and the control bits of the page header in a slot, if there is one.
#[inline(always)]
pub fn id_in(slot: &[u8; 42]) -> Option<(PageId, Control)>
    ensures { MatchOption result (HoldsNoHeader (packet_of slot.now)) (λ h. HoldsId h.0 h.1.0 slot.now) }
{
    ttx_cycle::arrays::is_slot(slot);
    ttx_header::laws::headers_have_fields();
    ttx_header::laws::headers_are_headers();
    read_id(slot)
}

/// Whether the slot is a header of the page.
pub fn heads_page(page: PageId, slot: &[u8; 42]) -> bool
    ensures { result ≡ heads_page page (packet_of slot.now) }
{
    match id_in(slot) {
        Some((id, _)) => page == id,
        None => false,
    }
}

/// Whether the slot is a header with the page's number and another subcode.
pub fn heads_other_subpage(page: PageId, slot: &[u8; 42]) -> bool
    ensures { result ≡ heads_other_subpage page (packet_of slot.now) }
{
    match id_in(slot) {
        Some((id, _)) => page.mag() == id.mag() && page.page() == id.page() && page != id,
        None => false,
    }
}

/// Whether, after this slot, the latest header of the page's magazine is one of the page. `mine` says whether it was before.
pub fn mine_after(page: PageId, slot: &[u8; 42], mine: bool) -> bool
    ensures { result ≡ mine_after page (packet_of slot.now) mine }
{
    match id_in(slot) {
        Some((id, _)) if id.mag() == page.mag() => page == id,
        _ => mine,
    }
}

// Whether the slot is the row of the magazine.
fn carries_row(mag: u8, row: RowNumber, slot: &[u8; 42]) -> bool
    ensures { result ≡ carries mag (TheRow row) (packet_of slot.now) }
{
    match row_in(slot) {
        Some(at) => at.mag == mag && at.number == row.number(),
        None => false,
    }
}

// Whether the slot is an X/27/0 of the magazine.
fn carries_links(mag: u8, slot: &[u8; 42]) -> bool
    ensures { result ≡ carries mag TheLinks (packet_of slot.now) }
{
    match links_in(slot) {
        Some(at) => at.mag == mag,
        None => false,
    }
}

/// Whether the slot is a transmission of the item. `mine` says whether the latest header of the page's magazine before the slot is
/// one of the page.
pub fn sends(page: PageId, item: Item, slot: &[u8; 42], mine: bool) -> bool
    ensures { result ≡ sends page item (packet_of slot.now) mine }
{
    match item {
        Item::Head => heads_page(page, slot),
        Item::Row(row) => carries_row(page.mag(), row, slot) && mine,
        Item::Links => carries_links(page.mag(), slot) && mine,
    }
}

// The number of the item that the slot may send, whatever the page: 0 a header, 1 to 24 a row, 25 links. If it sends an item of any
// page, it is this one.
fn item_number_in(slot: &[u8; 42]) -> Option<u8>
    ensures range { IfSome result (λ number. number < 26) }
    ensures number { (page : Id) (item : ItemValue) (mine : Bool) → sends page item (packet_of slot.now) mine ≡ true →
        result ≡ Some (item_number item) }
{
    ttx_packet::laws::rows_are_numbered();
    match slot_of(slot) {
        Slot::Header(_, _) => Some(0),
        Slot::Row(at, _) => Some(at.number),
        Slot::Links(_, _) => Some(25),
        _ => None,
    }
}

/// The number of the page's item that the slot sends, 0 to 25, if it sends one. `mine` is as for `sends`.
pub fn item_sent(page: PageId, slot: &[u8; 42], mine: bool) -> Option<u8>
    ensures { (item : ItemValue) → IsItem item → is_number_of item result ≡ sends page item (packet_of slot.now) mine }
{
    let number = item_number_in(slot)?;
    if sends(page, item_of(number), slot, mine) {
        Some(number)
    } else {
        None
    }
}
