//! What a slot sends of the items of pages.

ghost use Rattle.std.specs.Prelude.{◌≡◌, ◌<◌, ℕ, List, IfSome, MatchOption, slice_get, Some, false, if◌then◌else◌, ◌==◌, ◌&&◌};
ghost use Rattle.std.specs.Prelude.{◌∷◌, [], ◌+ℤ◌, pos, not, int_lt, true};
ghost use Rattle.ttx_header.specs.Ids.{Id};
ghost use Rattle.ttx_page.specs.Packets.{packet_of};
ghost use Rattle.ttx_page.specs.declared.item.Item.{Item};
ghost use Rattle.ttx_witness.specs.sent.ItemTransmissions.{sent_under, sent_at};
ghost use Rattle.ttx_witness.specs.sent.Collected.{IsItem, AreApart, item_number, seen_by, owner_for, is_page};
ghost use Rattle.ttx_witness.specs.sent.IndexedHeaders.{IsHeaderOf};
ghost use Rattle.ttx_witness.specs.sent.OneSlot.{sent_of, sends_place};

use crate::runs::transmissions::Transmission;
use crate::sent::indexed_headers::IndexedHeader;
use crate::sent::owners::Owner;
use ttx_packet::{Slot, slot_of};

/// A transmission of an item: the index of its page in the list of pages, and the number of the item, 0 to 25.
#[derive(Clone, Copy)]
pub struct Sent {
    pub page: u32,
    pub number: u8,
    pub transmission: Transmission,
}

// The transmission in slot `j` under its owner.
fn transmission_under(owner: Owner, j: i32, lines: u8) -> Transmission
    ensures { result ≡ record { slot = j; owner = owner.slot; sure = int_lt (owner.slot +ℤ pos lines) j && not owner.tainted } }
{
    Transmission {
        slot: j,
        owner: owner.slot,
        sure: i64::from(owner.slot) + i64::from(lines) < i64::from(j) && !owner.tainted,
    }
}

// What slot `j` sends of item `number`, if its owner is a header of a listed page.
fn sent_under(owner: Option<Owner>, number: u8, j: i32, lines: u8) -> Option<Sent>
    requires { number < 26 }
    ensures number { IfSome result (λ s. s.number < 26) }
    ensures sent { (i : ℕ) (item : Item) → sent_of i item result ≡ (if item_number item == number then sent_under lines j (seen_by i owner) else []) }
{
    let owner = owner?;
    let page = owner.page?;
    Some(Sent {
        page,
        number,
        transmission: transmission_under(owner, j, lines),
    })
}

// What a header in slot `j` sends, if it is the header of a listed page.
fn sent_head(page: Option<u32>, j: i32) -> Option<Sent>
    ensures number { IfSome result (λ s. s.number < 26) }
    ensures sent { (i : ℕ) (item : Item) →
        sent_of i item result ≡ (if (item_number item == 0) && is_page i page then record { slot = j; owner = j; sure = true } ∷ [] else []) }
{
    let page = page?;
    Some(Sent {
        page,
        number: 0,
        transmission: Transmission {
            slot: j,
            owner: j,
            sure: true,
        },
    })
}

/// What slot `j` sends of the items of the pages, with the header that is read in it, and the owners before it. `lines` is the number of
/// slots in a field.
#[inline(always)]
pub fn sent_in_slot(
    owners: &[Option<Owner>; 8],
    header: &Option<IndexedHeader>,
    slot: &[u8; 42],
    j: i32,
    lines: u8,
) -> Option<Sent>
    ensures number { IfSome result (λ s. s.number < 26) }
    ensures sent { (ids : List Id) → IsHeaderOf ids slot.now header.now → AreApart ids owners.now → (i : ℕ) (id : Id) (item : Item) →
        slice_get ids i ≡ Some id → IsItem item → sent_of i item result ≡ sent_at id lines item j (packet_of slot.now) (owner_for owners.now i id) }
{
    ttx_packet::laws::rows_are_numbered();
    if let Some(header) = header {
        return sent_head(header.page, j);
    }
    match slot_of(slot) {
        Slot::Row(at, _) => sent_under(owners[usize::from(at.mag) - 1], at.number, j, lines),
        Slot::Links(at, _) => sent_under(owners[usize::from(at.mag) - 1], 25, j, lines),
        _ => None,
    }
}

/// The place of the item that is sent, or `None` if it is not below `places`.
pub fn place_in(sent: Sent, places: usize) -> Option<usize>
    ensures { MatchOption result ((place : ℕ) → place < places → sends_place place (Some sent) ≡ false)
        (λ place. (place < places) × (sends_place place (Some sent) ≡ true)) }
{
    let place = 26 * sent.page as usize + usize::from(sent.number);
    if sent.number < 26 && place < places {
        Some(place)
    } else {
        None
    }
}
