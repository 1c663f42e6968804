//! Two slots that send different contents of an item.

ghost use Rattle.std.specs.Prelude.{◌≡◌, ◌↔◌, ◌<◌, ◌≤◌, ℕ, List, IsTrue, IfNone, IfSome, MatchOption, Some, length, option_map, pos, unsigned_abs};
ghost use Rattle.ttx_cycle.specs.Cycles.{slots_of};
ghost use Rattle.ttx_packet.specs.Slots.{IsSlot};
ghost use Rattle.ttx_header.specs.Ids.{Id};
ghost use Rattle.ttx_page.specs.Packets.{packet_of, Row};
ghost use Rattle.ttx_page.specs.declared.item.Item.{Item as ItemIs};
ghost use Rattle.ttx_page.specs.Pages as definitions;
ghost use Rattle.ttx_page.specs.Streams.{repeated, IsTransmission};
ghost use Rattle.ttx_source.specs.Services.{ServiceFields, pages_of};
ghost use Rattle.ttx_witness.specs.sent.AllSent.{AreAllSent};
ghost use Rattle.ttx_witness.specs.faults.Comparing.{HoldsNoRow, HoldsNoLinks};
ghost use Rattle.ttx_witness.specs.faults.Faults.{IsPageFault};
ghost use Rattle.ttx_witness.specs.sent.ItemTransmissions.{sent_in};
ghost use Rattle.ttx_extract.specs.Extracts.{Differs, UnlikeHeads, UnlikeRows, UnlikeLinks, IsUnlikeFirst, NamesItem, IsSentService, Blames};
ghost use Rattle.ttx_extract.specs.FirstReasons.{TellsPage, HoldsText, HoldsContent};

use crate::faults::ExtractFault;
use crate::unlike_pages::Told;
use ttx_cycle::Cycle;
use ttx_links::{Links, read_links};
use ttx_packet::{Slot, slot_of};
use ttx_page::{Item, RowNumber};
use ttx_witness::{Collected, Reason, Transmission, header_in, row_in, same_links};

// Whether two slots are headers with other control bits or characters.
fn heads_differ(a: &[u8; 42], b: &[u8; 42]) -> bool
    requires a { IsSlot a.now }
    requires b { IsSlot b.now }
    ensures { IsTrue result ↔ UnlikeHeads (packet_of a.now) (packet_of b.now) }
{
    let (Some(a), Some(b)) = (header_in(a), header_in(b)) else {
        return false;
    };
    a.control().0 != b.control().0 || a.text() != b.text()
}

// The characters of the row in a slot.
fn row_text(slot: &[u8; 42]) -> Option<&[u8; 40]>
    ensures { MatchOption result (HoldsNoRow (packet_of slot.now)) (λ text. HoldsText text.now (packet_of slot.now)) }
{
    match row_in(slot) {
        Some(_) => slot.last_chunk::<40>(),
        None => None,
    }
}

// Whether two slots are rows with other characters.
fn rows_differ(a: &[u8; 42], b: &[u8; 42]) -> bool
    ensures { IsTrue result ↔ UnlikeRows (packet_of a.now) (packet_of b.now) }
{
    let (Some(a), Some(b)) = (row_text(a), row_text(b)) else {
        return false;
    };
    a != b
}

// The links of the X/27/0 in a slot; none of them where a byte can't be read.
fn content_in(slot: &[u8; 42]) -> Option<Option<Links>>
    ensures { MatchOption result (HoldsNoLinks (packet_of slot.now))
        (λ content. HoldsContent (option_map (λ l. l.set) content) (packet_of slot.now)) }
{
    match slot_of(slot) {
        Slot::Links(at, bytes) => Some(read_links(at.mag, bytes)),
        Slot::Empty => None,
        Slot::Unreadable => None,
        Slot::Header(_, _) => None,
        Slot::Row(_, _) => None,
        Slot::Info(_, _) => None,
        Slot::Other(_) => None,
    }
}

fn same_content(a: &Option<Links>, b: &Option<Links>) -> bool
    ensures { IsTrue result ↔ (option_map (λ l. l.set) a.now ≡ option_map (λ l. l.set) b.now) }
{
    match (a, b) {
        (Some(a), Some(b)) => same_links(a, b),
        (None, None) => true,
        _ => false,
    }
}

// Whether two slots are X/27/0 with other links, or a byte of one of them can't be read.
fn links_differ(a: &[u8; 42], b: &[u8; 42]) -> bool
    ensures { IsTrue result ↔ UnlikeLinks (packet_of a.now) (packet_of b.now) }
{
    let (Some(a), Some(b)) = (content_in(a), content_in(b)) else {
        return false;
    };
    !same_content(&a, &b)
}

// Whether two slots send different contents.
fn differ(a: &[u8; 42], b: &[u8; 42]) -> bool
    requires a { IsSlot a.now }
    requires b { IsSlot b.now }
    ensures { IsTrue result ↔ Differs (packet_of a.now) (packet_of b.now) }
{
    heads_differ(a, b) || rows_differ(a, b) || links_differ(a, b)
}

fn slot_of_first(sent: Transmission) -> u32
    ensures { result ≡ unsigned_abs sent.slot }
{
    sent.slot.unsigned_abs()
}

// The slot of a list's first transmission, where this slot differs from it.
fn first_unlike(cycle: &Cycle, sent: &[Transmission], slot: u32) -> Option<u32>
    ensures { (page : Id) (lines : ℕ) (item : ItemIs) → sent.now ≡ sent_in (slots_of cycle.now) page lines item →
        MatchOption result ((a : ℕ) → IsUnlikeFirst (slots_of cycle.now) lines page item a slot → ⊥)
        (λ first. IsUnlikeFirst (slots_of cycle.now) lines page item first slot) }
{
    ttx_witness::judging_laws::transmissions_are_listed();
    let slots = cycle.slots();
    let Some(earliest) = sent.first() else {
        return None;
    };
    let place = slot_of_first(*earliest);
    if place as usize >= slots.len() {
        return None;
    }
    if slot as usize >= slots.len() {
        return None;
    }
    if differ(&slots[place as usize], &slots[slot as usize]) {
        Some(place)
    } else {
        None
    }
}

// The row in a slot of the cycle.
fn row_at(cycle: &Cycle, slot: u32) -> Option<RowNumber>
    ensures row { IfSome result (λ row. (mag number : ℕ) (text : List ℕ) → packet_of (repeated (slots_of cycle.now) (pos slot)) ≡ Row mag number text →
        number ≡ row) }
    ensures none { IfNone result (slot < length (slots_of cycle.now) → (mag number : ℕ) (text : List ℕ) →
        packet_of (repeated (slots_of cycle.now) (pos slot)) ≡ Row mag number text → 1 ≤ number → number ≤ 24 → ⊥) }
{
    let slots = cycle.slots();
    if slot as usize >= slots.len() {
        return None;
    }
    match row_in(&slots[slot as usize]) {
        Some(at) => RowNumber::new(at.number),
        None => None,
    }
}

// An item, and a slot that sends it.
#[derive(Clone, Copy)]
struct Blamed {
    item: Item,
    slot: u32,
}

// The item that differs, and the slot where it does.
fn unlike_item(cycle: &Cycle, reason: &Reason) -> Option<Blamed>
    ensures names { IfSome result (λ unlike. NamesItem reason.now unlike.item unlike.slot) }
    ensures sent { IfSome result (λ unlike. (pages : List definitions.Page) (p : definitions.Page) →
        IsPageFault (slots_of cycle.now) pages p (Some reason.now) →
        IsTransmission (repeated (slots_of cycle.now)) p.id unlike.item (pos unlike.slot)) }
    ensures only { (pages : List definitions.Page) (p : definitions.Page) → IsPageFault (slots_of cycle.now) pages p (Some reason.now) →
        (item : ItemIs) (b : ℕ) → NamesItem reason.now item b → IsTransmission (repeated (slots_of cycle.now)) p.id item (pos b) →
        MatchOption result ⊥ (λ unlike. (item ≡ unlike.item) × (b ≡ unlike.slot)) }
{
    match reason {
        Reason::HeadDiffers { page: _, slot } => Some(Blamed {
            item: Item::Head,
            slot: *slot,
        }),
        Reason::RowDiffers { page: _, slot } => match row_at(cycle, *slot) {
            Some(row) => Some(Blamed {
                item: Item::Row(row),
                slot: *slot,
            }),
            None => None,
        },
        Reason::LinksDiffer { page: _, slot } => Some(Blamed {
            item: Item::Links,
            slot: *slot,
        }),
        _ => None,
    }
}

/// Why the reported page is not sent unchanged: two slots, if what one of them sends differs from the item's first
/// transmission, otherwise the reason.
pub fn why(cycle: &Cycle, collected: &Collected, told: Told) -> ExtractFault
    ensures { (service : ServiceFields) (lines : ℕ) → AreAllSent (slots_of cycle.now) (pages_of service) lines collected.now →
        IsSentService (slots_of cycle.now) lines service → TellsPage (slots_of cycle.now) (pages_of service) told →
        Blames (slots_of cycle.now) lines result }
{
    let Some(blamed) = unlike_item(cycle, &told.reason) else {
        return ExtractFault::Reason(told.reason);
    };
    match first_unlike(cycle, collected.sent(told.index, blamed.item), blamed.slot) {
        Some(first) => ExtractFault::Conflict {
            page: told.page,
            item: blamed.item,
            first,
            second: blamed.slot,
        },
        None => ExtractFault::Reason(told.reason),
    }
}
