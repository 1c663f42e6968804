//! The owners of the eight magazines.

ghost use Rattle.std.specs.Prelude.{◌≡◌, ◌<◌, ℕ, List, slice_get, get_or, true, false, None, Some, if◌then◌else◌, ◌==◌};
ghost use Rattle.ttx_header.specs.Ids.{Id, IsId};
ghost use Rattle.ttx_page.specs.Packets.{packet_of};
ghost use Rattle.ttx_cycle.specs.Cycles.{slots_of};
ghost use Rattle.ttx_witness.specs.sent.IndexedHeaders.{IsHeaderOf};
ghost use Rattle.ttx_witness.specs.sent.ItemTransmissions.{owner_after};
ghost use Rattle.ttx_witness.specs.sent.Collected.{taint, IsIndex, AreOwners, AreApart, owner_for};

use crate::sent::indexed_headers::{IndexedHeader, indexed_header};
use crate::sent::page_index::PageIndex;
use ttx_cycle::Cycle;

/// The latest header of a magazine.
#[derive(Clone, Copy)]
pub struct Owner {
    /// Its slot, counted from the first slot of the period; it may be negative.
    pub slot: i32,
    /// The index of its page in the list of pages, if it is listed.
    pub page: Option<u32>,
    /// Whether a header of another magazine has ended its page since then.
    pub tainted: bool,
}

// The owner that a header becomes.
fn owner_at(slot: i32, page: Option<u32>) -> Owner
    ensures { result ≡ record { slot = slot; page = page; tainted = false } }
{
    Owner {
        slot,
        page,
        tainted: false,
    }
}

// Notes that a header of another magazine has ended the page of the owner.
fn taint(owner: &mut Option<Owner>)
    ensures { owner.new ≡ taint true owner.old }
{
    if let Some(owner) = owner {
        owner.tainted = true;
    }
}

// Notes that a header has ended the pages of all magazines.
fn taint_all(owners: &mut [Option<Owner>; 8])
    ensures { (m : ℕ) → m < 8 → get_or owners.new m None ≡ taint true (get_or owners.old m None) }
{
    for m in 0..8usize {
        taint(&mut owners[m]);
    }
}

/// Notes a header: it becomes the owner of its magazine, and ends the pages of the other magazines if `ends` is true.
pub fn note_header(owners: &mut [Option<Owner>; 8], mag: usize, header: Owner, ends: bool)
    requires { mag < 8 }
    ensures { (m : ℕ) → m < 8 → get_or owners.new m None ≡ (if m == mag then Some header else taint ends (get_or owners.old m None)) }
{
    if ends {
        taint_all(owners);
    }
    owners[mag] = Some(header);
}

/// Notes the header in slot `j`, if there is one.
#[inline(always)]
pub fn note_owner(owners: &mut [Option<Owner>; 8], header: &Option<IndexedHeader>, j: i32)
    ensures after { (ids : List Id) (slot : List ℕ) → IsHeaderOf ids slot header.now → (i : ℕ) (id : Id) → slice_get ids i ≡ Some id → IsId id →
        owner_for owners.new i id ≡ owner_after id j (packet_of slot) (owner_for owners.old i id) }
    ensures apart { (ids : List Id) (slot : List ℕ) → IsHeaderOf ids slot header.now → AreApart ids owners.old → AreApart ids owners.new }
{
    if let Some(header) = header {
        note_header(
            owners,
            usize::from(header.id.mag()) - 1,
            owner_at(j, header.page),
            header.is_serial,
        );
    }
}

/// The owners before slot 0: those at the end of the cycle's period, one period earlier.
pub fn entry_owners(index: &PageIndex, cycle: &Cycle) -> [Option<Owner>; 8]
    ensures owners { (ids : List Id) (next : List (List ℕ)) → IsIndex ids index.now → AreOwners ids (slots_of cycle.now) next 0 result }
    ensures apart { (ids : List Id) → IsIndex ids index.now → AreApart ids result }
{
    let slots = cycle.slots();
    let period = slots.len() as i32;
    let mut owners = [None; 8];
    for j in 0..slots.len() {
        note_owner(
            &mut owners,
            &indexed_header(index, &slots[j]),
            j as i32 - period,
        );
    }
    owners
}
