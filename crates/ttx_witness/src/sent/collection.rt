//! Collects the transmissions of all items of all pages in one period of a cycle.

ghost use Rattle.std.specs.Prelude.{◌≡◌, ◌≢◌, ◌<◌, ◌*◌, ℕ, IfOk, OnOk, List, [], ◌∷◌, ◌++◌, length, map};
ghost use Rattle.std.specs.List.{AllPairs};
ghost use Rattle.ttx_header.specs.Ids.{Id};
ghost use Rattle.ttx_page.specs.Views.{page_of, ids_of};
ghost use Rattle.ttx_cycle.specs.Cycles.{slots_of};
ghost use Rattle.ttx_witness.specs.sent.Collected.{held, IsIndex, AreCollected};
ghost use Rattle.ttx_witness.specs.sent.AllSent.{AreAllSent, AreSentAfter};
ghost use Rattle.ttx_witness.specs.sent.OneSlot.{placed_at};

use crate::runs::transmissions::Transmission;
use crate::sent::collected::{Collected, Transmissions};
use crate::sent::indexed_headers::indexed_header;
use crate::sent::one_slot::{Sent, place_in, sent_in_slot};
use crate::sent::owners::{entry_owners, note_owner};
use crate::sent::page_index::{PageIndex, index_of};
use std::alloc::Global;
use ttx_certificate::{NoMemory, item_number};
use ttx_cycle::Cycle;
use ttx_page::{Item, Page};

// `count` empty lists.
fn empty_lists(alloc: Global, count: usize) -> Result<Vec<Transmissions>, NoMemory>
    ensures count { IfOk result (λ lists. length lists.items ≡ count) }
    ensures empty { IfOk result (λ lists. (n : ℕ) → held lists.items n ≡ []) }
{
    let mut lists = Vec::new(alloc);
    for _i in 0..count {
        if lists.push(Transmissions::new(alloc)).is_err() {
            return Err(NoMemory);
        }
    }
    Ok(lists)
}

// Appends a transmission to the list of its item. An item that is sent more often than a list holds in place is mostly sent often, so the
// first allocation has room for 16.
fn push_sent(list: &mut Transmissions, transmission: Transmission) -> Result<(), NoMemory>
    ensures { OnOk result (list.new.items ≡ list.old.items ++ transmission ∷ []) }
{
    if list.len() == list.inline_size() && list.reserve(14).is_err() {
        return Err(NoMemory);
    }
    match list.push(transmission) {
        Ok(()) => Ok(()),
        Err(_) => Err(NoMemory),
    }
}

// Appends what a slot sends to the list of its item.
fn add_sent(lists: &mut Vec<Transmissions>, sent: Option<Sent>) -> Result<(), NoMemory>
    ensures count { length lists.new.items ≡ length lists.old.items }
    ensures added { OnOk result ((n : ℕ) → n < length lists.old.items → held lists.new.items n ≡ held lists.old.items n ++ placed_at n sent) }
{
    let Some(sent) = sent else {
        return Ok(());
    };
    let Some(place) = place_in(sent, lists.len()) else {
        return Ok(());
    };
    push_sent(&mut lists[place], sent.transmission)?;
    Ok(())
}

// Fills the empty lists with the transmissions of the pages in the index.
fn fill_lists(
    lists: &mut Vec<Transmissions>,
    before: &Cycle,
    cycle: &Cycle,
    index: &PageIndex,
    lines: u8,
) -> Result<(), NoMemory>
    requires empty { (n : ℕ) → held lists.old.items n ≡ [] }
    ensures { OnOk result ((ids : List Id) → IsIndex ids index.now → length lists.old.items ≡ 26 * length ids →
        AreCollected ids (slots_of before.now) (slots_of cycle.now) lines (length (slots_of cycle.now)) lists.new.items) }
{
    let slots = cycle.slots();
    let mut owners = entry_owners(index, before);
    for j in 0..slots.len() {
        let header = indexed_header(index, &slots[j]);
        let sent = sent_in_slot(&owners, &header, &slots[j], j as i32, lines);
        add_sent(lists, sent)?;
        note_owner(&mut owners, &header, j as i32);
    }
    Ok(())
}

/// Collects the transmissions of each item in the first period of a cycle that follows another cycle. The ids of the pages are distinct.
/// `Err` if memory runs out.
pub fn collect_after(
    alloc: Global,
    before: &Cycle,
    cycle: &Cycle,
    pages: &[Page],
    lines: u8,
) -> Result<Collected, NoMemory>
    requires distinct { AllPairs (λ a b. a ≢ b) (ids_of pages.now) }
    ensures { IfOk result (λ c. AreSentAfter (slots_of before.now) (slots_of cycle.now) (map page_of pages.now) lines c) }
{
    ttx_page::laws::pages_keep_their_rules();
    let count = pages.len() as u32;
    let index = index_of(alloc, pages)?;
    let mut lists = empty_lists(alloc, 26 * count as usize)?;
    fill_lists(&mut lists, before, cycle, &index, lines)?;
    Ok(Collected { lists })
}

/// Collects the transmissions of each item in one period of the cycle. The ids of the pages are distinct. `Err` if memory runs out.
pub fn collect(
    alloc: Global,
    cycle: &Cycle,
    pages: &[Page],
    lines: u8,
) -> Result<Collected, NoMemory>
    requires distinct { AllPairs (λ a b. a ≢ b) (ids_of pages.now) }
    ensures { IfOk result (λ c. AreAllSent (slots_of cycle.now) (map page_of pages.now) lines c) }
{
    collect_after(alloc, cycle, cycle, pages, lines)
}

impl Collected {
    ghost use Rattle.std.specs.Prelude.{◌≡◌, ℕ, List, slice_get, Some};
    ghost use Rattle.std.specs.List.{AllByRecursion};
    ghost use Rattle.ttx_page.specs.Pages.{Page as PageFields};
    ghost use Rattle.ttx_witness.specs.runs.Tracks.{AreInOrder, IsWithin};
    ghost use Rattle.ttx_witness.specs.sent.ItemTransmissions.{sent_after, sent_in};
    ghost use Rattle.ttx_witness.specs.sent.AllSent.{AreAllSent, AreSentAfter};

    /// The transmissions of an item of the page at `index`, slot by slot.
    pub fn sent(&self, index: usize, item: Item) -> &[Transmission]
        ensures listed { (cycle : List (List ℕ)) (pages : List PageFields) (lines : ℕ) (p : PageFields) →
            AreAllSent cycle pages lines self.now → slice_get pages index ≡ Some p → result.now ≡ sent_in cycle p.id lines item }
        ensures after { (before cycle : List (List ℕ)) (pages : List PageFields) (lines : ℕ) (p : PageFields) →
            AreSentAfter before cycle pages lines self.now → slice_get pages index ≡ Some p → result.now ≡ sent_after before cycle p.id lines item }
        ensures within { AllByRecursion (IsWithin 65536) result.now }
        ensures in_order { AreInOrder result.now }
    {
        let number = usize::from(item_number(&item));
        if index >= self.lists.len() / 26 {
            return &[];
        }
        self.lists[26 * index + number].as_slice()
    }
}
