//! The entries of certificates.

ghost use Rattle.std.specs.Prelude.{◌≡◌, ◌<◌, ◌+◌, ◌*◌, true};
ghost use Rattle.ttx_header.specs.Ids.{IsId};
ghost use Rattle.ttx_certificate.specs.ItemPlaces.{key_of};
ghost use Rattle.ttx_certificate.specs.Entries.{IsEntry, entry_at, is_above, is_page_id, is_item, are_slots, are_starts, rises, place_of};

use crate::item_numbers::item_number;
use smallvec::SmallVec;
use ttx_header::PageId;
use ttx_page::Item;

/// The starts of an item. Most items are sent a few times in a cycle, and so few starts need no allocation.
pub type Starts = SmallVec<u32, 4>;

/// The starts that are named for an item of a page. At least one start, each below 65,536, strictly rising; the page number
/// isn't FF and the subcode isn't 3F7F.
#[derive(Drop)]
pub struct Entry {
    page: PageId,
    item: Item,
    place: u32,
    starts: Starts,
    ghost kept: { IsEntry (entry_at page item starts.items) },
    ghost placed: { place ≡ place_of page item },
}

/// Whether a number is above the one before it.
pub(crate) fn is_above(low: Option<u32>, number: u32) -> bool
    ensures { result ≡ is_above low number }
{
    match low {
        Some(low) => low < number,
        None => true,
    }
}

// Whether the id is one of a page: no page FF, and no subcode 3F7F.
fn is_page_id(page: PageId) -> bool
    ensures value { result ≡ is_page_id page }
    ensures ranges { IsId page }
{
    // This call brings the ranges of the id into the proof.
    let _mag = page.mag();
    page.page() != 0xff && page.sub() != 0x3f7f
}

/// Whether each number is above the one before it.
pub(crate) fn rises(numbers: &[u32]) -> bool
    ensures { result ≡ rises numbers.now }
{
    let mut low = None;
    for number in numbers {
        if !is_above(low, *number) {
            return false;
        }
        low = Some(*number);
    }
    true
}

/// Whether each number is below 65,536.
pub(crate) fn are_slots(starts: &[u32]) -> bool
    ensures { result ≡ are_slots starts.now }
{
    starts.iter().all(|start| *start < 65_536)
}

// Whether there is a start, each is below 65,536, and they rise.
fn are_starts(starts: &[u32]) -> bool
    ensures { result ≡ are_starts starts.now }
{
    !starts.is_empty() && are_slots(starts) && rises(starts)
}

// The place of the item with this number.
fn numbered_place(page: PageId, number: u8) -> u32
    requires { number < 26 }
    ensures value { result ≡ key_of page * 26 + number }
    ensures id { IsId page }
{
    let mag = page.mag();
    let key = (u32::from(mag) * 0x100 + u32::from(page.page())) * 0x4000;
    (key + u32::from(page.sub())) * 26 + u32::from(number)
}

/// The place of an item of a page in the order of entries.
pub(crate) fn place(page: PageId, item: Item) -> u32
    ensures value { result ≡ place_of page item }
    ensures id { IsId page }
    ensures item { is_item item ≡ true }
{
    numbered_place(page, item_number(&item))
}

impl Entry {
    ghost use Rattle.std.specs.Prelude.{IsSome, IfSome, ◌↔◌};
    ghost use Rattle.ttx_certificate.specs.EntryViews.{entry_of};

    /// The entry of these fields, which keep the type's rules.
    pub fn of(page: PageId, item: Item, starts: Starts) -> Entry
        requires page { is_page_id page ≡ true }
        requires starts { are_starts starts.items ≡ true }
        ensures { entry_of result ≡ entry_at page item starts.items }
    {
        let place = numbered_place(page, item_number(&item));
        Entry {
            page,
            item,
            place,
            starts,
        }
    }

    /// The entry of these fields. `None` if one of the type's rules fails.
    pub fn new(page: PageId, item: Item, starts: Starts) -> Option<Entry>
        ensures some { IsSome result ↔ IsEntry (entry_at page item starts.items) }
        ensures fields { IfSome result (λ e. entry_of e ≡ entry_at page item starts.items) }
    {
        // This call brings the range of the item into the proof.
        let _number = item_number(&item);
        if is_page_id(page) && are_starts(starts.as_slice()) {
            Some(Entry::of(page, item, starts))
        } else {
            None
        }
    }

    /// The id of the page.
    pub fn page(&self) -> PageId
        ensures { result ≡ (entry_of self.now).page }
    {
        self.page
    }

    /// The item of the page.
    pub fn item(&self) -> Item
        ensures { result ≡ (entry_of self.now).item }
    {
        self.item
    }

    /// The place of the entry in the order of entries.
    pub fn place(&self) -> u32
        ensures { result ≡ place_of (entry_of self.now).page (entry_of self.now).item }
    {
        self.place
    }

    /// The starts that are named, in slots from 0.
    pub fn starts(&self) -> &[u32]
        ensures { result.now ≡ (entry_of self.now).starts }
    {
        self.starts.as_slice()
    }
}
