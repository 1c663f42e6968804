//! Certificates.

ghost use Rattle.std.specs.Prelude.{◌≡◌, true};
ghost use Rattle.ttx_certificate.specs.Entries.{are_numbers, rises, entry_places};
ghost use Rattle.ttx_certificate.specs.EntryViews.{entries_of};

use crate::entries::{Entry, is_above, place};
use ttx_header::PageId;
use ttx_page::{Class, Item};

/// The receivers and the time for which a cycle is certified, and the starts that prove it: lines of a field (1 to 32), the
/// repeat count (1 to 8), the deadline in fields (1 to 1,000,000), the entries, strictly rising
/// by magazine, page number, subcode and item (row 0, rows, links), and the class of receivers.
#[derive(Drop)]
pub struct Certificate {
    lines: u8,
    repeat: u8,
    deadline: u32,
    entries: Vec<Entry>,
    class: Class,
    ghost numbers: { are_numbers lines repeat deadline ≡ true },
    ghost rising: { rises (entry_places (entries_of entries.items)) ≡ true },
}

// Whether the numbers are in their ranges.
fn are_numbers(lines: u8, repeat: u8, deadline: u32) -> bool
    ensures { result ≡ are_numbers lines repeat deadline }
{
    1 <= lines
        && lines <= 32
        && 1 <= repeat
        && repeat <= 8
        && 1 <= deadline
        && deadline <= 1_000_000
}

// Whether each entry comes after the one before it.
fn are_in_order(entries: &[Entry]) -> bool
    ensures { result ≡ rises (entry_places (entries_of entries.now)) }
{
    let mut low = None;
    for entry in entries {
        let place = entry.place();
        if !is_above(low, place) {
            return false;
        }
        low = Some(place);
    }
    true
}

impl Certificate {
    ghost use Rattle.std.specs.Prelude.{is_some, IfSome, ◌&&◌};
    ghost use Rattle.ttx_certificate.specs.Entries.{certificate_fields_at, starts_in};
    ghost use Rattle.ttx_certificate.specs.Certificates.{fields_of};

    /// The certificate of these fields, which keep the type's rules.
    pub fn of(
        lines: u8,
        repeat: u8,
        deadline: u32,
        entries: Vec<Entry>,
        class: Class,
    ) -> Certificate
        requires numbers { are_numbers lines repeat deadline ≡ true }
        requires rising { rises (entry_places (entries_of entries.items)) ≡ true }
        ensures { fields_of result ≡ certificate_fields_at lines repeat deadline (entries_of entries.items) class }
    {
        Certificate {
            lines,
            repeat,
            deadline,
            entries,
            class,
        }
    }

    /// The certificate of these fields. `None` if one of the type's rules fails.
    pub fn new(
        lines: u8,
        repeat: u8,
        deadline: u32,
        entries: Vec<Entry>,
        class: Class,
    ) -> Option<Certificate>
        ensures some { is_some result ≡ (are_numbers lines repeat deadline && rises (entry_places (entries_of entries.items))) }
        ensures fields { IfSome result (λ w. fields_of w ≡ certificate_fields_at lines repeat deadline (entries_of entries.items) class) }
    {
        if are_numbers(lines, repeat, deadline) && are_in_order(entries.as_slice()) {
            Some(Certificate::of(lines, repeat, deadline, entries, class))
        } else {
            None
        }
    }

    /// The lines of a field, 1 to 32.
    pub fn lines(&self) -> u8
        ensures { result ≡ (fields_of self.now).lines }
    {
        self.lines
    }

    /// The repeat count, 1 to 8: of so many successive transmissions of a character at least one is received right.
    pub fn repeat(&self) -> u8
        ensures { result ≡ (fields_of self.now).repeat }
    {
        self.repeat
    }

    /// The deadline in fields, 1 to 1,000,000.
    pub fn deadline(&self) -> u32
        ensures { result ≡ (fields_of self.now).deadline }
    {
        self.deadline
    }

    /// The entries in their order.
    pub fn entries(&self) -> &[Entry]
        ensures { entries_of result.now ≡ (fields_of self.now).entries }
    {
        self.entries.as_slice()
    }

    /// The class of receivers.
    pub fn class(&self) -> Class
        ensures { result ≡ (fields_of self.now).class }
    {
        self.class
    }

    /// The starts that are named for an item of a page; none if there is no entry for it.
    pub fn starts(&self, page: PageId, item: Item) -> &[u32]
        ensures { result.now ≡ starts_in (fields_of self.now).entries page item }
    {
        let place = place(page, item);
        let entries = self.entries.as_slice();
        match entries.binary_search_by_key(&place, |entry| entry.place()) {
            Ok(index) => entries[index].starts(),
            Err(_) => &[],
        }
    }

    /// The starts that are named for an item of a page, and the place from which to look for those of the next item. `near` is that
    /// place for this item; it does not change the starts.
    pub fn starts_near(&self, page: PageId, item: Item, near: usize) -> (usize, &[u32])
        ensures { result.1.now ≡ starts_in (fields_of self.now).entries page item }
    {
        let wanted = place(page, item);
        let entries = self.entries.as_slice();
        if near < entries.len() {
            let entry = &entries[near];
            if entry.place() == wanted {
                return (near + 1, entry.starts());
            }
        }
        match entries.binary_search_by_key(&wanted, |entry| entry.place()) {
            Ok(index) => (index + 1, entries[index].starts()),
            Err(index) => (index, &[]),
        }
    }
}
