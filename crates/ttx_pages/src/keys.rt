//! Pages as numbers, and the pages to which packets belong.

ghost use Rattle.std.specs.Prelude.{◌≡◌, ◌<◌, ◌-◌, IfOk, IfSome, length, fold, replicate};
ghost use Rattle.ttx_packet.specs.Slots.{kind_of};
ghost use Rattle.ttx_pages.specs.Keys.{page_key, opened, opens, page_open_at, owners, keys_sent};
ghost use Rattle.ttx_pages.specs.Places.{magazine_place_in, magazine_place};

use std::alloc::{AllocError, Global};
use ttx_header::{PageId, read_header};
use ttx_packet::{Slot, slot_of};

/// The kinds of packets of a page.
#[derive(Clone, Copy)]
pub enum Part {
    /// Its page headers.
    Head,
    /// Its rows 1 to 24.
    Row,
    /// Its packets X/27/0.
    Links,
}

/// A page as one number. The numbers rise by magazine, page number and subcode; each is below 37,748,736.
pub fn page_key(id: PageId) -> usize
    ensures value { result ≡ page_key id }
    ensures range { result < 37748736 }
{
    (usize::from(id.mag()) * 256 + usize::from(id.page())) * 16384 + usize::from(id.sub())
}

/// Notes the page that a header opens in its magazine.
pub fn open_page(current: &mut [usize; 8], slot: &[u8; 42])
    ensures { current.new ≡ opened current.old slot.now }
{
    if let Some(header) = read_header(slot) {
        let id = header.id();
        current[usize::from(id.mag()) - 1] = page_key(id);
    }
}

fn no_pages() -> [usize; 8]
    ensures { result ≡ replicate 8 0 }
{
    [0; 8]
}

// The page that each magazine has open after these slots.
fn open_pages(slots: &[[u8; 42]]) -> [usize; 8]
    ensures { result ≡ opens slots.now }
{
    let mut current = no_pages();
    for slot in slots {
        open_page(&mut current, slot);
    }
    current
}

// The index of the magazine, counted from 0, of a packet of this part.
fn magazine_place_in(part: Part, slot: &[u8; 42]) -> Option<usize>
    ensures value { result ≡ magazine_place_in part (kind_of slot.now) }
    ensures range { IfSome result (λ place. place < 8) }
{
    let at = match (part, slot_of(slot)) {
        (Part::Head, Slot::Header(at, _)) => at,
        (Part::Row, Slot::Row(at, _)) => at,
        (Part::Links, Slot::Links(at, _)) => at,
        _ => return None,
    };
    Some(usize::from(at.mag) - 1)
}

/// The pages of a cycle's packets of this part, in the order of their slots. `Err` if memory runs out.
pub fn keys_sent(alloc: Global, part: Part, slots: &[[u8; 42]]) -> Result<Vec<usize>, AllocError>
    ensures { IfOk result (λ keys. keys.items ≡ keys_sent part slots.now) }
{
    let mut current = open_pages(slots);
    let mut keys = Vec::new(alloc);
    for slot in slots {
        open_page(&mut current, slot);
        if let Some(place) = magazine_place_in(part, slot) {
            keys.push(current[place])?;
        }
    }
    Ok(keys)
}

// The index of the magazine, counted from 0, of a packet that belongs to a page.
fn magazine_place(slot: &[u8; 42]) -> Option<usize>
    ensures value { result ≡ magazine_place (kind_of slot.now) }
    ensures range { IfSome result (λ place. place < 8) }
{
    let at = match slot_of(slot) {
        Slot::Header(at, _) => at,
        Slot::Row(at, _) => at,
        Slot::Links(at, _) => at,
        _ => return None,
    };
    Some(usize::from(at.mag) - 1)
}

// The page that the magazine of the slot has open.
fn page_open_at(current: &[usize; 8], slot: &[u8; 42]) -> usize
    ensures { result ≡ page_open_at current.now (magazine_place (kind_of slot.now)) }
{
    match magazine_place(slot) {
        Some(place) => current[place],
        None => 0,
    }
}

/// The page, as a number, to which each slot of a cycle belongs; 0 if it belongs to none. `Err` if memory runs out.
pub fn owners(alloc: Global, slots: &[[u8; 42]]) -> Result<Vec<usize>, AllocError>
    ensures pages { IfOk result (λ pages. pages.items ≡ owners slots.now) }
    ensures size { IfOk result (λ pages. length pages.items ≡ length slots.now) }
{
    let mut current = open_pages(slots);
    let mut pages = Vec::new(alloc);
    for slot in slots {
        open_page(&mut current, slot);
        pages.push(page_open_at(&current, slot))?;
    }
    Ok(pages)
}
