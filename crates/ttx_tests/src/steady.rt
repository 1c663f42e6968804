//! The worked cycle with page 100 sent twice: the first reason why the page is not sent unchanged, and the gap to the header that
//! ends it.

use crate::base::{self, HEADER, beginning};
use crate::seen::page;
use std::alloc::{AllocError, Global};
use std::test::Fail;
use ttx_cycle::Cycle;
use ttx_header::PageId;
use ttx_late::gap_after;
use ttx_witness::{Reason, page_fault};

// A slot, the byte of it that is changed, and the number and the slot of the reason: subpage 1, C4, no C11, an A in the header, an A
// in row 5, an A in row 20, a link that needs correction.
#[rattlefmt::skip]
static CHANGES: [(usize, usize, u8, (u32, u32)); 7] = [
    (27, 4, 0x02, (3, 27)),
    (27, 5, 0xd0, (4, 27)),
    (27, 9, 0x15, (5, 27)),
    (0, 12, 0xc1, (5, 0)),
    (7, 2, 0xc1, (6, 7)),
    (22, 41, 0xc1, (6, 22)),
    (26, 3, 0xeb, (7, 26)),
];

// The number of a reason, and its slot.
fn numbered(reason: Option<Reason>) -> (u32, u32) {
    match reason {
        None => (0, 0),
        Some(Reason::NoHeader { .. }) => (2, 0),
        Some(Reason::OtherSubpage { slot, .. }) => (3, slot),
        Some(Reason::Erased { slot, .. }) => (4, slot),
        Some(Reason::HeadDiffers { slot, .. }) => (5, slot),
        Some(Reason::RowDiffers { slot, .. }) => (6, slot),
        Some(Reason::LinksDiffer { slot, .. }) => (7, slot),
        _ => (1, 0),
    }
}

// The worked cycle with a second header of page 100 in the place of the time-filling header, and one byte of it changed.
fn slots(alloc: Global, at: usize, byte: usize, value: u8) -> Result<Vec<[u8; 42]>, AllocError> {
    let mut slots = base::slots(alloc)?;
    if let Some(last) = slots.get_mut(27) {
        *last = beginning(&HEADER);
    }
    if byte < 42
        && let Some(slot) = slots.get_mut(at)
    {
        slot[byte] = value;
    }
    Ok(slots)
}

// The number and the slot of the reason why these slots don't send page 100 unchanged.
fn fault(slots: Vec<[u8; 42]>) -> Option<(u32, u32)> {
    let page = page(0x20)?;
    let cycle = Cycle::of(slots)?;
    Some(numbered(page_fault(&cycle, std::slice::from_ref(&page), 0)))
}

#[test]
fn why_a_page_is_not_sent_unchanged(rt: HostRuntime) -> Result<(), Fail> {
    for (at, byte, value, wanted) in &CHANGES {
        let slots = slots(rt.alloc(), *at, *byte, *value)?;
        assert!(rt; fault(slots) == Some(*wanted), "{at} {byte}");
    }
    Ok(())
}

#[test]
fn a_page_that_is_sent_unchanged_or_not_at_all(rt: HostRuntime) -> Result<(), Fail> {
    let twice = slots(rt.alloc(), 0, 0, 0x02)?;
    assert!(rt; fault(twice) == Some((0, 0)));
    let never = Vec::from_slice(rt.alloc(), &[[0; 42]; 3])?;
    assert!(rt; fault(never) == Some((2, 0)));
    Ok(())
}

// The gap of page 100 in these slots.
fn gap(slots: Vec<[u8; 42]>) -> Option<Option<usize>> {
    let id = PageId::new(1, 0, 0)?;
    let cycle = Cycle::of(slots)?;
    Some(gap_after(&cycle, id))
}

// The header that ends page 100 comes 27 slots after its own; sent twice, the second header is of its own number.
#[test]
fn the_gap_to_the_header_that_ends_a_page(rt: HostRuntime) -> Result<(), Fail> {
    let once = base::slots(rt.alloc())?;
    assert!(rt; gap(once) == Some(Some(27)));
    let twice = slots(rt.alloc(), 0, 0, 0x02)?;
    assert!(rt; gap(twice) == Some(None));
    Ok(())
}
