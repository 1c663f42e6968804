//! What is certified is seen: worked cycles, received from each tuning slot by each kind of receiver, out of bad memories and
//! with errors within the error rule. tests/spliced.py has spliced ones.

use crate::base::{self, beginning};
use std::alloc::Global;
use std::test::Fail;
use ttx_certify::{Verdict, certify};
use ttx_cycle::Cycle;
use ttx_header::{Control, PageId};
use ttx_links::Links;
use ttx_packet::{Slot, slot_of};
use ttx_page::{Page, PageMemory, Selection};
use ttx_receiver::{Careful, Eager, Receiver, Scripted, Watched};
use ttx_render::{render, same_but_clock};
use ttx_witness::find;

// Two slots of the worked cycle, each with the bytes that it begins with instead, by how many slots it is turned then, how row 5 of the
// page begins, whether one of two transmissions is right or each, and the least deadline. There is no slot 28, so nothing is changed there.
#[rattlefmt::skip]
static CYCLES: [(usize, [u8; 10], usize, [u8; 10], usize, u8, bool, u32); 7] = [
    (28, [0; 10], 28, [0; 10], 0, 0x20, false, 27),
    (28, [0; 10], 28, [0; 10], 10, 0x20, false, 27),
    (28, [0; 10], 28, [0; 10], 0, 0x20, true, 41),
    // in parallel transmission a header of another magazine doesn't end the page
    (1, [0x49, 0x15, 0x15, 0x15, 0x15, 0x15, 0x15, 0x15, 0x15, 0x15], 28, [0; 10], 0, 0x20, false, 27),
    // a packet 8/30 right after the page header
    (1, [0x15, 0xea, 0x15, 0x20, 0x20, 0x20, 0x20, 0x20, 0x20, 0x20], 28, [0; 10], 0, 0x20, false, 27),
    // row 5 is in double height, so that row 6 isn't needed: it isn't sent, or packet 26 instead of it
    (7, [0xc7, 0x49, 0x0d, 0x20, 0x20, 0x20, 0x20, 0x20, 0x20, 0x20], 8, [0; 10], 0, 0x0d, false, 27),
    (7, [0xc7, 0x49, 0x0d, 0x20, 0x20, 0x20, 0x20, 0x20, 0x20, 0x20],
        8, [0x02, 0xb6, 0x15, 0x20, 0x20, 0x20, 0x20, 0x20, 0x20, 0x20], 0, 0x0d, false, 27),
];

// A page of a cycle, and how it is received: after how many slots it is to be seen, and whether one of two successive transmissions
// of an item is right or each.
#[derive(Drop)]
struct Sent {
    page: Page,
    cycle: Cycle,
    is_half_right: bool,
    slots: u32,
}

// Page 100 with C11; its row 5 begins with a character.
pub(crate) fn page(first_of_row_5: u8) -> Option<Page> {
    let mut rows = [[0x20; 40]; 24];
    rows[4][0] = first_of_row_5;
    let links = Links::new([None; 6], false, [0, 0]);
    match PageId::new(1, 0, 0) {
        Some(id) => Page::new(id, Control::C11, [0x20; 24], rows, links),
        None => None,
    }
}

// Makes a slot begin with other bytes, or makes it empty if they are zero, if there is such a slot.
fn edit(slots: &mut Vec<[u8; 42]>, at: usize, first: &[u8; 10]) {
    if let Some(slot) = slots.get_mut(at) {
        *slot = if *first == [0; 10] {
            [0; 42]
        } else {
            beginning(first)
        };
    }
}

// Whether what is found for the page has this deadline and is certified.
fn is_certified(
    alloc: Global,
    cycle: &Cycle,
    page: &Page,
    is_half_right: bool,
    fields: u32,
) -> bool {
    let pages = std::slice::from_ref(page);
    let found = match is_half_right {
        true => find(alloc, cycle, pages, 2, 2),
        false => find(alloc, cycle, pages, 1, 2),
    };
    match found {
        Ok(found) => {
            found.deadline == Some(fields)
                && matches!(
                    certify(alloc, cycle, pages, &found.certificate),
                    Ok(Verdict::Yes)
                )
        }
        Err(_) => false,
    }
}

// From which byte of a slot on and before which other one there is text, of which one in so many successive transmissions is received
// right.
fn text_in(slot: &[u8; 42]) -> (usize, usize) {
    match slot_of(slot) {
        Slot::Header(_, _) => (10, 34),
        Slot::Row(_, _) => (2, 42),
        _ => (42, 42),
    }
}

// One wrong bit in each byte, except text that has to be right; the same byte all over a clock and behind the address of a
// packet 8/30.
fn with_errors(sent: &[u8; 42], text_is_right: bool, wild: u8) -> [u8; 42] {
    let mut bytes = *sent;
    if *sent == [0; 42] {
        return bytes;
    }
    let (begin, end) = text_in(sent);
    for at in 0..42usize {
        if !text_is_right || at < begin || at >= end {
            bytes[at] = bytes[at] ^ 1u8 << (at % 8);
        }
    }
    match slot_of(sent) {
        Slot::Header(_, _) => bytes[34..].fill(wild),
        Slot::Info(_, _) => bytes[2..].fill(wild),
        _ => {}
    }
    bytes
}

// What is received of slot `at` of the stream. If one of two transmissions is right, it is that of every other period. Clocks and
// packets 8/30 are other bytes each time, of right and of wrong parity.
fn received(sent: &Sent, at: u32) -> [u8; 42] {
    let slots = sent.cycle.slots();
    let place = at as usize;
    with_errors(
        &slots[place % slots.len()],
        !sent.is_half_right || place / slots.len() % 2 == 0,
        (at % 251) as u8,
    )
}

// Whether the receiver, tuned at this slot, shows the page in time, and after each of the next 28 slots.
fn is_seen<R: Receiver + Drop>(receiver: R, sent: &Sent, tuning: u16) -> bool {
    let wanted = render(&PageMemory::of(&sent.page));
    let mut watched = Watched::new(receiver);
    let mut is_shown = true;
    for i in 0..sent.slots.saturating_add(28) {
        if i >= sent.slots {
            is_shown = is_shown && same_but_clock(watched.view(), &wanted);
        }
        watched.step(Some(&received(sent, i.saturating_add(u32::from(tuning)))));
    }
    is_shown && same_but_clock(watched.view(), &wanted)
}

// A memory full of 7F.
fn former(storing: bool, age: u8, fresh: bool) -> Option<PageMemory> {
    let rows = [[0x7f; 40]; 25];
    PageMemory::new(rows, Control::C7, [None; 6], true, storing, age, fresh)
}

fn by_eager(sent: &Sent, tuning: u16, storing: bool) -> bool {
    let Some(memory) = former(storing, 0, false) else {
        return false;
    };
    is_seen(Eager::new(Selection::AnySub(1, 0), 2, memory), sent, tuning)
}

fn by_careful(sent: &Sent, tuning: u16, storing: bool) -> bool {
    let Some(memory) = former(storing, 2, true) else {
        return false;
    };
    let own = Selection::Exact(sent.page.id());
    is_seen(Careful::new(own, 2, memory), sent, tuning)
}

fn by_scripted(sent: &Sent, tuning: u16, storing: bool) -> bool {
    let Some(memory) = former(storing, 64, true) else {
        return false;
    };
    let script = [false, true, true, false, true];
    is_seen(
        Scripted::new(Selection::AnySub(1, 0), 2, memory, &script),
        sent,
        tuning,
    )
}

// Whether each kind of receiver shows the page, from a memory that is storing or not.
fn are_served(sent: &Sent, tuning: u16, storing: bool) -> bool {
    by_eager(sent, tuning, storing)
        && by_careful(sent, tuning, storing)
        && by_scripted(sent, tuning, storing)
}

fn is_seen_by_all(sent: &Sent) -> bool {
    for tuning in 0..28u16 {
        if !are_served(sent, tuning, false) || !are_served(sent, tuning, true) {
            return false;
        }
    }
    true
}

#[test]
fn what_is_certified_is_seen(rt: HostRuntime) -> Result<(), Fail> {
    for (
        one,
        first_of_one,
        other,
        first_of_other,
        turned,
        first_of_row_5,
        is_half_right,
        fields,
    ) in &CYCLES {
        let mut slots = base::slots(rt.alloc())?;
        edit(&mut slots, *one, first_of_one);
        edit(&mut slots, *other, first_of_other);
        if *turned < slots.len() {
            slots.rotate_left(*turned);
        }
        let (Some(page), Some(cycle)) = (page(*first_of_row_5), Cycle::of(slots)) else {
            panic!(rt; "there is no page or cycle");
        };
        assert!(rt;
            is_certified(rt.alloc(), &cycle, &page, *is_half_right, *fields),
            "{one}"
        );
        let sent = Sent {
            page,
            cycle,
            is_half_right: *is_half_right,
            slots: fields.saturating_mul(2),
        };
        assert!(rt; is_seen_by_all(&sent), "{one}");
    }
    Ok(())
}
