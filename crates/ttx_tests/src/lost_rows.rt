//! Rows that arrive torn and headers that are lost: what the program's receivers show of page 100 afterwards.

use crate::base::{self, HEADER, beginning, row};
use std::alloc::{AllocError, Global};
use std::test::Fail;
use ttx_certify::receive;
use ttx_header::Control;
use ttx_page::{PageMemory, Selection};
use ttx_receiver::{Careful, Cleared, Receiver, Scripted};
use ttx_render::{cell_word, render};

// The first bytes of the header of page 101.
static HEADER_101: [u8; 10] = [0x02, 0x15, 0x02, 0x15, 0x15, 0x15, 0x15, 0x15, 0x15, 0x02];

const SPACE: u32 = 0x20;

const AN_A: u32 = 0x41;

const AN_X: u32 = 0x58;

// Spaces, except for an X in column 0 of row 1, of a page that is not fresh.
pub(crate) fn marked() -> PageMemory {
    let mut rows = [[0x20; 40]; 25];
    rows[1][0] = 0x58;
    let memory = PageMemory::new(rows, Control(0), [None; 6], false, false, 64, false);
    memory.unwrap_or(PageMemory::blank())
}

#[test]
fn receivers_begin_with_an_x(rt: HostRuntime) {
    let memory = marked();
    assert!(rt; memory.rows()[1][0] == 0x58);
    assert!(rt; !memory.fresh());
}

// The characters in columns 0 and 1 of row 1 once these slots are received.
fn shown<R: Receiver + Drop>(mut receiver: R, slots: &[[u8; 42]]) -> [u32; 2] {
    receive(&mut receiver, slots);
    let view = render(receiver.memory());
    let row = &view.cells[1];
    [cell_word(&row[0]) & 0x7f, cell_word(&row[1]) & 0x7f]
}

// Page 100 with any subcode.
pub(crate) fn page_100() -> Selection {
    Selection::AnySub(1, 0)
}

// Whether each kind of receiver that takes row 1 at once shows these characters.
fn is_shown_by_all(slots: &[[u8; 42]], wanted: [u32; 2]) -> bool {
    shown(Scripted::new(page_100(), 2, marked(), &[]), slots) == wanted
        && shown(Careful::new(page_100(), 2, marked()), slots) == wanted
}

// The worked cycle, row 1 with a byte of even parity in one place.
fn torn(alloc: Global, at: usize) -> Result<Vec<[u8; 42]>, AllocError> {
    let mut slots = base::slots(alloc)?;
    if at < 42
        && let Some(slot) = slots.get_mut(3)
    {
        slot[at] = 0x21;
    }
    Ok(slots)
}

// In which byte row 1 is torn in the first and in the second cycle, and what is shown after both: a character is stored if it came right
// once, and the former one stays if it never did.
static TORN: [(usize, usize, [u32; 2]); 4] = [
    (2, 3, [SPACE, SPACE]),
    (3, 2, [SPACE, SPACE]),
    (2, 2, [AN_X, SPACE]),
    (41, 41, [SPACE, SPACE]),
];

#[test]
fn rows_that_arrive_torn(rt: HostRuntime) -> Result<(), Fail> {
    for (first, second, wanted) in &TORN {
        let mut slots = torn(rt.alloc(), *first)?;
        let again = torn(rt.alloc(), *second)?;
        slots.extend_from_slice(again.as_slice())?;
        assert!(rt;
            is_shown_by_all(slots.as_slice(), *wanted),
            "{first} {second}"
        );
    }
    Ok(())
}

// Row 1 of the letter A.
fn letters() -> [u8; 42] {
    let mut slot = [0xc1; 42];
    let address = row(1);
    slot[0] = address[0];
    slot[1] = address[1];
    slot
}

// Page 100, another slot, and a row 1 of letters after it: it is the other page's if the slot is its header, and if that is lost, it is
// taken for the page's own.
fn after_second(second: [u8; 42]) -> [[u8; 42]; 8] {
    let empty = [0; 42];
    [
        beginning(&HEADER),
        empty,
        empty,
        row(1),
        second,
        empty,
        empty,
        letters(),
    ]
}

// Page 100, whose blank row 1 is not sent, another slot with a row 1 of letters after it, and page 100 twice more.
fn left_out(second: [u8; 42]) -> [[u8; 42]; 10] {
    let empty = [0; 42];
    let header = beginning(&HEADER);
    [
        header,
        second,
        empty,
        empty,
        letters(),
        header,
        empty,
        empty,
        row(2),
        header,
    ]
}

#[test]
fn a_lost_header_leaves_the_row_of_another_page(rt: HostRuntime) {
    let header = beginning(&HEADER_101);
    assert!(rt; is_shown_by_all(&after_second(header), [SPACE, SPACE]));
    assert!(rt; is_shown_by_all(&after_second([0; 42]), [AN_A, AN_A]));
}

// A receiver that surely clears does so only at its first header, so the letters stay.
#[test]
fn a_receiver_that_clears_keeps_the_row(rt: HostRuntime) {
    let header = beginning(&HEADER_101);
    let with = Cleared::new(page_100(), 2, PageMemory::blank());
    assert!(rt; shown(with, &left_out(header)) == [SPACE, SPACE]);
    let without = Cleared::new(page_100(), 2, PageMemory::blank());
    assert!(rt; shown(without, &left_out([0; 42])) == [AN_A, AN_A]);
}
