//! A row that is sent less than a field after its header, which a receiver may miss.

use crate::base;
use crate::lost_rows::{marked, page_100};
use std::alloc::{AllocError, Global};
use std::test::Fail;
use ttx_certify::receive;
use ttx_receiver::{Careful, Eager, Receiver, Scripted};
use ttx_render::{cell_word, render};

const SPACE: u32 = 0x20;

const AN_X: u32 = 0x58;

// The worked cycle twice, with row 1 in slot 2 and slot 3 empty.
fn slots(alloc: Global) -> Result<Vec<[u8; 42]>, AllocError> {
    let mut slots = base::slots(alloc)?;
    if slots.len() == 28 {
        slots.swap(2, 3);
    }
    let again = Vec::from_slice(alloc, slots.as_slice())?;
    slots.extend_from_slice(again.as_slice())?;
    Ok(slots)
}

// The character in column 0 of row 1 after these slots.
fn first_of_row_1<R: Receiver + Drop>(mut receiver: R, slots: &[[u8; 42]]) -> u32 {
    receive(&mut receiver, slots);
    cell_word(&render(receiver.memory()).cells[1][0]) & 0x7f
}

// An eager receiver takes the row, a careful one misses it each time. A choice of true misses it, so in one of the two cycles it has to be false.
#[test]
fn a_row_too_early_for_some(rt: HostRuntime) -> Result<(), Fail> {
    let slots = slots(rt.alloc())?;
    let slots = slots.as_slice();
    assert!(rt; first_of_row_1(Eager::new(page_100(), 2, marked()), slots) == SPACE);
    assert!(rt; first_of_row_1(Careful::new(page_100(), 2, marked()), slots) == AN_X);
    assert!(rt; first_of_row_1(Scripted::new(page_100(), 2, marked(), &[true]), slots) == SPACE);
    assert!(rt;
        first_of_row_1(Scripted::new(page_100(), 2, marked(), &[true, true]), slots) == AN_X
    );
    Ok(())
}
