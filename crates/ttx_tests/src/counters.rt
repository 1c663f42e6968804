//! Counter-runs with characters that are received wrong: receptions that end in a wrong View, and the same with one thing changed.
//! Those in which a row is missed are cases of `replay`.

use crate::base;
use crate::seen::page;
use std::alloc::{AllocError, Global};
use std::test::Fail;
use ttx_counter::{Counter, Hit, check_counter};
use ttx_cycle::Cycle;
use ttx_header::Control;
use ttx_page::PageMemory;

// The slots of the run, of how many transmissions one is right, and the two slots in which a character is hit (or one slot, given twice);
// whether it is a counter-run.
static RUNS: [(u32, u8, [u32; 2], bool); 4] = [
    (80, 2, [52, 52], true),
    // and if it was hit before, neither of the two is right
    (80, 2, [52, 24], false),
    // one slot later it has come again
    (81, 2, [52, 52], false),
    // if each transmission has to be right, none may be hit
    (80, 1, [52, 52], false),
];

// A memory of spaces, except an X at the beginning of row 23.
fn an_x_in_row_23() -> Option<PageMemory> {
    let mut rows = [[0x20; 40]; 25];
    rows[23][0] = 0x58;
    PageMemory::new(rows, Control(0), [None; 6], false, false, 64, true)
}

// The first character of row 23 is received wrong in these slots, or in the one that is given twice.
fn hits(alloc: Global, places: [u32; 2]) -> Result<Vec<Hit>, AllocError> {
    let mut hits = Vec::new(alloc);
    for index in places {
        if hits.is_empty() || index != places[0] {
            hits.push(Hit {
                index,
                byte: 2,
                bit: 1,
            })?;
        }
    }
    Ok(hits)
}

// A run of page 100 from slot 1 on, from this memory and without choices.
fn run(alloc: Global, former: PageMemory, slots: u32, repeat: u8, hits: Vec<Hit>) -> Counter {
    Counter {
        page: 0,
        any_sub: false,
        start: 1,
        slots,
        former,
        choices: Vec::new(alloc),
        hits,
        lines: 2,
        repeat,
        deadline: 40,
    }
}

// Whether it is a counter-run of these slots.
fn is_counter_run(alloc: Global, slots: Vec<[u8; 42]>, counter: &Counter) -> bool {
    let (Some(page), Some(cycle)) = (page(0x20), Cycle::of(slots)) else {
        return false;
    };
    let pages = std::slice::from_ref(&page);
    matches!(check_counter(alloc, &cycle, pages, counter), Ok(true))
}

#[test]
fn a_character_that_is_hit_once(rt: HostRuntime) -> Result<(), Fail> {
    for (slots, repeat, places, wanted) in &RUNS {
        let Some(former) = an_x_in_row_23() else {
            panic!(rt; "there is no memory");
        };
        let run = run(
            rt.alloc(),
            former,
            *slots,
            *repeat,
            hits(rt.alloc(), *places)?,
        );
        let is_run = is_counter_run(rt.alloc(), base::slots(rt.alloc())?, &run);
        assert!(rt; is_run == *wanted, "{slots} {repeat}");
    }
    Ok(())
}
