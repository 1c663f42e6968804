//! Which rows of a page a viewer sees, by worked examples.

use ttx_header::{Control, PageId};
use ttx_links::Links;
use ttx_page::{Item, Page, RowNumber, needed};

// Control bits, rows in double height, whether row 24 is shown, a row, and whether it is needed.
static NEEDED: [(u16, [usize; 2], bool, u8, bool); 8] = [
    (0x80, [22, 22], false, 22, true),
    (0x80, [22, 22], false, 23, false),
    (0x80, [23, 23], true, 24, true),
    (0x80, [23, 23], false, 24, false),
    (0x80, [5, 6], false, 6, false),
    (0x80, [5, 6], false, 7, true),
    (0x40, [24, 24], true, 1, false),
    (0x40, [24, 24], true, 24, false),
];

// Blank rows, except double height at the beginning of two.
fn rows(tall: [usize; 2]) -> [[u8; 40]; 24] {
    let mut rows = [[b' '; 40]; 24];
    for number in tall {
        if number >= 1 && number <= 24 {
            rows[number - 1][0] = 0x0d;
        }
    }
    rows
}

fn page(control: u16, tall: [usize; 2], show24: bool) -> Option<Page> {
    let links = Links::new([None; 6], show24, [0; 2]);
    match PageId::new(1, 0, 0) {
        Some(id) => Page::new(id, Control(control), [b' '; 24], rows(tall), links),
        None => None,
    }
}

// Control bits, in which C7 is 8 and C10 is 40, and whether the head is needed. The links always are.
static HEADS: [(u16, bool); 4] = [(0x80, true), (0x08, false), (0x40, true), (0x48, false)];

fn is_needed(page: &Page, number: u8) -> bool {
    match RowNumber::new(number) {
        Some(row) => needed(page, Item::Row(row)),
        None => false,
    }
}

#[test]
fn needed_rows(rt: HostRuntime) {
    for (control, tall, show24, number, wanted) in &NEEDED {
        let Some(page) = page(*control, *tall, *show24) else {
            panic!(rt; "there is no page");
        };
        assert!(rt; is_needed(&page, *number) == *wanted, "row {number}");
    }
}

#[test]
fn needed_head_and_links(rt: HostRuntime) {
    for (control, wanted) in &HEADS {
        let Some(page) = page(*control, [24, 24], false) else {
            panic!(rt; "there is no page");
        };
        assert!(rt; needed(&page, Item::Head) == *wanted, "{control}");
        assert!(rt; needed(&page, Item::Links), "{control}");
    }
}
