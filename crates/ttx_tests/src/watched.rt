//! Receivers that are watched: their Views after each slot.

ghost use Rattle.std.specs.Prelude.{◌<◌, ◌≤◌};

use crate::base::{HEADER, beginning, row};
use ttx_header::{Control, Header, PageId, write_header};
use ttx_links::{Links, Target, write_links};
use ttx_page::{PageMemory, Selection};
use ttx_receiver::{Careful, Cleared, Eager, Receiver, Scripted, Watched};
use ttx_render::{View, cell_word, render};

fn page_100() -> Selection {
    match PageId::new(1, 0, 0) {
        Some(id) => Selection::Exact(id),
        None => Selection::AnySub(1, 0),
    }
}

// A memory of spaces, except an X at the beginning of row 1.
fn holding_an_x(fresh: bool) -> PageMemory {
    let mut rows = [[0x20; 40]; 25];
    rows[1][0] = 0x58;
    let memory = PageMemory::new(rows, Control(0), [None; 6], false, false, 64, fresh);
    memory.unwrap_or(PageMemory::blank())
}

// Whether a memory has the X, and whether no header has come yet.
fn holds_an_x(memory: &PageMemory, fresh: bool) -> bool {
    let rows = memory.rows();
    rows[1][0] == 0x58 && rows[1][1] == 0x20 && memory.fresh() == fresh
}

#[test]
fn receivers_begin_as_is_said(rt: HostRuntime) {
    assert!(rt; matches!(page_100(), Selection::Exact(_)));
    assert!(rt; holds_an_x(&holding_an_x(true), true));
    assert!(rt; holds_an_x(&holding_an_x(false), false));
}

// A row that begins with this byte, and then spaces.
fn row_of(number: u8, first: u8) -> [u8; 42]
    requires { number < 32 }
{
    let mut slot = row(number);
    slot[2] = first;
    slot
}

// The words of columns 0 to 2 of a row.
fn words(view: &View, number: usize) -> [u32; 3]
    requires { number < 25 }
{
    let cells = &view.cells[number];
    [
        cell_word(&cells[0]),
        cell_word(&cells[1]),
        cell_word(&cells[2]),
    ]
}

// The words of columns 0 to 2 of a row of an A and spaces, of one that begins double height, and of one below such a row.
const AN_A: [u32; 3] = [0x00e00041, 0x00e00020, 0x00e00020];

const TALL: [u32; 3] = [0x00e00020, 0x40e00020, 0x40e00020];

const HIDDEN: [u32; 3] = [0x00e00020, 0x80e00020, 0x80e00020];

// 0D is sent as itself, an A as C1: row 5 becomes double height above the A of row 6, then row 4 above both.
#[test]
fn a_row_of_double_height_changes_the_next_one(rt: HostRuntime) {
    let mut watched = Watched::new(Eager::new(page_100(), 2, PageMemory::blank()));
    watched.step(Some(&beginning(&HEADER)));
    watched.step(Some(&row_of(6, 0xc1)));
    assert!(rt; words(watched.view(), 6) == AN_A);
    watched.step(Some(&row_of(5, 0x0d)));
    assert!(rt; words(watched.view(), 5) == TALL);
    assert!(rt; words(watched.view(), 6) == HIDDEN);
    watched.step(Some(&row_of(4, 0x0d)));
    assert!(rt; words(watched.view(), 5) == HIDDEN);
    assert!(rt; words(watched.view(), 6) == AN_A);
}

// Numbers by a linear congruence.
#[derive(Drop)]
struct Random(u64);

impl Random {
    fn next(&mut self) -> u64 {
        self.0 = self
            .0
            .wrapping_mul(6364136223846793005)
            .wrapping_add(1442695040888963407);
        self.0 >> 33
    }

    fn byte(&mut self) -> u8 {
        (self.next() % 256) as u8
    }
}

// A header of the page, of another page of the magazine, or of another magazine.
fn any_header(random: &mut Random) -> [u8; 42] {
    let (mag, page) = match random.next() % 5 {
        0 => (1, 5),
        1 => (2, 0),
        _ => (1, 0),
    };
    let control = Control((random.next() % 2048) as u16);
    let clock = [random.byte(); 8];
    match PageId::new(mag, page, 0) {
        Some(id) => match Header::new(id, control, [random.byte() % 128; 24], clock) {
            Some(header) => write_header(&header),
            None => [0; 42],
        },
        None => [0; 42],
    }
}

fn any_links(random: &mut Random) -> [u8; 42] {
    let link = Target::new(1, random.byte() / 2, 0);
    let six = [link, None, None, None, None, None];
    write_links(1, &Links::new(six, random.next() % 2 == 0, [0, 0]))
}

// A row of magazine 1, with double height here and there, and bytes of right and wrong parity.
fn any_row(random: &mut Random) -> [u8; 42] {
    let number = (random.next() % 24) as u8 + 1;
    let mut slot = row(number);
    for at in 2..42usize {
        slot[at] = random.byte();
    }
    if random.next() % 3 == 0 {
        slot[2] = 0x0d;
    }
    slot
}

fn any_slot(random: &mut Random) -> [u8; 42] {
    match random.next() % 16 {
        0 | 1 => any_header(random),
        2 => any_links(random),
        3 => [0; 42],
        4 => [random.byte(); 42],
        _ => any_row(random),
    }
}

fn are_same(a: &View, b: &View) -> bool {
    for number in 0..25usize {
        for column in 0..40usize {
            if a.cells[number][column] != b.cells[number][column] {
                return false;
            }
        }
    }
    for i in 0..6usize {
        if a.links[i] != b.links[i] {
            return false;
        }
    }
    true
}

// Whether the View is what `render` gives in the course of 1,000 slots, after one in so many.
fn follows<R: Receiver + Drop>(receiver: R, every: u32) -> bool
    requires { 0 < every }
{
    let mut watched = Watched::new(receiver);
    let mut random = Random(1);
    for i in 0..1000u32 {
        watched.step(Some(&any_slot(&mut random)));
        if i % every == 0 {
            let fresh = render(watched.memory());
            if !are_same(watched.view(), &fresh) {
                return false;
            }
        }
    }
    true
}

#[test]
fn views_follow_1000_slots(rt: HostRuntime) {
    let eager = Eager::new(page_100(), 2, holding_an_x(true));
    assert!(rt; follows(eager, 1));
    let careful = Careful::new(page_100(), 2, holding_an_x(false));
    assert!(rt; follows(careful, 1));
    let cleared = Cleared::new(page_100(), 2, holding_an_x(true));
    assert!(rt; follows(cleared, 1));
    let scripted = Scripted::new(page_100(), 2, holding_an_x(true), &[true, false, true]);
    assert!(rt; follows(scripted, 1));
}

#[test]
fn views_follow_slots_that_are_not_looked_at(rt: HostRuntime) {
    let eager = Eager::new(Selection::AnySub(1, 0), 2, holding_an_x(true));
    assert!(rt; follows(eager, 3));
    let careful = Careful::new(Selection::AnySub(1, 0), 2, holding_an_x(false));
    assert!(rt; follows(careful, 3));
}
