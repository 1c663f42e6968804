//! The memory of a page with one wrong character, or one wrong link.

ghost use Rattle.std.specs.Prelude.{◌≡◌, ◌<◌, slice_index, slice_set};
ghost use Rattle.ttx_page.specs.Pages.{IsRow};
ghost use Rattle.ttx_page.specs.Views.{page_of, memory_of};
ghost use Rattle.ttx_receiver.specs.Starving.{other_letter, other_link, other_six, with_letter, wrong_memory};
ghost use Rattle.ttx_counter.specs.StarvingRuns.{with_other_links};

use ttx_links::{Links, Target};
use ttx_page::{Item, Page, PageMemory};

// The letter A, or B if the character is A.
fn other_letter_of(c: u8) -> u8
    ensures value { result ≡ other_letter c }
    ensures low { result < 128 }
{
    if c == b'A' { b'B' } else { b'A' }
}

// The row with another letter at column `c`.
fn with_other_letter(row: &[u8; 40], c: usize) -> [u8; 40]
    requires column { c < 40 }
    requires row { IsRow row.now }
    ensures value { result ≡ slice_set row.now c (other_letter (slice_index row.now c)) }
    ensures row { IsRow result }
{
    let mut lettered = *row;
    lettered[c] = other_letter_of(row[c]);
    lettered
}

fn letter_at(memory: PageMemory, r: usize, c: usize) -> PageMemory
    requires row { r < 25 }
    requires column { c < 40 }
    ensures { memory_of result ≡ with_letter (memory_of memory) r c }
{
    let row = with_other_letter(&memory.rows()[r], c);
    memory.with_row(r, &row)
}

// No link where there was one; a link to page 00 of magazine 1 where there was none.
fn other_link_of(link: Option<Target>) -> Option<Target>
    ensures { result ≡ other_link link }
{
    match link {
        Some(_) => None,
        None => Target::new(1, 0, 0x3f7f),
    }
}

fn other_six_of(six: &[Option<Target>; 6]) -> [Option<Target>; 6]
    ensures { result ≡ other_six six.now }
{
    let mut links = [None; 6];
    links.copy_from_slice(six);
    links[0] = other_link_of(links[0]);
    links
}

fn read_links(memory: PageMemory, links: &Links) -> PageMemory
    ensures { memory_of result ≡ with_other_links (memory_of memory) links.now.set }
{
    let mut wrong = memory;
    let six = other_six_of(links.six());
    wrong.store_links(&Links::new(six, links.show24(), links.crc()));
    wrong
}

/// The memory of the page with the item's first character wrong, or with the first link wrong.
pub fn wrong_memory_of(page: &Page, item: &Item) -> PageMemory
    ensures { memory_of result ≡ wrong_memory (page_of page.now) item.now }
{
    let memory = PageMemory::of(page);
    match item {
        Item::Head => letter_at(memory, 0, 8),
        Item::Row(row) => letter_at(memory, usize::from(row.number()), 0),
        Item::Links => read_links(memory, page.links()),
    }
}
