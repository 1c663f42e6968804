//! The slots of the packets of a spread plan, without the packets.
//!
//! It follows the rules of `plan_spread`, so that the waits of a plan are known before it is made. No promise rests on it, since the plan is
//! judged by its cycle: a mistake here would cost time, or raise other pages.

ghost use Rattle.std.specs.Prelude.{◌≤◌};

use std::alloc::{AllocError, Global};
use ttx_page::{Class, Item, Page, RowNumber, is_blank, needed};
use ttx_plan::Receivers;
use ttx_source::Service;

/// A page as a plan sends it.
#[derive(Clone, Copy)]
pub struct Outline {
    /// The queue of its magazine.
    pub queue: usize,
    /// The page number in its page header.
    pub page: u8,
    /// How many rows are sent.
    pub rows: u32,
    /// How many packets come after its page header.
    pub rest: u32,
}

/// A page that is sent once.
#[derive(Clone, Copy)]
pub struct Block {
    /// The index of the page.
    pub index: usize,
    pub outline: Outline,
    /// Whether a time-filling header goes before it.
    pub filler: bool,
}

/// The slots of a block.
#[derive(Clone, Copy)]
pub struct Stand {
    pub header: u32,
    /// Its last row, or its page header.
    pub row: u32,
    /// Its last packet.
    pub end: u32,
}

/// The slots of each block, and of a period.
#[derive(Drop)]
pub struct Layout {
    pub stands: Vec<Stand>,
    pub length: u32,
}

fn is_sent(class: Class, page: &Page, item: &Item) -> bool {
    match class {
        Class::Any => needed(page, *item),
        Class::Clearing => needed(page, *item) && !is_blank(page, *item),
    }
}

fn outline_of(class: Class, page: &Page) -> Outline {
    let id = page.id();
    let mut rows: u32 = 0;
    for number in 1..25u8 {
        if let Some(row) = RowNumber::new(number)
            && is_sent(class, page, &Item::Row(row))
        {
            rows = rows.wrapping_add(1);
        }
    }
    let links = u32::from(is_sent(class, page, &Item::Links));
    Outline {
        queue: usize::from(id.mag()).saturating_sub(1),
        page: id.page(),
        rows,
        rest: rows.wrapping_add(links),
    }
}

/// The pages of a service as they are sent to receivers of the class.
pub(crate) fn outlines(
    alloc: Global,
    service: &Service,
    class: Class,
) -> Result<Vec<Outline>, AllocError> {
    let mut outlines = Vec::new(alloc);
    for page in service.pages() {
        outlines.push(outline_of(class, page))?;
    }
    Ok(outlines)
}

// How many rounds there are from one that a page is sent in to the next.
fn rounds_between(often: u8) -> usize
    ensures { 1 ≤ result }
{
    match often {
        1 => 8,
        2 => 4,
        4 => 2,
        _ => 1,
    }
}

// The latest page number of each magazine.
#[derive(Clone, Copy)]
struct Latest {
    late: bool,
    pages: [u8; 8],
}

impl Latest {
    // Whether a time-filling header goes before a page.
    fn pass(&mut self, queue: usize, page: u8) -> bool {
        let queue = queue % 8;
        let again = self.pages[queue] == page;
        self.pages[queue] = page;
        self.late && again
    }
}

// Appends the block of a page, if the page is sent in this round.
fn push_block(
    blocks: &mut Vec<Block>,
    latest: &mut Latest,
    index: usize,
    outline: Outline,
    stands: bool,
) -> Result<(), AllocError> {
    if stands {
        let filler = latest.pass(outline.queue, outline.page);
        blocks.push(Block {
            index,
            outline,
            filler,
        })?;
    }
    Ok(())
}

fn place_at(places: &[usize], index: usize) -> usize {
    if index < places.len() {
        places[index]
    } else {
        0
    }
}

/// The blocks of a service in the order of sending, each page at its place among the rounds.
pub(crate) fn blocks(
    alloc: Global,
    service: &Service,
    receivers: Receivers,
    outlines: &[Outline],
    places: &[usize],
) -> Result<Vec<Block>, AllocError> {
    let mut blocks = Vec::new(alloc);
    let mut latest = Latest {
        late: receivers.late,
        pages: [255; 8],
    };
    let pages = service.pages().len();
    for round in 0..8 {
        for index in 0..pages {
            let stands = round % rounds_between(service.often(index)) == place_at(places, index);
            if index < outlines.len() {
                push_block(&mut blocks, &mut latest, index, outlines[index], stands)?;
            }
        }
    }
    Ok(blocks)
}

/// How many magazines have blocks.
pub(crate) fn used(blocks: &[Block]) -> u32 {
    let mut count: u32 = 0;
    for queue in 0..8 {
        if blocks.iter().any(|block| block.outline.queue == queue) {
            count = count.wrapping_add(1);
        }
    }
    count
}
