//! The blocks of pages.

ghost use Rattle.std.specs.Prelude.{◌≡◌, ◌+◌, ◌<◌, ◌≤◌, length, IfOk};
ghost use Rattle.ttx_page.specs.Views.{page_of};
ghost use Rattle.ttx_plan.specs.Contents.{block_of, rest_of};
ghost use Rattle.ttx_plan.specs.Ranges.{IsOften};

use crate::contents::{are_links_sent_to, header_packet, is_row_sent_to, links_packet, row_packet};
use std::alloc::{AllocError, Global};
use ttx_page::{Class, Page};

/// A page's block.
#[derive(Drop)]
pub struct PageBlock {
    /// The queue of the page's magazine, 0 to 7.
    pub queue: usize,
    /// In how many of the eight rounds the block is sent.
    pub often: usize,
    /// The first of these rounds, counted from 0.
    pub place: usize,
    /// The page number in its page header.
    pub page: u8,
    /// The page header.
    pub header: [u8; 42],
    /// The rows that are sent, from the lowest number, and X/27/0 if it is sent.
    pub rest: Vec<[u8; 42]>,
    ghost queue_to: { queue < 8 },
    ghost often_is: { IsOften often },
    ghost few: { length rest.items ≤ 25 },
}

/// How many packets the block of a page has for receivers of the class.
pub fn block_length(class: Class, page: &Page) -> usize
    ensures length { result ≡ length (rest_of class (page_of page.now)) + 1 }
    ensures few { result ≤ 26 }
{
    let mut count = 1;
    for above in 0..24 {
        if is_row_sent_to(class, page, above + 1) {
            count += 1;
        }
    }
    count + usize::from(are_links_sent_to(class, page))
}

// The rows that are sent to receivers of the class, from the lowest number, and X/27/0 if it is sent.
fn rest_packets(alloc: Global, class: Class, page: &Page) -> Result<Vec<[u8; 42]>, AllocError>
    ensures rest { IfOk result (λ rest. rest.items ≡ rest_of class (page_of page.now)) }
    ensures few { IfOk result (λ rest. length rest.items ≤ 25) }
{
    let mut rest = Vec::new(alloc);
    for above in 0..24 {
        if is_row_sent_to(class, page, above + 1) {
            rest.push(row_packet(page, above + 1))?;
        }
    }
    if are_links_sent_to(class, page) {
        rest.push(links_packet(page))?;
    }
    Ok(rest)
}

impl PageBlock {
    ghost use Rattle.ttx_plan.specs.Blocks.{at_place};
    ghost use Rattle.ttx_plan.specs.Seen.{seen};

    /// The block of a page that is sent `often` times, from round `place` on, to receivers of the class.
    pub fn new(
        alloc: Global,
        class: Class,
        page: &Page,
        often: u8,
        place: usize,
    ) -> Result<PageBlock, AllocError>
        requires { IsOften often }
        ensures { IfOk result (λ block. seen block ≡ at_place place (block_of class (page_of page.now) often)) }
    {
        Ok(PageBlock {
            queue: usize::from(page.id().mag()) - 1,
            often: usize::from(often),
            place,
            page: page.id().page(),
            header: header_packet(page),
            rest: rest_packets(alloc, class, page)?,
        })
    }
}
