//! The slots of the packets of a spread plan in parallel transmission: magazines take turns.

ghost use Rattle.std.specs.Prelude.{◌<◌, length, IfSome};

use crate::layout::{Block, Layout, Stand};
use crate::serial_layout::Frame;
use std::alloc::{AllocError, Global};

// What a magazine sends next.
#[derive(Clone, Copy)]
enum Next {
    // The time-filling header before a block.
    Filler,
    Header,
    // The packets after the page header.
    Rest,
    // The last time-filling header.
    Last,
    Nothing,
}

// How far a magazine has got.
#[derive(Clone, Copy)]
struct Queue {
    next: Next,
    // The number of its block.
    block: usize,
    // How many packets after the page header are sent.
    sent: u32,
    // The first slot in which such a packet may stand.
    free_at: u32,
}

// The number of the first block of a magazine, from one on.
fn block_of(blocks: &[Block], queue: usize, from: usize) -> Option<usize>
    ensures { IfSome result (λ number. number < length blocks.now) }
{
    for number in from..blocks.len() {
        if blocks[number].outline.queue == queue {
            return Some(number);
        }
    }
    None
}

// A magazine before its first block from one on; `otherwise` is what it sends if it has none.
fn queue_at(blocks: &[Block], queue: usize, from: usize, otherwise: Next) -> Queue {
    let (next, block) = match block_of(blocks, queue, from) {
        Some(block) if blocks[block].filler => (Next::Filler, block),
        Some(block) => (Next::Header, block),
        None => (otherwise, 0),
    };
    Queue {
        next,
        block,
        sent: 0,
        free_at: 0,
    }
}

impl Queue {
    fn is_ready(self, at: u32) -> bool {
        match self.next {
            Next::Nothing => false,
            Next::Rest => at >= self.free_at,
            _ => true,
        }
    }

    fn is_done(self) -> bool {
        match self.next {
            Next::Nothing => true,
            _ => false,
        }
    }

    // The magazine after its next packet.
    fn after(self, blocks: &[Block], queue: usize, lines: u32, at: u32) -> Queue {
        if self.block >= blocks.len() {
            return self;
        }
        let rest = blocks[self.block].outline.rest;
        let following = queue_at(blocks, queue, self.block.wrapping_add(1), Next::Last);
        match self.next {
            Next::Filler => Queue {
                next: Next::Header,
                ..self
            },
            Next::Header if rest == 0 => following,
            Next::Header => Queue {
                next: Next::Rest,
                free_at: at.wrapping_add(lines).wrapping_add(1),
                ..self
            },
            Next::Rest if self.sent.wrapping_add(1) >= rest => following,
            Next::Rest => Queue {
                sent: self.sent.wrapping_add(1),
                ..self
            },
            _ => Queue {
                next: Next::Nothing,
                ..self
            },
        }
    }

    // Notes the slot of its next packet.
    fn note(self, blocks: &[Block], stands: &mut [Stand], at: u32) {
        if self.block >= stands.len() || self.block >= blocks.len() {
            return;
        }
        match self.next {
            Next::Header => {
                stands[self.block] = Stand {
                    header: at,
                    row: at,
                    end: at,
                };
            }
            Next::Rest => {
                if self.sent < blocks[self.block].outline.rows {
                    stands[self.block].row = at;
                }
                stands[self.block].end = at;
            }
            _ => {}
        }
    }
}

// The magazine whose turn it is: the first that is ready, rising from one on.
fn turn(queues: &[Queue], from: usize, at: u32) -> Option<usize>
    ensures { IfSome result (λ queue. queue < length queues.now) }
{
    for step in 0..8usize {
        let queue = from.wrapping_add(step) % 8;
        if queue < queues.len() && queues[queue].is_ready(at) {
            return Some(queue);
        }
    }
    None
}

fn queues(alloc: Global, blocks: &[Block]) -> Result<Vec<Queue>, AllocError> {
    let mut queues = Vec::new(alloc);
    for queue in 0..8 {
        queues.push(queue_at(blocks, queue, 0, Next::Nothing))?;
    }
    Ok(queues)
}

fn no_stands(alloc: Global, count: usize) -> Result<Vec<Stand>, AllocError> {
    let mut stands = Vec::new(alloc);
    for _ in 0..count {
        stands.push(Stand {
            header: 0,
            row: 0,
            end: 0,
        })?;
    }
    Ok(stands)
}

// Whether a slot has packet 8/30.
fn is_info(frame: Frame, at: u32) -> bool {
    frame.info && at % frame.every() == 0
}

/// The slots of blocks in parallel transmission.
pub(crate) fn parallel_layout(
    alloc: Global,
    blocks: &[Block],
    frame: Frame,
) -> Result<Layout, AllocError> {
    let mut queues = queues(alloc, blocks)?;
    let mut stands = no_stands(alloc, blocks.len())?;
    let mut from = 0;
    let mut length = 0;
    for at in 0..65536u32 {
        if queues.iter().all(|queue| queue.is_done()) {
            break;
        }
        if !is_info(frame, at)
            && let Some(queue) = turn(&queues, from, at)
        {
            queues[queue].note(blocks, &mut stands, at);
            queues[queue] = queues[queue].after(blocks, queue, frame.lines, at);
            from = queue.wrapping_add(1);
        }
        length = at.wrapping_add(1);
    }
    Ok(Layout {
        stands,
        length: frame.filled(length),
    })
}
