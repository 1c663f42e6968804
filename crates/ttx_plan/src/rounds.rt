//! The order of blocks, and the magazine queues made from them.

ghost use Rattle.std.specs.Prelude.{◌≡◌, ◌++◌, ◌<◌, ◌==◌, false, map, IfOk};
ghost use Rattle.std.specs.List.{list_any};
ghost use Rattle.ttx_plan.specs.Blocks.{page_packets, packets_of, queue_packets, queues_to, sent_blocks, time_filling_packet};
ghost use Rattle.ttx_plan.specs.Cursors.{lists_of};
ghost use Rattle.ttx_plan.specs.Seen.{seen, seen_sent};

use crate::block::PageBlock;
use crate::fillers::Fillers;
use crate::packet::{Kind, Packet};
use std::alloc::{AllocError, Global};
use ttx_header::time_fill;

/// A transmission of a block.
#[derive(Clone, Copy)]
pub struct SentBlock<'a> {
    /// Whether a time-filling header of its magazine is sent before it.
    pub filler: bool,
    pub block: &'a PageBlock,
}

/// The blocks in the order of sending, over eight rounds, each from the round of its place on. For receivers that show a page late, a
/// time-filling header is sent before each block with the same page number as the latest header of its magazine.
pub fn sent_blocks<'a>(
    alloc: Global,
    late: bool,
    blocks: &'a [PageBlock],
) -> Result<Vec<SentBlock<'a>>, AllocError>
    ensures { IfOk result (λ sent. map seen_sent sent.items ≡ sent_blocks late (map seen blocks.now)) }
{
    let mut sent = Vec::new(alloc);
    let mut fillers = Fillers::new(late);
    for round in 0..8 {
        for block in blocks {
            if round % (8 / block.often) == block.place {
                let filler = fillers.pass(block.queue, block.page);
                sent.push(SentBlock { filler, block })?;
            }
        }
    }
    Ok(sent)
}

/// Whether the queue's magazine has pages.
pub fn has_pages(sent: &[SentBlock], queue: usize) -> bool
    ensures { result ≡ list_any (λ b. b.block.now.queue == queue) sent.now }
{
    sent.iter().any(|block| block.block.queue == queue)
}

/// The time-filling header of a queue's magazine.
pub fn time_filling(queue: usize, serial: bool) -> Packet
    requires { queue < 8 }
    ensures { result ≡ time_filling_packet serial queue }
{
    Packet {
        kind: Kind::TimeFilling,
        bytes: time_fill(queue as u8 + 1, serial),
    }
}

// Appends the packets of a block's page.
fn push_page(packets: &mut Vec<Packet>, block: &PageBlock) -> Result<(), AllocError>
    ensures { IfOk result (λ _. packets.new.items ≡ packets.old.items ++ page_packets (seen block.now)) }
{
    packets.push(Packet {
        kind: Kind::PageHeader,
        bytes: block.header,
    })?;
    for bytes in &block.rest {
        packets.push(Packet {
            kind: Kind::RowOrLinks,
            bytes: *bytes,
        })?;
    }
    Ok(())
}

// Appends the packets of a block.
fn push_block(packets: &mut Vec<Packet>, sent: &SentBlock) -> Result<(), AllocError>
    ensures { IfOk result (λ _. packets.new.items ≡ packets.old.items ++ packets_of false (seen_sent sent.now)) }
{
    if sent.filler {
        packets.push(time_filling(sent.block.queue, false))?;
    }
    push_page(packets, sent.block)
}

// The packets of a queue.
fn queue_packets(alloc: Global, sent: &[SentBlock], queue: usize) -> Result<Vec<Packet>, AllocError>
    requires queue { queue < 8 }
    ensures { IfOk result (λ packets. packets.items ≡ queue_packets false (map seen_sent sent.now) queue) }
{
    let mut packets = Vec::new(alloc);
    for block in sent {
        if block.block.queue == queue {
            push_block(&mut packets, block)?;
        }
    }
    if has_pages(sent, queue) {
        packets.push(time_filling(queue, false))?;
    }
    Ok(packets)
}

/// The packets of the eight magazine queues. `Err` if memory runs out.
pub fn queues(alloc: Global, sent: &[SentBlock]) -> Result<Vec<Vec<Packet>>, AllocError>
    ensures { IfOk result (λ queues. lists_of queues.items ≡ queues_to (map seen_sent sent.now) 8) }
{
    let mut queues = Vec::new(alloc);
    for queue in 0..8 {
        queues.push(queue_packets(alloc, sent, queue)?)?;
    }
    Ok(queues)
}
