//! Plans that send pages in a given order.

ghost use Rattle.std.specs.Prelude.{◌≡◌, ℕ, ◌+◌, ◌*◌, ◌≢◌, ◌↔◌, ◌<◌, ◌≤◌, [], length, map, slice_index, slice_get, Some, IfOk};
ghost use Rattle.ttx_cycle.specs.Cycles.{slots_of};
ghost use Rattle.ttx_plan.specs.Blocks.{length_bound, packets_in, used_queues, with_fillers};
ghost use Rattle.ttx_plan.specs.Order.{picked, sent_in_order, IsInOrder, IsPlanInOrder};
ghost use Rattle.ttx_plan.specs.Seen.{seen, seen_sent};

use crate::asked::Receivers;
use crate::block::PageBlock;
use crate::cycle::cycle_slots;
use crate::faults::PlanFault;
use crate::fillers::Fillers;
use crate::rounds::{SentBlock, has_pages};
use crate::service_plan::{blocks_of, info_packet};
use std::alloc::{AllocError, Global};
use ttx_cycle::Cycle;
use ttx_source::Service;

// The blocks in this order. Between two headers of a magazine with the same page number comes a time-filling header, if pages may be
// shown late.
fn sent_in_order<'a>(
    alloc: Global,
    late: bool,
    blocks: &'a [PageBlock],
    order: &[usize],
) -> Result<Vec<SentBlock<'a>>, AllocError>
    requires { (k : ℕ) → k < length order.now → slice_index order.now k < length blocks.now }
    ensures sent { IfOk result (λ sent. map seen_sent sent.items ≡ with_fillers late [] (picked (map seen blocks.now) order.now)) }
    ensures count { IfOk result (λ sent. length sent.items ≡ length order.now) }
{
    let mut sent = Vec::new(alloc);
    let mut fillers = Fillers::new(late);
    for index in order {
        let block = &blocks[*index];
        let filler = fillers.pass(block.queue, block.page);
        sent.push(SentBlock { filler, block })?;
    }
    Ok(sent)
}

// The packets of blocks.
fn count_packets(sent: &[SentBlock]) -> usize
    requires { length sent.now ≤ 65536 }
    ensures packets { result ≡ packets_in (map seen_sent sent.now) }
    ensures few { result ≤ 27 * 65536 }
{
    let mut packets: usize = 0;
    for block in sent {
        packets += usize::from(block.filler) + (block.block.rest.len() + 1);
    }
    packets
}

// How many magazines have blocks.
fn count_used(sent: &[SentBlock]) -> usize
    ensures count { result ≡ length (used_queues (map seen_sent sent.now)) }
    ensures few { result ≤ 8 }
{
    let mut count: usize = 0;
    for queue in 0..8 {
        count += usize::from(has_pages(sent, queue));
    }
    count
}

// The bound on the length of a cycle of these blocks.
fn bound(lines: usize, sent: &[SentBlock]) -> usize
    requires lines { lines ≤ 32 }
    requires few { length sent.now ≤ 65536 }
    ensures { result ≡ length_bound lines (map seen_sent sent.now) }
{
    2 * (count_packets(sent) + sent.len() * lines + count_used(sent)) + 2 * lines
}

// The cycle of blocks in an order, unless it might be too long.
fn cycle_in_order(
    alloc: Global,
    service: &Service,
    sent: &[SentBlock],
) -> Result<Option<Cycle>, AllocError>
    requires some { 0 < length sent.now }
    requires few { length sent.now ≤ 65536 }
    ensures { IfOk result (λ cycle. IsInOrder service.now (map seen_sent sent.now) cycle) }
{
    let lines = usize::from(service.lines());
    if bound(lines, sent) > Cycle::MOST {
        return Ok(None);
    }
    let slots = cycle_slots(alloc, service.serial(), lines, info_packet(service), sent)?;
    Ok(Some(Cycle::of(slots).unwrap()))
}

// The cycle that sends the pages in an order.
fn lay_out(
    alloc: Global,
    service: &Service,
    receivers: Receivers,
    order: &[usize],
) -> Result<Option<Cycle>, AllocError>
    requires some { 0 < length order.now }
    requires few { length order.now ≤ 65536 }
    requires within { (k : ℕ) → k < length order.now → slice_index order.now k < length service.now.pages }
    ensures { IfOk result (λ cycle. IsInOrder service.now (sent_in_order order.now receivers.late receivers.class service.now.pages) cycle) }
{
    let _pages = service.pages();
    let blocks = blocks_of(alloc, receivers.class, service, &[])?;
    let sent = sent_in_order(alloc, receivers.late, &blocks, order)?;
    cycle_in_order(alloc, service, &sent)
}

/// A cycle that sends the blocks of a service's pages in this order, given by the indexes of the pages. Each page may come any number of
/// times, whatever the service says of how often it is sent. For receivers that show pages late, a time-filling header is sent between
/// two headers of a magazine with the same page number. Nothing is promised of how the cycle is received.
///
/// `NoPages` if the order is empty. `TooLong` if twice the slots of all blocks (each with an empty field) and time-filling headers, plus
/// two fields, is more than 65,536.
pub fn plan_in_order(
    alloc: Global,
    service: &Service,
    receivers: Receivers,
    order: &[usize],
) -> Result<Cycle, PlanFault>
    requires few { length order.now ≤ 65536 }
    requires within { (k : ℕ) → k < length order.now → slice_index order.now k < length service.now.pages }
    ensures { IsPlanInOrder order.now receivers.late receivers.class service.now result }
{
    if order.is_empty() {
        return Err(PlanFault::NoPages);
    }
    match lay_out(alloc, service, receivers, order) {
        Ok(Some(cycle)) => Ok(cycle),
        Ok(None) => Err(PlanFault::TooLong),
        Err(_) => Err(PlanFault::NoMemory),
    }
}
