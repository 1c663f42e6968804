//! Parallel transmission.

ghost use Rattle.std.specs.Prelude.{◌≡◌, ◌+◌, ◌*◌, ◌<◌, ◌≤◌, length, IfOk, vec_len};
ghost use Rattle.ttx_plan.specs.Counting.{slots_for, sum_to};
ghost use Rattle.ttx_plan.specs.Cursors.{magazines_of, queue_at};
ghost use Rattle.ttx_plan.specs.Turns.{IsParallel};

use crate::cursors::{Cursors, queue_of};
use crate::packet::Packet;
use crate::slots::fill;
use std::alloc::{AllocError, Global};

// How many packets all queues have.
fn count_packets(queues: &[Vec<Packet>]) -> usize
    requires queues { length queues.now ≡ 8 }
    requires few { sum_to 8 (λ n. length (queue_at queues.now n)) ≤ 65536 }
    ensures { result ≡ sum_to 8 (λ n. length (queue_at queues.now n)) }
{
    let mut count = 0;
    for queue in 0..8 {
        count += queue_of(queues, queue).len();
    }
    count
}

/// The slots of a cycle in which these queues send in turns. `Err` if memory runs out.
pub fn parallel_slots(
    alloc: Global,
    queues: &[Vec<Packet>],
    lines: usize,
    info: Option<[u8; 42]>,
) -> Result<Vec<[u8; 42]>, AllocError>
    requires queues { length queues.now ≡ 8 }
    requires lines { (1 ≤ lines) × (lines ≤ 32) }
    requires few { 2 * sum_to 8 (λ n. slots_for lines (queue_at queues.now n)) + 2 * lines ≤ 65536 }
    requires some { 0 < sum_to 8 (λ n. length (queue_at queues.now n)) }
    ensures cycle { IfOk result (λ slots. IsParallel (magazines_of lines info queues.now) slots.items) }
    ensures length { IfOk result (λ slots. vec_len slots ≤ 65536) }
    ensures some { IfOk result (λ slots. 0 < vec_len slots) }
{
    let mut left = count_packets(queues);
    let mut cursors = Cursors::new();
    let mut slots = Vec::new(alloc);
    while left > 0 {
        let slot = cursors.step(queues, lines, info, slots.len());
        slots.push(slot.bytes())?;
        if slot.holds_packet() {
            left -= 1;
        }
    }
    fill(&mut slots, lines)?;
    Ok(slots)
}
