//! The cycle of the blocks of pages.

ghost use Rattle.std.specs.Prelude.{◌≡◌, ◌<◌, ◌≤◌, map, length, IfOk, vec_len};
ghost use Rattle.ttx_plan.specs.Blocks.{length_bound};
ghost use Rattle.ttx_plan.specs.Carries.{CarriesBlocks};
ghost use Rattle.ttx_plan.specs.Seen.{seen_sent};

use crate::parallel::parallel_slots;
use crate::rounds::{SentBlock, queues};
use crate::serial::serial_slots;
use crate::slots::fill;
use std::alloc::{AllocError, Global};

/// The slots of a cycle that carries these blocks. `Err` if memory runs out.
pub fn cycle_slots(
    alloc: Global,
    serial: bool,
    lines: usize,
    info: Option<[u8; 42]>,
    sent: &[SentBlock],
) -> Result<Vec<[u8; 42]>, AllocError>
    requires lines { (1 ≤ lines) × (lines ≤ 32) }
    requires some { 0 < length sent.now }
    requires few { length_bound lines (map seen_sent sent.now) ≤ 65536 }
    ensures carries { IfOk result (λ slots. CarriesBlocks serial lines info (map seen_sent sent.now) slots.items) }
    ensures some { IfOk result (λ slots. 0 < vec_len slots) }
    ensures most { IfOk result (λ slots. vec_len slots ≤ 65536) }
{
    if serial {
        let mut slots = serial_slots(alloc, sent, lines, info)?;
        fill(&mut slots, lines)?;
        Ok(slots)
    } else {
        let queues = queues(alloc, sent)?;
        parallel_slots(alloc, &queues, lines, info)
    }
}
