//! The first bad slot: the first slot that is not clean.

ghost use Rattle.std.specs.Prelude.{ℕ, ◌<◌, MatchOption};
ghost use Rattle.ttx_cycle.specs.Cycles.{slots_of};
ghost use Rattle.ttx_witness.specs.faults.Reasons.{BadSlotAt};

use ttx_cycle::Cycle;
use ttx_packet::clean;

/// The first slot, counted from 0, that one wrong bit in each byte can turn into another packet. `None` if every slot is clean.
pub fn bad_slot(cycle: &Cycle) -> Option<u32>
    ensures { MatchOption result ((j : ℕ) → BadSlotAt (slots_of cycle.now) j → ⊥)
        (λ j. BadSlotAt (slots_of cycle.now) j × ((i : ℕ) → i < j → BadSlotAt (slots_of cycle.now) i → ⊥)) }
{
    let slots = cycle.slots();
    for j in 0..slots.len() {
        if !clean(&slots[j]) {
            return Some(j as u32);
        }
    }
    None
}
