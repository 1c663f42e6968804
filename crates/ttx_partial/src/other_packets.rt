//! The packets of a cycle of which a service text has nothing.

ghost use Rattle.std.specs.Prelude.{◌≡◌, ◌≤◌, length};
ghost use Rattle.ttx_cycle.specs.Cycles.{slots_of};
ghost use Rattle.ttx_partial.specs.Others.{is_other, others_to, others};

use ttx_cycle::Cycle;
use ttx_packet::{Slot, slot_of};

// Whether a slot has a packet of another kind than headers, rows, X/27/0 and 8/30.
fn is_other(slot: &[u8; 42]) -> bool
    ensures { result ≡ is_other slot.now }
{
    match slot_of(slot) {
        Slot::Other(_) => true,
        Slot::Empty | Slot::Unreadable => false,
        Slot::Header(_, _) | Slot::Row(_, _) | Slot::Links(_, _) | Slot::Info(_, _) => false,
    }
}

/// How many packets of a cycle are of another kind than page headers, rows 1 to 24, X/27/0 and 8/30, such as X/26: a service text has nothing of
/// them.
#[tactic(auto, unfolding(crate::specs::Others::others_to))]
pub fn others(cycle: &Cycle) -> usize
    ensures { result ≡ others (slots_of cycle.now) }
{
    let slots = cycle.slots();
    let mut count = 0;
    for i in 0..slots.len() {
        if is_other(&slots[i]) {
            count += 1;
        }
    }
    count
}
