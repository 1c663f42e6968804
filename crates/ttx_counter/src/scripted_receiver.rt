//! Gives the slots of a run to a receiver that follows a script.

ghost use Rattle.std.specs.Prelude.{◌≡◌, ℕ, ◌<◌, ◌≤◌, length};
ghost use Rattle.std.specs.List.Sorted.{IsNonDecreasing};
ghost use Rattle.ttx_page.specs.Streams.{repeated};
ghost use Rattle.ttx_cycle.specs.Cycles.{slots_of};
ghost use Rattle.ttx_counter.specs.Keys.{key_at, AreHitOnce, IsKey};
ghost use Rattle.ttx_counter.specs.Hearing.{IsHeard};

use crate::keys::{SlotKeys, end_of, hit_slot};
use crate::run_slots::place;
use ttx_cycle::Cycle;
use ttx_receiver::{Receiver, Scripted};

/// What is received in a run: `count` slots of the cycle from slot `start` on, with the bits of the keys flipped.
#[derive(Clone, Copy)]
pub struct Run<'a> {
    pub cycle: &'a Cycle,
    pub start: u32,
    pub count: u32,
    pub keys: &'a [u64],
}

/// Gives the receiver what is received in the run.
pub fn hear(receiver: &mut Scripted<'_>, run: &Run<'_>)
    requires sorted { IsNonDecreasing run.now.keys.now }
    requires apart { AreHitOnce run.now.keys.now }
    requires keys { (i : ℕ) → i < length run.now.keys.now → IsKey (key_at run.now.keys.now i) }
    ensures { IsHeard (repeated (slots_of run.now.cycle.now)) run.now.start run.now.count run.now.keys.now receiver.old receiver.new }
{
    let slots = run.cycle.slots();
    let keys = run.keys;
    let mut from = 0;
    for i in 0..run.count {
        let to = end_of(keys, from, i);
        let hits = SlotKeys { keys, from, to };
        let slot = hit_slot(&slots[place(run.start, i, slots.len())], &hits);
        receiver.step(Some(&slot));
        from = to;
    }
}
