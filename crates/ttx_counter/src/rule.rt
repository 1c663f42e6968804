//! The rule of k: of any k successive transmissions of a text byte, at least one is received right.

ghost use Rattle.std.specs.Prelude.{◌≡◌, ℕ, ◌<◌, ◌≤◌, ◌↔◌, IsTrue, IfOk, length};
ghost use Rattle.std.specs.List.Sorted.{IsNonDecreasing};
ghost use Rattle.ttx_page.specs.Streams.{repeated};
ghost use Rattle.ttx_cycle.specs.Cycles.{slots_of};
ghost use Rattle.ttx_counter.specs.Hearing.{IsHeard};
ghost use Rattle.ttx_counter.specs.Keys.{key_at, AreHitOnce, IsKey};
ghost use Rattle.ttx_counter.specs.Rule.{KeepsRule};

use crate::keys::{SlotKeys, end_of, hit_slot};
use crate::run_slots::{is_owned, place, row_sent};
use crate::scripted_receiver::{Run, hear};
use crate::streaks::{no_streaks, note};
use std::alloc::Global;
use ttx_header::PageId;
use ttx_receiver::{Receiver, Scripted};
use ttx_witness::{NoMemory, mine_after};

/// Gives the receiver what is received in a run, as long as the hits keep the rule for the page. Returns whether they keep it to the end.
/// Takes one pass over the slots of the run with a fixed number of counters, and no counters if there are no hits.
pub fn hear_within_rule(
    alloc: Global,
    receiver: &mut Scripted<'_>,
    run: &Run<'_>,
    page: PageId,
    repeat: u8,
) -> Result<bool, NoMemory>
    requires some { 1 ≤ repeat }
    requires sorted { IsNonDecreasing run.now.keys.now }
    requires apart { AreHitOnce run.now.keys.now }
    requires keys { (i : ℕ) → i < length run.now.keys.now → IsKey (key_at run.now.keys.now i) }
    ensures kept { IfOk result (λ b. IsTrue b ↔ KeepsRule (repeated (slots_of run.now.cycle.now)) page run.now.start run.now.count repeat
        run.now.keys.now) }
    ensures heard { IfOk result (λ b. IsTrue b → IsHeard (repeated (slots_of run.now.cycle.now)) run.now.start run.now.count run.now.keys.now
        receiver.old receiver.new) }
{
    ttx_packet::laws::rows_are_numbered();
    crate::laws::streaks_decide();
    let keys = run.keys;
    if keys.is_empty() {
        hear(receiver, run);
        return Ok(true);
    }
    let slots = run.cycle.slots();
    let mut mine = is_owned(run.cycle, page, run.start);
    let mut streaks = no_streaks(alloc)?;
    let mut from = 0;
    for i in 0..run.count {
        let slot = &slots[place(run.start, i, slots.len())];
        let to = end_of(keys, from, i);
        let hits = SlotKeys { keys, from, to };
        let row = row_sent(page, slot, mine);
        if !note(&mut streaks, row, i, &hits, repeat) {
            return Ok(false);
        }
        receiver.step(Some(&hit_slot(slot, &hits)));
        mine = mine_after(page, slot, mine);
        from = to;
    }
    Ok(true)
}
