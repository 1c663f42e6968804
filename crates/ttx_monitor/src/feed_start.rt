//! Finds where in the cycle a feed begins.

ghost use Rattle.std.specs.Prelude.{◌≡◌, ◌<◌, ◌≤◌, ℕ, true, false, All, MatchOption, IsSome, length, ◌^◌};
ghost use Rattle.ttx_packet.specs.Slots.{IsSlot};
ghost use Rattle.ttx_packet.specs.Receptions.{MayBeReceivedAs};
ghost use Rattle.ttx_cycle.specs.Cycles.{slots_of};
ghost use Rattle.ttx_monitor.specs.Starting.{Misfits, judged_slots, IsLikely, IsBestStart};

use crate::comparison::{is_blank, slot_breach};
use crate::monitor::next;
use ttx_cycle::Cycle;
use ttx_cycle::arrays::{are_slots, is_slot};

/// Whether `sent` may arrive as `received`, one slot by itself.
pub fn fits(sent: &[u8; 42], received: &[u8; 42]) -> bool
    ensures fit { result ≡ true → MayBeReceivedAs sent.now received.now }
    ensures misfit { result ≡ false → MayBeReceivedAs sent.now received.now → ⊥ }
{
    is_slot(received);
    slot_breach(sent, received).is_none()
}

/// How many slots of the feed cannot have been received if it begins with slot `start` of the cycle. `None` if there are `limit` or more.
pub fn misfits_below(cycle: &Cycle, head: &[[u8; 42]], start: usize, limit: usize) -> Option<usize>
    requires inside { start < length (slots_of cycle.now) }
    requires slots { All IsSlot head.now }
    ensures some { length head.now < limit → IsSome result }
    ensures count { MatchOption result
        ((c : ℕ) → Misfits (slots_of cycle.now) head.now start (judged_slots (slots_of cycle.now) head.now) c → limit ≤ c)
        (λ c. (c < limit) × Misfits (slots_of cycle.now) head.now start (judged_slots (slots_of cycle.now) head.now) c) }
{
    let slots = cycle.slots();
    if limit == 0 {
        return None;
    }
    let mut misfits = 0;
    let mut at = start;
    for n in 0..slots.len().min(head.len()) {
        if !fits(&slots[at], &head[n]) {
            misfits += 1;
            if misfits >= limit {
                return None;
            }
        }
        at = next(at, slots.len());
    }
    Some(misfits)
}

/// A start, and how many slots of the feed do not fit it.
#[derive(Clone, Copy)]
struct Likely {
    place: usize,
    misfits: usize,
}

// How many slots of the feed do not fit the first slot of the cycle.
fn first_likely(cycle: &Cycle, head: &[[u8; 42]]) -> Likely
    requires { All IsSlot head.now }
    ensures { IsLikely (slots_of cycle.now) head.now result }
{
    Likely {
        place: 0,
        misfits: misfits_below(cycle, head, 0, head.len() + 1).unwrap(),
    }
}

// Of `likely` and the starts with which the slots of the cycle that are equal to slot n of the feed would be slot n, the best one.
fn likelier(cycle: &Cycle, head: &[[u8; 42]], n: usize, likely: Likely) -> Likely
    requires slots { All IsSlot head.now }
    requires inside { n < length head.now }
    requires likely { IsLikely (slots_of cycle.now) head.now likely }
    ensures { IsLikely (slots_of cycle.now) head.now result }
{
    let slots = cycle.slots();
    let back = slots.len() - n % slots.len();
    let mut best = likely;
    for j in 0..slots.len() {
        if slots[j] == head[n] {
            let place = (j + back) % slots.len();
            if let Some(misfits) = misfits_below(cycle, head, place, best.misfits) {
                best = Likely { place, misfits };
            }
        }
    }
    best
}

// A start that fits well where one of the first packets was received as it was sent. With it all other starts are soon given up.
fn likely_start(cycle: &Cycle, head: &[[u8; 42]]) -> Likely
    requires { All IsSlot head.now }
    ensures { IsLikely (slots_of cycle.now) head.now result }
{
    let mut likely = first_likely(cycle, head);
    for n in 0..head.len().min(16) {
        if !is_blank(&head[n]) {
            likely = likelier(cycle, head, n, likely);
        }
    }
    likely
}

/// The slot of the cycle with which a feed most likely begins: the start with the fewest slots that cannot have been received, and the lowest
/// of several. It is judged by the feed's first period, or by all of the feed if that is shorter.
pub fn find_start(cycle: &Cycle, head: &[[u8; 42]]) -> u32
    requires few { length head.now < 2 ^ 32 }
    ensures { IsBestStart (slots_of cycle.now) head.now result }
{
    are_slots(head);
    let count = cycle.slots().len();
    let likely = likely_start(cycle, head);
    let mut fewest = likely.misfits + 1;
    let mut best = 0;
    for start in 0..count {
        if let Some(misfits) = misfits_below(cycle, head, start, fewest) {
            fewest = misfits;
            best = start;
        }
    }
    best as u32
}
