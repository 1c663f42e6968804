//! Finds by how many slots a feed has slipped: slots that a recorder lost or inserted.

ghost use Rattle.std.specs.Prelude.{◌≡◌, ◌↔◌, ◌<◌, ◌≤◌, ℕ, true, All, IsTrue, MatchOption, length, slice_index_or, []};
ghost use Rattle.ttx_packet.specs.Slots.{IsSlot, is_empty};
ghost use Rattle.ttx_cycle.specs.Cycles.{slots_of};
ghost use Rattle.ttx_monitor.specs.Slips.{IsFirstPacket, GoesOn, GoesOff, IsSlip};

use crate::comparison::is_blank;
use crate::feed_start::{fits, misfits_below};
use ttx_cycle::Cycle;
use ttx_cycle::arrays::are_slots;

// The first slot that is a packet.
fn first_packet(window: &[[u8; 42]]) -> Option<usize>
    ensures { MatchOption result
        ((n : ℕ) → n < length window.now → is_empty (slice_index_or window.now n []) ≡ true)
        (IsFirstPacket window.now) }
{
    for n in 0..window.len() {
        if !is_blank(&window[n]) {
            return Some(n);
        }
    }
    None
}

// Whether less than half of the slots do not fit from this place on, and their first packet fits.
fn goes_on(cycle: &Cycle, window: &[[u8; 42]], packet: usize, place: usize) -> bool
    requires slots { All IsSlot window.now }
    requires few { length window.now ≤ length (slots_of cycle.now) }
    requires packet { IsFirstPacket window.now packet }
    requires inside { place < length (slots_of cycle.now) }
    ensures { IsTrue result ↔ GoesOn (slots_of cycle.now) window.now place }
{
    let slots = cycle.slots();
    let at = (place + packet) % slots.len();
    let half = window.len().div_ceil(2);
    fits(&slots[at], &window[packet]) && misfits_below(cycle, window, place, half).is_some()
}

// Whether more than half of the slots do not fit from this place on.
fn goes_off(cycle: &Cycle, window: &[[u8; 42]], place: usize) -> bool
    requires slots { All IsSlot window.now }
    requires few { length window.now ≤ length (slots_of cycle.now) }
    requires inside { place < length (slots_of cycle.now) }
    ensures { IsTrue result ↔ GoesOff (slots_of cycle.now) window.now place }
{
    misfits_below(cycle, window, place, window.len() / 2 + 1).is_none()
}

/// By how many slots a feed has slipped. It should go on with these slots from a place of the cycle: most of them do not fit there, but
/// from so many slots on most of them do, and the first packet among them. The least such number; `None` if there is none.
pub fn slip(cycle: &Cycle, window: &[[u8; 42]], place: usize) -> Option<usize>
    requires few { length window.now ≤ length (slots_of cycle.now) }
    requires inside { place < length (slots_of cycle.now) }
    ensures { IsSlip (slots_of cycle.now) window.now place result }
{
    are_slots(window);
    if !goes_off(cycle, window, place) {
        return None;
    }
    let packet = first_packet(window)?;
    let count = cycle.slots().len();
    for by in 1..count {
        if goes_on(cycle, window, packet, (place + by) % count) {
            return Some(by);
        }
    }
    None
}
