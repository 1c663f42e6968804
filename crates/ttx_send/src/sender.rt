//! Sends a cycle, field by field.

ghost use Rattle.std.specs.Prelude.{◌≡◌, ◌+◌, ◌*◌, ◌%◌, ◌≤◌, ◌<◌, pos, ◌^◌, length, take, MatchResult};
ghost use Rattle.ttx_cycle.specs.Counters.{inner_of, faults_of};
ghost use Rattle.ttx_cycle.specs.Counts.{HasRisen};
ghost use Rattle.ttx_cycle.specs.Cycles.{slots_of};
ghost use Rattle.ttx_cycle.specs.Files.{file_of, IsCycle};
ghost use Rattle.ttx_cycle.specs.Writing.{Writes};
ghost use Rattle.ttx_page.specs.Laws.{sent_from};
ghost use Rattle.ttx_send.specs.Airing.{at_moment, broadcast_by, sent_slots};

use crate::clocks::Clock;
use crate::pieces::{next_piece, put_slot, room};
use crate::stamps::{Stamp, stamp_at, stamp_of};
use crate::time_stamps::stamped;
use std::io::Write;
use ttx_cycle::{Counted, Cycle, WriteFault, write_bytes};

// The place after this one, round a cycle of so many slots.
fn next_place(place: usize, count: usize) -> usize
    requires { place < count }
    ensures { result ≡ (place + 1) % count }
{
    if place + 1 == count { 0 } else { place + 1 }
}

// Writes `count` slots of the repeated cycle, from slot `first` on, all with the same time.
fn fill(bytes: &mut [u8; 5376], slots: &[[u8; 42]], first: usize, count: usize, stamp: &Stamp)
    requires cycle { IsCycle slots.now }
    requires fits { count ≤ 128 }
    requires first { first < 2 ^ 63 }
    ensures long { length bytes.new ≡ 5376 }
    ensures bytes { take (42 * count) bytes.new ≡ file_of (sent_from (at_moment slots.now stamp.now.moment) (pos first) count) }
{
    let mut place = first % slots.len();
    for at in 0..count {
        let slot = stamped(&slots[place], stamp);
        put_slot(bytes, 42 * at, &slot);
        place = next_place(place, slots.len());
    }
}

/// Sends `fields` fields of the repeated cycle, each of 1 to 32 lines. It begins with field `phase`, which is sent at the start of the clock.
///
/// Each field is written at once, and several together if they have few lines. If a write fails, exactly the first `written` bytes
/// have been written. Allocates nothing.
pub fn send<C: Clock, W: Write>(
    cycle: &Cycle,
    clock: &C,
    lines: u8,
    phase: u32,
    fields: u32,
    writer: &mut Counted<W>,
) -> Result<(), WriteFault>
    requires some { 1 ≤ lines }
    requires most { lines ≤ 32 }
    ensures bytes { Writes (file_of (sent_slots (broadcast_by (slots_of cycle.now) lines phase (C.shows clock.now)) fields))
        (W.contents (inner_of writer.old)) (W.contents (inner_of writer.new)) result }
    ensures faults { MatchResult result (λ _. faults_of writer.new ≡ faults_of writer.old)
        (λ _. HasRisen (faults_of writer.old) (faults_of writer.new)) }
{
    let slots = cycle.slots();
    let lines = usize::from(lines);
    let mut first = phase as usize * lines;
    let mut sent = 0;
    let mut field = 0;
    let mut stamp = stamp_of(clock.after(0));
    let mut bytes = room();
    while field < fields {
        let piece = next_piece(field, fields, lines);
        stamp = stamp_at(clock, field, stamp);
        fill(&mut bytes, slots, first, piece.slots, &stamp);
        if let Err(fault) = write_bytes(writer, &bytes[..42 * piece.slots]) {
            return Err(WriteFault {
                written: sent + fault.written,
            });
        }
        first += piece.slots;
        sent += 42 * piece.slots;
        field += piece.fields;
    }
    Ok(())
}
