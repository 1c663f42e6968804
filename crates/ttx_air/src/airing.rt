//! An airing.

ghost use Rattle.std.specs.Prelude.{◌≡◌, ℕ, ◌+◌, ◌*◌, ◌/◌, ◌%◌, ◌<◌, ◌≤◌, ◌^◌, List, length, take};
ghost use Rattle.ttx_cycle.specs.Counters.{inner_of};
ghost use Rattle.ttx_air.specs.Newsrooms as offers;
ghost use Rattle.ttx_air.specs.Newsrooms.{candidate_of};
ghost use Rattle.ttx_air.specs.Endings.{Ending};
ghost use Rattle.ttx_air.specs.Airings.{Written, written_of, scene, airtime_of, Airs};
ghost use Rattle.ttx_air.specs.Steps.{SoFar, SentMore};

use crate::airtime::Airtime;
use crate::candidate::Candidate;
use crate::faults::AirFault;
use crate::first_edition::opened;
use crate::lines::note_end;
use crate::log::Outputs;
use crate::newsroom::Newsroom;
use crate::period_end::entry_at;
use crate::station::{Station, Terms, next_sent};
use std::alloc::Global;
use std::io::Write;
use ttx_cycle::{Counted, WriteFault, write_bytes};
use ttx_send::{Clock, Piece, Stamp, next_piece, put_slot, room, stamp_at, stamp_of, stamped};

// The slots of one piece, and the time in them.
#[derive(Drop)]
struct Load {
    slots: usize,
    stamp: Stamp,
}

// The slots of a piece, with the time of the field in which they go out: that of the piece before, unless a second begins.
fn next_load<C: Clock>(piece: &Piece, clock: &C, field: u32, before: Load) -> Load
    requires { 0 < field % 50 → before.stamp.moment ≡ C.shows clock.now (field / 50) }
    ensures slots { result.slots ≡ piece.now.slots }
    ensures time { result.stamp.moment ≡ C.shows clock.now (field / 50) }
{
    let Load {
        slots: _slots,
        stamp,
    } = before;
    Load {
        slots: piece.slots,
        stamp: stamp_at(clock, field, stamp),
    }
}

// How many bytes were written, if the write of the piece failed that begins with this slot.
fn written(slot: usize, fault: WriteFault) -> usize
    requires before { slot < 2 ^ 40 }
    requires few { fault.written < 5376 }
    ensures { result ≡ 42 * slot + fault.written }
{
    42 * slot + fault.written
}

// The bytes of the next slots, which are sent at one moment.
fn piece_bytes<C: Clock, N: Newsroom, L: Write>(
    alloc: Global,
    terms: Terms<C>,
    station: &mut Station,
    load: &Load,
    newsroom: &mut N,
    log: &mut Counted<L>,
) -> [u8; 5376]
    requires some { 0 < terms.lines }
    requires fits { load.now.slots ≤ 128 }
    requires before { station.old.sent ≤ 2 ^ 37 }
    ensures long { length result ≡ 5376 }
    ensures sent { station.new.sent ≡ station.old.sent + load.now.slots }
    ensures so_far { (gone : N) (first : offers.Candidate) (begin : Written) (past : List Ending) (slots : List (List ℕ)) →
        station.old.sent ≡ length slots →
        SoFar N.gives terms.receivers (C.shows terms.clock) terms.lines terms.started first gone begin station.old.on_air newsroom.old (written_of L.contents log.old) past slots →
        SentMore N.gives terms.receivers (C.shows terms.clock) terms.lines terms.started first gone begin station.new.on_air newsroom.new (written_of L.contents log.new)
        slots load.now.stamp.moment load.now.slots (take (42 * load.now.slots) result) }
{
    let mut bytes = room();
    for at in 0..load.slots {
        let slot = next_sent(alloc, terms, station, newsroom, log);
        put_slot(&mut bytes, 42 * at, &stamped(&slot, &load.stamp));
    }
    bytes
}

/// Puts a service on the air for the fields of `airtime`: the first edition, period after period, until the newsroom hands out one that takes
/// over.
///
/// A field has the lines of the first certificate, and page headers and packets 8/30 carry the time of their field. At the end of each period,
/// once the edition on the air has been sent for a deadline, the newsroom is asked. Its edition takes over if the change serves the receivers;
/// otherwise the edition on the air stays. The log has a line for each. A failed write of the log, or a lack of memory at a change, does not
/// stop the air. If a write of packets fails, exactly the first `written` bytes went out.
pub fn air<C: Clock, N: Newsroom, L: Write, W: Write>(
    alloc: Global,
    first: Candidate,
    airtime: &Airtime<C>,
    newsroom: &mut N,
    outputs: &mut Outputs<L, W>,
) -> Result<(), AirFault>
    ensures { Airs N.gives (airtime_of C.shows airtime.now) (candidate_of first)
        (scene newsroom.old (written_of L.contents outputs.old.log) (W.contents (inner_of outputs.old.packets)))
        (scene newsroom.new (written_of L.contents outputs.new.log) (W.contents (inner_of outputs.new.packets))) result }
{
    let started = outputs.log.faults();
    let begin = airtime.clock.after(0);
    let on_air = opened(alloc, first, airtime.receivers, begin, &mut outputs.log)?;
    let lines = usize::from(on_air.current().certificate.lines());
    let terms = Terms {
        receivers: airtime.receivers,
        clock: airtime.clock,
        lines,
        started,
    };
    let mut station = Station { on_air, sent: 0 };
    let mut load = Load {
        slots: 0,
        stamp: stamp_of(begin),
    };
    let mut field = 0;
    while field < airtime.fields {
        let piece = next_piece(field, airtime.fields, lines);
        load = next_load(&piece, &airtime.clock, field, load);
        let sent = station.sent;
        let bytes = piece_bytes(
            alloc,
            terms,
            &mut station,
            &load,
            newsroom,
            &mut outputs.log,
        );
        if let Err(fault) = write_bytes(&mut outputs.packets, &bytes[..42 * load.slots]) {
            return Err(AirFault::Write(WriteFault {
                written: written(sent, fault),
            }));
        }
        field += piece.fields;
    }
    let entry = entry_at(terms, airtime.fields as usize);
    note_end(&mut outputs.log, &entry);
    Ok(())
}
