//! What happens at the end of a period.

ghost use Rattle.std.specs.Prelude.{◌≡◌, ◌+◌, ◌<◌, ◌≤◌, ◌^◌, ◌/◌, ◌++◌, ◌∷◌, [], Some, codes, true};
ghost use Rattle.ttx_proof.specs.declared.verdict.SpliceVerdict.TheVariants.{Yes};
ghost use Rattle.ttx_playout.specs.Takeovers.{at_of, current_of, IsTime, IsChangeVerdict};
ghost use Rattle.ttx_air.specs.Newsrooms.{candidate_of, Next};
ghost use Rattle.ttx_air.specs.Judgements.{is_yes};
ghost use Rattle.ttx_air.specs.Endings.{Ending, answer_at, Asked};
ghost use Rattle.ttx_air.specs.LogLines.{tick, changed_line, kept_line, ending_line};
ghost use Rattle.ttx_air.specs.Airings.{written_of};
ghost use Rattle.ttx_air.specs.Entries.{Adds};
ghost use Rattle.ttx_air.specs.Ticks.{tick_of};
ghost use Rattle.ttx_air.specs.Steps.{IsTaking, IsKept, IsSettled, IsEnded};

use crate::candidate::{Candidate, News};
use crate::lines::{Entry, note_change, note_kept, note_refused};
use crate::newsroom::Newsroom;
use crate::reasons::reason_line;
use crate::station::{Station, Terms, next_field};
use crate::verdicts::{is_yes, judged};
use std::alloc::Global;
use std::io::Write;
use ttx_cycle::Counted;
use ttx_playout::{LateChange, OnAir};
use ttx_send::Clock;

// An entry before this field.
pub(crate) fn entry_at<C: Clock>(terms: Terms<C>, field: usize) -> Entry
    requires { field ≤ 2 ^ 37 + 2 ^ 8 }
    ensures started { result.started ≡ terms.started }
    ensures tick { tick_of result ≡ tick (C.shows terms.clock) field }
{
    Entry {
        started: terms.started,
        field,
        moment: terms.clock.after((field / 50) as u32),
    }
}

// The next edition takes over, and the one before is let go.
fn taken(on_air: &mut OnAir, next: Candidate)
    requires time { IsTime on_air.old }
    requires accepted { IsChangeVerdict (current_of on_air.old) (candidate_of next).edition Yes }
    ensures { IsTaking (candidate_of next).edition on_air.old on_air.new }
{
    let Candidate {
        edition,
        mark: _mark,
    } = next;
    let _off = on_air.take(edition);
}

// The next edition takes over, and the log says so.
fn accepted<L: Write>(on_air: &mut OnAir, next: Candidate, entry: &Entry, log: &mut Counted<L>)
    requires time { IsTime on_air.old }
    requires accepted { IsChangeVerdict (current_of on_air.old) (candidate_of next).edition Yes }
    ensures taken { IsTaking (candidate_of next).edition on_air.old on_air.new }
    ensures line { Adds entry.now.started (written_of L.contents log.old) (written_of L.contents log.new)
        (changed_line (tick_of entry.now) (current_of on_air.old) (candidate_of next)) }
{
    note_change(log, entry, on_air.current(), &next);
    taken(on_air, next);
}

// The log says that there was no memory to judge the next edition.
fn note_unjudged<L: Write>(log: &mut Counted<L>, entry: &Entry, next: &Candidate)
    ensures { Adds entry.now.started (written_of L.contents log.old) (written_of L.contents log.new)
        (kept_line (tick_of entry.now) (candidate_of next.now).mark (codes "out of memory\n")) }
{
    note_kept(log, entry, next.mark.as_bytes(), b"out of memory\n");
}

// The log says why the next edition does not take over, if there is memory for the line.
fn note_verdict<L: Write>(
    alloc: Global,
    log: &mut Counted<L>,
    entry: &Entry,
    next: &Candidate,
    verdict: LateChange,
)
    ensures { IsKept (candidate_of next.now) verdict entry.now.started (tick_of entry.now) (written_of L.contents log.old) (written_of L.contents log.new) }
{
    match reason_line(alloc, verdict) {
        Ok(line) => note_kept(log, entry, next.mark.as_bytes(), line.as_bytes()),
        Err(_) => note_unjudged(log, entry, next),
    }
}

// The next edition takes over if the verdict is yes. Otherwise the edition on the air stays.
fn settled<L: Write>(
    alloc: Global,
    on_air: &mut OnAir,
    next: Candidate,
    verdict: LateChange,
    entry: &Entry,
    log: &mut Counted<L>,
)
    requires time { IsTime on_air.old }
    requires accepted { is_yes verdict ≡ true → IsChangeVerdict (current_of on_air.old) (candidate_of next).edition Yes }
    ensures { IsSettled verdict (candidate_of next) entry.now.started (tick_of entry.now) on_air.old on_air.new (written_of L.contents log.old)
        (written_of L.contents log.new) }
{
    if !is_yes(&verdict) {
        note_verdict(alloc, log, entry, &next, verdict);
        return;
    }
    accepted(on_air, next, entry, log);
}

// The next edition is judged where a change may be made.
fn decided<C: Clock, L: Write>(
    alloc: Global,
    terms: Terms<C>,
    station: &mut Station,
    next: Candidate,
    log: &mut Counted<L>,
)
    requires some { 0 < terms.lines }
    requires before { station.old.sent ≤ 2 ^ 37 + 2 ^ 8 }
    requires time { IsTime station.old.on_air }
    ensures sent { station.new.sent ≡ station.old.sent }
    ensures ending { (ending : Ending) × IsEnded terms.receivers ending station.old.on_air station.new.on_air
        × (answer_at ending ≡ Some (Next (candidate_of next)))
        × Adds terms.started (written_of L.contents log.old) (written_of L.contents log.new)
        (ending_line (tick (C.shows terms.clock) (station.old.sent / terms.lines)) (current_of station.old.on_air) ending) }
{
    let entry = entry_at(terms, next_field(station, terms.lines));
    let Ok(verdict) = judged(alloc, &station.on_air, &next.edition, terms.receivers) else {
        note_unjudged(log, &entry, &next);
        return;
    };
    settled(alloc, &mut station.on_air, next, verdict, &entry, log);
}

// The end of a period. Where a change may be made the newsroom is asked.
pub(crate) fn period_ended<C: Clock, N: Newsroom, L: Write>(
    alloc: Global,
    terms: Terms<C>,
    station: &mut Station,
    newsroom: &mut N,
    log: &mut Counted<L>,
)
    requires some { 0 < terms.lines }
    requires before { station.old.sent ≤ 2 ^ 37 + 2 ^ 8 }
    requires between { at_of station.old.on_air ≡ 0 }
    ensures sent { station.new.sent ≡ station.old.sent }
    ensures ending { (ending : Ending) × IsEnded terms.receivers ending station.old.on_air station.new.on_air
        × Asked N.gives newsroom.old (current_of station.old.on_air) (station.old.sent / terms.lines) (answer_at ending) newsroom.new
        × Adds terms.started (written_of L.contents log.old) (written_of L.contents log.new)
        (ending_line (tick (C.shows terms.clock) (station.old.sent / terms.lines)) (current_of station.old.on_air) ending) }
{
    if station.on_air.is_time() {
        let field = next_field(station, terms.lines);
        match newsroom.next(alloc, station.on_air.current(), field) {
            News::Next(next) => decided(alloc, terms, station, next, log),
            News::Refused { mark, words } => {
                let entry = entry_at(terms, field);
                note_refused(log, &entry, mark.as_bytes(), words.as_bytes());
            }
            News::NoMemory { mark } => {
                let entry = entry_at(terms, field);
                note_refused(log, &entry, mark.as_bytes(), b"out of memory");
            }
            News::Nothing => {}
        }
    }
}
