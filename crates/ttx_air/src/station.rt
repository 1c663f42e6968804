//! What is on the air while it is sent.

ghost use Rattle.std.specs.Prelude.{◌≡◌, ℕ, ◌+◌, ◌<◌, ◌/◌, ◌^◌, ◌++◌, ◌∷◌, [], suc, List, length};
ghost use Rattle.ttx_playout.specs.Takeovers.{edition_of};
ghost use Rattle.ttx_air.specs.Newsrooms as offers;
ghost use Rattle.ttx_air.specs.Endings.{Ending};
ghost use Rattle.ttx_air.specs.Airings.{Written, written_of};
ghost use Rattle.ttx_air.specs.Steps.{SoFar};

use crate::airtime::Receivers;
use crate::newsroom::Newsroom;
use crate::period_end::period_ended;
use std::alloc::Global;
use std::io::Write;
use ttx_cycle::Counted;
use ttx_playout::OnAir;
use ttx_send::Clock;

// What stays the same throughout an airing: the receivers, the clock, the lines to a field, and the log's count of faults at the start.
#[derive(Clone, Copy)]
pub(crate) struct Terms<C> {
    pub(crate) receivers: Receivers,
    pub(crate) clock: C,
    pub(crate) lines: usize,
    pub(crate) started: u64,
}

// The edition on the air, and how many slots were sent since the start.
#[derive(Drop)]
pub(crate) struct Station {
    pub(crate) on_air: OnAir,
    pub(crate) sent: usize,
}

// The field in which the next slot goes out.
pub(crate) fn next_field(station: &Station, lines: usize) -> usize
    requires { 0 < lines }
    ensures { result ≡ station.now.sent / lines }
{
    station.sent / lines
}

// The next slot. At the end of a period the newsroom may be asked.
pub(crate) fn next_sent<C: Clock, N: Newsroom, L: Write>(
    alloc: Global,
    terms: Terms<C>,
    station: &mut Station,
    newsroom: &mut N,
    log: &mut Counted<L>,
) -> [u8; 42]
    requires some { 0 < terms.lines }
    requires before { station.old.sent < 2 ^ 37 + 2 ^ 8 }
    ensures sent { station.new.sent ≡ suc station.old.sent }
    ensures so_far { (gone : N) (first : offers.Candidate) (begin : Written) (past : List Ending) (slots : List (List ℕ)) →
        station.old.sent ≡ length slots →
        SoFar N.gives terms.receivers (C.shows terms.clock) terms.lines terms.started first gone begin station.old.on_air newsroom.old (written_of L.contents log.old) past slots →
        (endings : List Ending) × SoFar N.gives terms.receivers (C.shows terms.clock) terms.lines terms.started first gone begin station.new.on_air newsroom.new
        (written_of L.contents log.new) endings (slots ++ result ∷ []) }
{
    let slot = station.on_air.next_slot();
    station.sent += 1;
    if station.on_air.is_between() {
        period_ended(alloc, terms, station, newsroom, log);
    }
    slot
}
