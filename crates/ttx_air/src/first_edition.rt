//! The first edition.

ghost use Rattle.std.specs.Prelude.{◌≡◌, MatchOption};
ghost use Rattle.ttx_playout.specs.Takeovers.{edition_of};
ghost use Rattle.ttx_air.specs.Newsrooms.{candidate_of};
ghost use Rattle.ttx_air.specs.Judgements.{IsServed, IsUnserved};
ghost use Rattle.ttx_air.specs.LogLines.{tick_at};
ghost use Rattle.ttx_air.specs.Airings.{written_of};
ghost use Rattle.ttx_air.specs.Steps.{IsOpened};

use crate::airtime::Receivers;
use crate::candidate::Candidate;
use crate::faults::AirFault;
use crate::lines::{Entry, note_first};
use crate::verdicts::unserved;
use std::alloc::Global;
use std::io::Write;
use ttx_cycle::Counted;
use ttx_playout::{Edition, OnAir};
use ttx_send::Moment;

// The first reason why the receivers are not served by an edition that is accepted.
fn unserved_by(edition: &Edition, receivers: Receivers) -> Option<AirFault>
    ensures { MatchOption result (IsServed receivers (edition_of edition.now)) (IsUnserved receivers (edition_of edition.now)) }
{
    match receivers {
        Receivers::AtOnce => None,
        Receivers::Late { gap } => unserved(edition, gap),
    }
}

// Puts the first edition on the air, which begins at a moment, and adds its line to the log. If it is refused, nothing is added.
pub(crate) fn opened<L: Write>(
    alloc: Global,
    first: Candidate,
    receivers: Receivers,
    begin: Moment,
    log: &mut Counted<L>,
) -> Result<OnAir, AirFault>
    ensures { IsOpened receivers (tick_at 0 begin) (candidate_of first) (written_of L.contents log.old) (written_of L.contents log.new) result }
{
    let Candidate { edition, mark } = first;
    let on_air = match OnAir::start(alloc, edition) {
        Ok(on_air) => on_air,
        Err(fault) => return Err(AirFault::Start(fault)),
    };
    if let Some(fault) = unserved_by(on_air.current(), receivers) {
        return Err(fault);
    }
    let entry = Entry {
        started: log.faults(),
        field: 0,
        moment: begin,
    };
    note_first(log, &entry, mark.as_bytes(), on_air.current());
    Ok(on_air)
}
