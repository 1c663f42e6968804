//! Judges a change of the edition on the air, for receivers that show a page late or only where it ends.

ghost use Rattle.std.specs.Prelude.{IfOk};
ghost use Rattle.ttx_playout.specs.Takeovers.{current_of, edition_of};
ghost use Rattle.ttx_playout.specs.Schedules.{change};
ghost use Rattle.ttx_change.specs.WholeChanges.{IsWhole, IsWholeChange};

use crate::editions::open_between;
use crate::verdict::{LateSplice, WholeChange};
use std::alloc::Global;
use ttx_playout::{Edition, LateChange, OnAir};
use ttx_witness::NoMemory;

// What the edition on the air leaves open, as a verdict.
fn whole_between(current: &Edition, next: &Edition) -> WholeChange
    ensures { IsWhole (change (edition_of current.now) (edition_of next.now)) result }
{
    match open_between(current, next) {
        LateSplice::Yes => WholeChange::Yes,
        what => WholeChange::Open(what),
    }
}

/// The verdict on a change of the edition on the air to a next one, for receivers that show a page late, also those that show it only where
/// it ends: that of `judge_late`, and if it is yes, whether the edition on the air leaves something of a page open. With a yes to each change
/// the law `schedules_are_whole` says what receivers of a page number show, where each edition sends the pages of the number whole.
pub fn judge_whole(
    alloc: Global,
    on_air: &OnAir,
    next: &Edition,
    gap: usize,
) -> Result<WholeChange, NoMemory>
    ensures { IfOk result (IsWholeChange (current_of on_air.now) (edition_of next.now) gap) }
{
    match on_air.judge_late(alloc, next, gap)? {
        LateChange::Yes => Ok(whole_between(on_air.current(), next)),
        verdict => Ok(WholeChange::No(verdict)),
    }
}
