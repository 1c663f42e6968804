//! Judges one slot of a feed by rows.

ghost use Rattle.std.specs.Prelude.{◌≡◌, [], ◌∷◌, ℕ, List, IfOk};
ghost use Rattle.ttx_cycle.specs.Counters.{inner_of, faults_of};
ghost use Rattle.ttx_files.specs.Devices.{AtFeed, input, IsFirstFailure};
ghost use Rattle.ttx_files.specs.Feeds.{failed_at};
ghost use Rattle.ttx_monitor.specs.Watching.{Watched};
ghost use Rattle.ttx_monitor.specs.Waiting.{IsLeft};
ghost use Rattle.ttx_row_monitor.specs.RowStanding.{RowStands};
ghost use Rattle.ttx_row_monitor.specs.RowStepping.{IsRowStep};

use crate::breach::RowBreach;
use crate::monitor::RowMonitor;
use std::io::Read;
use ttx_cycle::Counted;
use ttx_files::FeedFault;
use ttx_monitor::Ahead;

/// What comes next: a slot within the rule; one that breaks it; one at which the feed has slipped; or the end of the feed, with so many bytes
/// behind its last slot.
#[derive(Clone, Copy)]
pub enum RowStep {
    Heard,
    Broken { breach: RowBreach },
    Slipped { by: usize },
    End { rest: usize },
}

/// Judges the next slot of a feed, or finds its end.
pub fn hear_next<R: Read>(
    monitor: &mut RowMonitor<'_>,
    ahead: &mut Ahead,
    feed: &mut Counted<R>,
) -> Result<RowStep, FeedFault>
    ensures step { IfOk result (λ step. (w : Watched) (slots : List (List ℕ)) (bytes : List ℕ) → RowStands monitor.old w slots →
        IsLeft ahead.old (R.remaining (inner_of feed.old)) bytes →
        IsRowStep w slots bytes monitor.new ahead.new (R.remaining (inner_of feed.new)) step) }
    ensures faults { IsFirstFailure (input AtFeed (R.remaining (inner_of feed.old)) (faults_of feed.old) (faults_of feed.new) ∷ [])
        (failed_at result) }
{
    ahead.fill(feed, 1)?;
    let Some(slot) = ahead.first() else {
        let rest = ahead.end().unwrap_or(0);
        return Ok(RowStep::End { rest });
    };
    let shift = monitor.slip(ahead, feed, &slot)?;
    if let Some(by) = shift {
        return Ok(RowStep::Slipped { by });
    }
    ahead.pass();
    match monitor.hear(&slot) {
        Some(breach) => Ok(RowStep::Broken { breach }),
        None => Ok(RowStep::Heard),
    }
}
