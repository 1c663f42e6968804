//! Reads a feed to its end, or to the first slot that breaks the error rule by rows.

ghost use Rattle.std.specs.Prelude.{◌≡◌, ◌∷◌, [], ℕ, List, IfOk, IfSome, length};
ghost use Rattle.ttx_page.specs.Pages.{Page};
ghost use Rattle.ttx_certify.specs.Laws.{ArePages};
ghost use Rattle.ttx_cycle.specs.Counters.{inner_of, faults_of};
ghost use Rattle.ttx_cycle.specs.Cycles.{slots_of};
ghost use Rattle.ttx_cycle.specs.Files.{IsCycle};
ghost use Rattle.ttx_source.specs.Services.{pages_of};
ghost use Rattle.ttx_certificate.specs.Certificates.{certificate_of};
ghost use Rattle.ttx_witness.specs.Coverage as coverage;
ghost use Rattle.ttx_files.specs.Devices.{AtFeed, input, IsFirstFailure};
ghost use Rattle.ttx_files.specs.Feeds.{failed_at};
ghost use Rattle.ttx_monitor.specs.Watching.{Watched, watched};
ghost use Rattle.ttx_monitor.specs.Waiting.{IsLeft};
ghost use Rattle.ttx_row_monitor.specs.RowStanding.{RowStands};
ghost use Rattle.ttx_row_monitor.specs.RowVerdicts.{HearsRows, start_of, IsRowVerdictOf, IsRowVerdict};

use crate::breach::RowBreach;
use crate::monitor::RowMonitor;
use crate::row_step::{RowStep, hear_next};
use crate::verdict::RowVerdict;
use std::alloc::Global;
use std::io::Read;
use ttx_cycle::{Counted, Cycle};
use ttx_files::{FeedFault, Inputs};
use ttx_monitor::Ahead;
use ttx_monitor::begun_feed::{Opened, open};

/// How the reading of a feed ends: at its end, with so many bytes behind the last slot; at the first breach; or where the feed has slipped by
/// so many slots. `slot` is the slot of the feed.
#[derive(Clone, Copy)]
pub enum Heard {
    End { rest: usize },
    Broken { slot: u64, breach: RowBreach },
    Slipped { slot: u64, by: usize },
}

// Reads a feed to its end or to the first slot that breaks the rule.
fn hear_all<R: Read>(
    monitor: &mut RowMonitor<'_>,
    ahead: &mut Ahead,
    feed: &mut Counted<R>,
) -> Result<Heard, FeedFault>
    ensures heard { IfOk result (λ heard. (w : Watched) (bytes : List ℕ) → RowStands monitor.old w [] →
        IsLeft ahead.old (R.remaining (inner_of feed.old)) bytes → HearsRows w bytes monitor.new heard) }
    ensures faults { IsFirstFailure (input AtFeed (R.remaining (inner_of feed.old)) (faults_of feed.old) (faults_of feed.new) ∷ [])
        (failed_at result) }
{
    for slot in 0..u64::MAX {
        let next = hear_next(monitor, ahead, feed)?;
        match next {
            RowStep::Heard => {}
            RowStep::Broken { breach } => return Ok(Heard::Broken { slot, breach }),
            RowStep::Slipped { by } => return Ok(Heard::Slipped { slot, by }),
            RowStep::End { rest } => return Ok(Heard::End { rest }),
        }
    }
    Ok(Heard::End { rest: 0 })
}

// The verdict on a feed that was read.
fn verdict_of(monitor: &RowMonitor<'_>, cycle: &Cycle, start: u32, heard: Heard) -> RowVerdict
    ensures start { start_of result ≡ start }
    ensures is { (pages : List Page) (c : coverage.Certificate) (bytes : List ℕ) → ArePages pages → coverage.IsCertificate c →
        HearsRows (watched (slots_of cycle.now) pages c.repeat start) bytes monitor.now heard →
        IsRowVerdictOf (slots_of cycle.now) pages c bytes result }
{
    crate::laws::within_is_received_by_rows();
    crate::laws::within_is_seen_by_rows();
    crate::laws::within_is_shown_by_rows();
    match heard {
        Heard::End { rest } => RowVerdict::Yes {
            start,
            slots: monitor.count(),
            lost: monitor.lost(),
            rest,
        },
        Heard::Broken { slot, breach } => RowVerdict::No {
            start,
            slot,
            breach,
        },
        Heard::Slipped { slot, by } => RowVerdict::Shifted {
            start,
            slot,
            by,
            count: cycle.slots().len(),
        },
    }
}

/// Reads a feed slot by slot, to its end or to the first slot that breaks the error rule by rows for a page of the service, and returns which.
pub fn watch<R: Read>(
    alloc: Global,
    inputs: &Inputs,
    named: Option<u32>,
    feed: &mut Counted<R>,
) -> Result<RowVerdict, FeedFault>
    ensures bytes { IfOk result (λ verdict. IfSome (R.remaining (inner_of feed.old)) (λ bytes. ArePages (pages_of inputs.now.service) →
        IsRowVerdict (slots_of inputs.now.cycle) (pages_of inputs.now.service) (certificate_of inputs.now.certificate) named bytes verdict)) }
    ensures faults { IsFirstFailure (input AtFeed (R.remaining (inner_of feed.old)) (faults_of feed.old) (faults_of feed.new) ∷ [])
        (failed_at result) }
{
    ttx_witness::certificate_laws::certificates_keep_their_rules();
    let (cycle, service) = (&inputs.cycle, &inputs.service);
    let Opened {
        start,
        found,
        ahead,
    } = open(alloc, cycle, named, feed)?;
    if let Some(unlike) = found {
        return Ok(RowVerdict::Unlike(unlike));
    }
    let Ok(mut monitor) = RowMonitor::new(alloc, cycle, service, &inputs.certificate, start) else {
        return Err(FeedFault::NoMemory);
    };
    let mut ahead = ahead;
    let heard = hear_all(&mut monitor, &mut ahead, feed)?;
    Ok(verdict_of(&monitor, cycle, start, heard))
}
