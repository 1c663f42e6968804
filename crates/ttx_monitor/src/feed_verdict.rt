//! Reads a feed to its end, or to the first slot that breaks the error rule.

ghost use Rattle.std.specs.Prelude.{◌≡◌, ◌≤◌, ◌∷◌, [], ℕ, List, None, IfOk, IfSome, MatchOption, length};
ghost use Rattle.std.specs.List.{All};
ghost use Rattle.ttx_packet.specs.Slots.{IsSlot};
ghost use Rattle.ttx_page.specs.Pages.{Page};
ghost use Rattle.ttx_certify.specs.Laws.{ArePages};
ghost use Rattle.ttx_cycle.specs.Counters.{inner_of, faults_of};
ghost use Rattle.ttx_cycle.specs.Cycles.{slots_of};
ghost use Rattle.ttx_cycle.specs.Files.{IsCycle};
ghost use Rattle.ttx_source.specs.Services.{pages_of};
ghost use Rattle.ttx_certificate.specs.Certificates.{certificate_of};
ghost use Rattle.ttx_witness.specs.Coverage as coverage;
ghost use Rattle.ttx_files.specs.Devices.{AtFeed, input, IsFirstFailure};
ghost use Rattle.ttx_files.specs.Feeds.{failed_at};
ghost use Rattle.ttx_monitor.specs.Watching.{Watched, watched};
ghost use Rattle.ttx_monitor.specs.Standing.{Stands};
ghost use Rattle.ttx_monitor.specs.Waiting.{IsLeft};
ghost use Rattle.ttx_monitor.specs.Feeds.{IsEnding, HearsAll};
ghost use Rattle.ttx_monitor.specs.FeedVerdicts.{start_of, IsVerdictOf, IsFeedVerdict};

use crate::ahead::Ahead;
use crate::begun_feed::begin;
use crate::breach::Breach;
use crate::event::Event;
use crate::monitor::Monitor;
use crate::step::{Step, hear_next};
use crate::verdict::FeedVerdict;
use std::alloc::Global;
use std::io::Read;
use ttx_cycle::Counted;
use ttx_files::{FeedFault, Inputs};

/// How the reading of a feed ends: at its end, with so many bytes behind the last slot; at the first breach; or where the feed has slipped
/// by so many slots. `slot` is the slot of the feed.
#[derive(Clone, Copy)]
pub enum Heard {
    End { rest: usize },
    Broken { slot: u64, breach: Breach },
    Slipped { slot: u64, by: usize },
}

// How the reading ends with this slot, if it does.
pub(crate) fn ending(slot: u64, event: &Event) -> Option<Heard>
    ensures { MatchOption result ((event.now.shift ≡ None) × (event.now.breach ≡ None)) (IsEnding slot event.now) }
{
    match event.shift {
        Some(by) => Some(Heard::Slipped { slot, by }),
        None => match event.breach {
            Some(breach) => Some(Heard::Broken { slot, breach }),
            None => None,
        },
    }
}

// Reads a feed to its end or to the first slot that breaks the rule.
fn hear_all<R: Read>(
    monitor: &mut Monitor<'_>,
    ahead: &mut Ahead,
    feed: &mut Counted<R>,
) -> Result<Heard, FeedFault>
    ensures heard { IfOk result (λ heard. (w : Watched) (bytes : List ℕ) → Stands monitor.old w [] →
        IsLeft ahead.old (R.remaining (inner_of feed.old)) bytes → HearsAll w bytes monitor.new heard) }
    ensures faults { IsFirstFailure (input AtFeed (R.remaining (inner_of feed.old)) (faults_of feed.old) (faults_of feed.new) ∷ [])
        (failed_at result) }
{
    ttx_packet::laws::rows_are_numbered();
    ttx_page::laws::each_slot_turns();
    ttx_page::laws::streams_move();
    ttx_counter::laws::streaks_decide();
    for slot in 0..u64::MAX {
        let next = hear_next(monitor, ahead, feed)?;
        let event = match next {
            Step::Heard { event } => event,
            Step::End { rest } => return Ok(Heard::End { rest }),
        };
        if let Some(heard) = ending(slot, &event) {
            return Ok(heard);
        }
    }
    Ok(Heard::End { rest: 0 })
}

// The verdict on a feed that was read.
pub(crate) fn verdict_of(monitor: &Monitor<'_>, start: u32, heard: Heard) -> FeedVerdict
    ensures start { start_of result ≡ start }
    ensures is { (cycle : List (List ℕ)) (pages : List Page) (c : coverage.Certificate) (bytes : List ℕ) → IsCycle cycle → ArePages pages →
        coverage.IsCertificate c → HearsAll (watched cycle pages c.repeat start) bytes monitor.now heard → IsVerdictOf cycle pages c bytes result }
{
    crate::laws::within_is_seen();
    match heard {
        Heard::End { rest } => FeedVerdict::Yes {
            start,
            slots: monitor.count(),
            wrong: monitor.wrong(),
            streak: monitor.longest(),
            rest,
        },
        Heard::Broken { slot, breach } => FeedVerdict::No {
            start,
            slot,
            breach,
        },
        Heard::Slipped { slot, by } => FeedVerdict::Shifted {
            start,
            slot,
            by,
            count: monitor.cycle().slots().len(),
        },
    }
}

// Reads a feed slot by slot, to its end or to the first slot that breaks the error rule for a page of the service, and returns which.
pub(crate) fn watch<R: Read>(
    alloc: Global,
    inputs: &Inputs,
    named: Option<u32>,
    feed: &mut Counted<R>,
) -> Result<FeedVerdict, FeedFault>
    ensures bytes { IfOk result (λ verdict. IfSome (R.remaining (inner_of feed.old)) (λ bytes. ArePages (pages_of inputs.now.service) →
        IsFeedVerdict (slots_of inputs.now.cycle) (pages_of inputs.now.service) (certificate_of inputs.now.certificate) named bytes verdict)) }
    ensures faults { IsFirstFailure (input AtFeed (R.remaining (inner_of feed.old)) (faults_of feed.old) (faults_of feed.new) ∷ [])
        (failed_at result) }
{
    ttx_witness::certificate_laws::certificates_keep_their_rules();
    let mut begun = begin(alloc, inputs, named, feed)?;
    if let Some(unlike) = begun.found {
        return Ok(FeedVerdict::Unlike(unlike));
    }
    let following = &mut begun.following;
    let heard = hear_all(&mut following.monitor, &mut following.ahead, feed)?;
    Ok(verdict_of(&begun.following.monitor, begun.start, heard))
}
