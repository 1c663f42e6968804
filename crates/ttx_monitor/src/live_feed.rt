//! Follows a feed, and reports it while it comes.

ghost use Rattle.std.specs.Prelude.{◌≡◌, [], ℕ, List};
ghost use Rattle.ttx_cycle.specs.Counters.{inner_of, faults_of};
ghost use Rattle.ttx_monitor.specs.Watching.{Watched};
ghost use Rattle.ttx_monitor.specs.Standing.{Stands};
ghost use Rattle.ttx_monitor.specs.Waiting.{IsLeft};
ghost use Rattle.ttx_monitor.specs.Tallies.{nothing_yet};
ghost use Rattle.ttx_monitor.specs.Wordings.{event_text};
ghost use Rattle.ttx_monitor.specs.Followed.{telling_of, WritesEvent, CountsFollowed, CountsWrites, Follows};

use crate::ahead::Ahead;
use crate::event::Event;
use crate::event_texts::{How, event_text};
use crate::monitor::Monitor;
use crate::step::{Step, hear_next};
use crate::tally::{Tally, added, is_last};
use crate::wording::Wording;
use std::alloc::Global;
use std::io::{Read, Write};
use ttx_cycle::{Counted, WriteFault, write_bytes};
use ttx_files::FeedFault;

/// A feed that is followed: its monitor, the slots that wait, and what has been counted.
#[derive(Drop)]
pub struct Following<'a> {
    pub monitor: Monitor<'a>,
    pub ahead: Ahead,
    pub tally: Tally,
}

/// Why a feed was not followed to its end.
#[derive(Clone, Copy, PartialEq, Eq, Debug)]
pub enum FollowFault {
    /// A read of the feed failed, or memory ran out.
    Feed(FeedFault),
    /// A write failed: of the latest lines, exactly the first `written` bytes went out.
    Write { written: usize },
}

/// How the following ends: at the end of the feed, with so many bytes behind the last slot; or at this slot, which breaks the rule or at which
/// the feed has slipped, if only the first one is reported.
#[derive(Clone, Copy)]
pub enum Followed {
    End { rest: usize },
    Stopped { slot: u64, event: Event },
}

// Writes what is written for a slot.
fn tell<V: Wording, W: Write>(
    alloc: Global,
    how: &How<'_>,
    tally: Tally,
    event: &Event,
    writer: &mut Counted<W>,
) -> Result<(), FollowFault>
    ensures bytes { WritesEvent (event_text (telling_of V.words how.now) tally event.now) (W.contents (inner_of writer.old))
        (W.contents (inner_of writer.new)) result }
    ensures faults { CountsWrites result (faults_of writer.old) (faults_of writer.new) }
{
    let Ok(text) = event_text::<V>(alloc, how, tally, event) else {
        return Err(FollowFault::Feed(FeedFault::NoMemory));
    };
    if text.is_empty() {
        return Ok(());
    }
    match write_bytes(writer, text.as_bytes()) {
        Ok(()) => Ok(()),
        Err(WriteFault { written }) => Err(FollowFault::Write { written }),
    }
}

/// Follows a feed to its end, or to the first slot that breaks the rule if only that is reported, and writes what is written for each slot, in the
/// words of `V`, before the next one is read.
pub fn follow<V: Wording, R: Read, W: Write>(
    alloc: Global,
    following: &mut Following<'_>,
    how: &How<'_>,
    feed: &mut Counted<R>,
    writer: &mut Counted<W>,
) -> Result<Followed, FollowFault>
    ensures told { (w : Watched) (bytes : List ℕ) → Stands following.old.monitor w [] → IsLeft following.old.ahead (R.remaining (inner_of feed.old)) bytes →
        following.old.tally ≡ nothing_yet → Follows w bytes (telling_of V.words how.now) following.new (W.contents (inner_of writer.old))
        (W.contents (inner_of writer.new)) result }
    ensures feed { CountsFollowed result (faults_of feed.old) (faults_of feed.new) }
    ensures writer { CountsWrites result (faults_of writer.old) (faults_of writer.new) }
{
    ttx_packet::laws::rows_are_numbered();
    ttx_page::laws::each_slot_turns();
    ttx_page::laws::streams_move();
    ttx_counter::laws::streaks_decide();
    for slot in 0..u64::MAX {
        let next = match hear_next(&mut following.monitor, &mut following.ahead, feed) {
            Ok(next) => next,
            Err(fault) => return Err(FollowFault::Feed(fault)),
        };
        let event = match next {
            Step::Heard { event } => event,
            Step::End { rest } => return Ok(Followed::End { rest }),
        };
        match tell::<V, W>(alloc, how, following.tally, &event, writer) {
            Ok(()) => {}
            Err(fault) => return Err(fault),
        }
        following.tally = added(following.tally, &event);
        if is_last(how.all, &event) {
            return Ok(Followed::Stopped { slot, event });
        }
    }
    Ok(Followed::End { rest: 0 })
}
