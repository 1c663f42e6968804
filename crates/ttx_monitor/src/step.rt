//! Judges one slot of a feed.

ghost use Rattle.std.specs.Prelude.{◌≡◌, [], ◌∷◌, ℕ, List, IfOk, None};
ghost use Rattle.ttx_packet.specs.Slots.{IsSlot};
ghost use Rattle.ttx_cycle.specs.Counters.{inner_of, faults_of};
ghost use Rattle.ttx_monitor.specs.Watching.{Watched};
ghost use Rattle.ttx_monitor.specs.Standing.{Stands};
ghost use Rattle.ttx_monitor.specs.RightSlots.{IsRightNext};
ghost use Rattle.ttx_monitor.specs.Waiting.{IsLeft};
ghost use Rattle.ttx_files.specs.Devices.{AtFeed, input, IsFirstFailure};
ghost use Rattle.ttx_files.specs.Feeds.{failed_at};
ghost use Rattle.ttx_monitor.specs.Stepping.{BeginsWith, IsPlacedFor, IsHeardAs, IsStep};

use crate::ahead::Ahead;
use crate::comparison::{slot_breach, wrong_bits, wrong_bytes};
use crate::event::Event;
use crate::monitor::Monitor;
use crate::slips::slip;
use std::io::Read;
use ttx_cycle::Counted;
use ttx_files::FeedFault;

/// What comes next: what is made of a slot, or the end of the feed, with so many bytes behind its last slot.
#[derive(Clone, Copy)]
pub enum Step {
    Heard { event: Event },
    End { rest: usize },
}

/// By how many slots the feed has slipped at its next slot, if that cannot have been received and if it has. The monitor is moved.
pub fn shift_at<R: Read>(
    monitor: &mut Monitor<'_>,
    ahead: &mut Ahead,
    feed: &mut Counted<R>,
    slot: &[u8; 42],
) -> Result<Option<usize>, FeedFault>
    ensures placed { IfOk result (λ shift. (w : Watched) (slots : List (List ℕ)) (bytes : List ℕ) → Stands monitor.old w slots →
        IsLeft ahead.old (R.remaining (inner_of feed.old)) bytes → BeginsWith slot.now ahead.old →
        IsPlacedFor w slots bytes slot.now monitor.new ahead.new (R.remaining (inner_of feed.new)) shift) }
    ensures faults { IsFirstFailure (input AtFeed (R.remaining (inner_of feed.old)) (faults_of feed.old) (faults_of feed.new) ∷ [])
        (failed_at result) }
{
    ttx_cycle::arrays::is_slot(slot);
    if slot_breach(monitor.due(), slot).is_none() {
        return Ok(None);
    }
    let cycle = monitor.cycle();
    let count = cycle.slots().len();
    ahead.fill(feed, count)?;
    let place = monitor.place() % count;
    match slip(cycle, ahead.window(count), place) {
        Some(by) => {
            monitor.move_on(by);
            Ok(Some(by))
        }
        None => Ok(None),
    }
}

// What is made of a slot in which no byte is wrong.
fn right_event(monitor: &mut Monitor<'_>) -> Event
    ensures { (w : Watched) (slots : List (List ℕ)) (slot : List ℕ) → Stands monitor.old w slots →
        IsRightNext w monitor.old.table.items slots slot → IsHeardAs w slots slot None monitor.new result }
{
    monitor.hear_right();
    Event {
        shift: None,
        breach: None,
        wrong: 0,
        bits: 0,
        streak: monitor.streak(),
    }
}

// What is made of any slot.
fn event_of(monitor: &mut Monitor<'_>, slot: &[u8; 42], shift: Option<usize>) -> Event
    ensures { (w : Watched) (slots : List (List ℕ)) → Stands monitor.old w slots → IsHeardAs w slots slot.now shift monitor.new result }
{
    let due = monitor.due();
    let (wrong, bits) = (wrong_bytes(due, slot), wrong_bits(due, slot));
    let breach = monitor.hear(slot);
    Event {
        shift,
        breach,
        wrong,
        bits,
        streak: monitor.streak(),
    }
}

/// Judges the next slot of a feed, or finds its end.
pub fn hear_next<R: Read>(
    monitor: &mut Monitor<'_>,
    ahead: &mut Ahead,
    feed: &mut Counted<R>,
) -> Result<Step, FeedFault>
    ensures step { IfOk result (λ step. (w : Watched) (slots : List (List ℕ)) (bytes : List ℕ) → Stands monitor.old w slots →
        IsLeft ahead.old (R.remaining (inner_of feed.old)) bytes →
        IsStep w slots bytes monitor.new ahead.new (R.remaining (inner_of feed.new)) step) }
    ensures faults { IsFirstFailure (input AtFeed (R.remaining (inner_of feed.old)) (faults_of feed.old) (faults_of feed.new) ∷ [])
        (failed_at result) }
{
    ahead.fill(feed, 1)?;
    let Some(slot) = ahead.first() else {
        let rest = ahead.end().unwrap_or(0);
        return Ok(Step::End { rest });
    };
    if monitor.is_right(&slot) {
        ahead.pass();
        let event = right_event(monitor);
        return Ok(Step::Heard { event });
    }
    let shift = shift_at(monitor, ahead, feed, &slot)?;
    ahead.pass();
    let event = event_of(monitor, &slot, shift);
    Ok(Step::Heard { event })
}
