//! Begins to judge a feed.

ghost use Rattle.std.specs.Prelude.{◌≤◌, ◌∷◌, [], ℕ, List, IfOk, IfSome, length};
ghost use Rattle.ttx_cycle.specs.Counters.{inner_of, faults_of};
ghost use Rattle.ttx_cycle.specs.Cycles.{slots_of};
ghost use Rattle.ttx_source.specs.Services.{pages_of};
ghost use Rattle.ttx_certificate.specs.Certificates.{certificate_of};
ghost use Rattle.ttx_files.specs.Devices.{AtFeed, input, IsFirstFailure};
ghost use Rattle.ttx_files.specs.Feeds.{failed_at};
ghost use Rattle.ttx_monitor.specs.FeedVerdicts.{StartsAt};
ghost use Rattle.ttx_monitor.specs.Beginnings.{IsOpened, IsBegun};

use crate::ahead::Ahead;
use crate::feed_start::find_start;
use crate::live_feed::Following;
use crate::monitor::Monitor;
use crate::tally::nothing_yet;
use std::alloc::Global;
use std::io::Read;
use ttx_cycle::arrays::are_slots;
use ttx_cycle::{Counted, Cycle};
use ttx_files::feeds::read_head;
use ttx_files::{FeedFault, Inputs};
use ttx_recognition::{Unlike, recognise};

/// A feed whose first period has been read: the slot of the cycle with which it begins, what it is if it has no packets of 42 bytes, and the slots
/// that wait to be judged.
#[derive(Drop)]
pub struct Opened {
    pub start: u32,
    pub found: Option<Unlike>,
    pub ahead: Ahead,
}

/// A feed before its first slot is judged.
#[derive(Drop)]
pub struct Begun<'a> {
    pub start: u32,
    pub found: Option<Unlike>,
    pub following: Following<'a>,
}

// The slot of the cycle with which the feed begins: the one that is named, or the one that is found.
fn start_in(cycle: &Cycle, named: Option<u32>, head: &[[u8; 42]]) -> u32
    requires few { length head.now ≤ 65536 }
    ensures { StartsAt (slots_of cycle.now) head.now named result }
{
    match named {
        Some(start) => start,
        None => find_start(cycle, head),
    }
}

/// Reads the first period of a feed, recognises what it is, and finds the slot of the cycle with which it begins if that is not named. `Err` if
/// a read fails or memory runs out.
pub fn open<R: Read>(
    alloc: Global,
    cycle: &Cycle,
    named: Option<u32>,
    feed: &mut Counted<R>,
) -> Result<Opened, FeedFault>
    ensures bytes { IfOk result (λ opened. IfSome (R.remaining (inner_of feed.old)) (λ bytes.
        IsOpened (slots_of cycle.now) named bytes (R.remaining (inner_of feed.new)) opened)) }
    ensures faults { IsFirstFailure (input AtFeed (R.remaining (inner_of feed.old)) (faults_of feed.old) (faults_of feed.new) ∷ [])
        (failed_at result) }
{
    let head = read_head(alloc, feed, cycle.slots().len())?;
    are_slots(head.slots.as_slice());
    let start = start_in(cycle, named, head.slots.as_slice());
    let found = recognise(head.slots.as_slice().as_flattened());
    Ok(Opened {
        start,
        found,
        ahead: Ahead::new(head),
    })
}

/// Begins to judge a feed with a new monitor. `Err` if a read fails or memory runs out.
pub fn begin<'a, R: Read>(
    alloc: Global,
    inputs: &'a Inputs,
    named: Option<u32>,
    feed: &mut Counted<R>,
) -> Result<Begun<'a>, FeedFault>
    ensures bytes { IfOk result (λ begun. IfSome (R.remaining (inner_of feed.old)) (λ bytes.
        IsBegun (slots_of inputs.entry.now.cycle) (pages_of inputs.entry.now.service) (certificate_of inputs.entry.now.certificate) named bytes
        (R.remaining (inner_of feed.new)) begun)) }
    ensures faults { IsFirstFailure (input AtFeed (R.remaining (inner_of feed.old)) (faults_of feed.old) (faults_of feed.new) ∷ [])
        (failed_at result) }
{
    let (cycle, service) = (&inputs.cycle, &inputs.service);
    let Opened {
        start,
        found,
        ahead,
    } = open(alloc, cycle, named, feed)?;
    let Ok(monitor) = Monitor::new(alloc, cycle, service, &inputs.certificate, start) else {
        return Err(FeedFault::NoMemory);
    };
    Ok(Begun {
        start,
        found,
        following: Following {
            monitor,
            ahead,
            tally: nothing_yet(),
        },
    })
}
