//! Readers of a feed: what a receiver got, slot by slot, from any slot of a cycle on.

ghost use Rattle.std.specs.Prelude.{◌≡◌, ◌++◌, ◌∷◌, [], IfOk, IfErr, OnOk};
ghost use Rattle.ttx_cycle.specs.Counters.{inner_of, faults_of};
ghost use Rattle.ttx_files.specs.Devices.{AtFeed, input, IsFirstFailure};
ghost use Rattle.ttx_files.specs.Feeds.{AnswersSlot, IsReadHead, failed_at};

use crate::faults::FeedFault;
use std::alloc::Global;
use std::io::Read;
use ttx_cycle::{Counted, CycleFault, SlotReader};

/// What comes next in a feed: a slot, or its end, with so many bytes after the last slot.
#[derive(Clone, Copy)]
pub enum Next {
    Slot,
    End { rest: usize },
}

/// The first slots of a feed, and how many bytes follow them if it ends there.
#[derive(Drop)]
pub struct Head {
    pub slots: Vec<[u8; 42]>,
    pub end: Option<usize>,
}

/// Reads the next slot. At the end of the feed `slot` may hold anything. Keeps nothing; the fault is `Read`.
pub fn next_slot<R: Read>(feed: &mut Counted<R>, slot: &mut [u8; 42]) -> Result<Next, FeedFault>
    ensures bytes { AnswersSlot (R.remaining (inner_of feed.old)) (R.remaining (inner_of feed.new)) slot.new result }
    ensures faults { IsFirstFailure (input AtFeed (R.remaining (inner_of feed.old)) (faults_of feed.old) (faults_of feed.new) ∷ [])
        (failed_at result) }
{
    let mut slots = SlotReader::new();
    match slots.next(feed, slot) {
        Ok(true) => Ok(Next::Slot),
        Ok(false) => Ok(Next::End { rest: 0 }),
        Err(CycleFault::Empty) => Ok(Next::End { rest: 0 }),
        Err(CycleFault::Truncated { rest }) => Ok(Next::End { rest }),
        Err(_) => Err(FeedFault::Read),
    }
}

// Keeps a slot.
fn keep(slots: &mut Vec<[u8; 42]>, slot: &[u8; 42]) -> Result<(), FeedFault>
    ensures slots { OnOk result (slots.new.items ≡ slots.old.items ++ slot.now ∷ []) }
    ensures fault { IfErr result (λ fault. fault ≡ FeedFault.NoMemory) }
{
    if slots.push(*slot).is_err() {
        return Err(FeedFault::NoMemory);
    }
    Ok(())
}

/// Reads the first `most` slots of a feed, or all where it has fewer.
pub fn read_head<R: Read>(
    alloc: Global,
    feed: &mut Counted<R>,
    most: usize,
) -> Result<Head, FeedFault>
    ensures bytes { IfOk result (IsReadHead most (R.remaining (inner_of feed.old)) (R.remaining (inner_of feed.new))) }
    ensures faults { IsFirstFailure (input AtFeed (R.remaining (inner_of feed.old)) (faults_of feed.old) (faults_of feed.new) ∷ [])
        (failed_at result) }
{
    let mut slots = Vec::new(alloc);
    let mut slot = [0; 42];
    for i in 0..most {
        match next_slot(feed, &mut slot)? {
            Next::Slot => keep(&mut slots, &slot)?,
            Next::End { rest } => {
                return Ok(Head {
                    slots,
                    end: Some(rest),
                });
            }
        }
    }
    Ok(Head { slots, end: None })
}
