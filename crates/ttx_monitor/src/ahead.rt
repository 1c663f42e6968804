//! The slots of a feed that have been read and are still to be judged.

ghost use Rattle.std.specs.Prelude.{◌≤◌, length};

use std::io::Read;
use ttx_cycle::Counted;
use ttx_files::FeedFault;
use ttx_files::feeds::{Head, Next, next_slot};

/// Slots that have been read, of which those from `at` on are still to be judged, and how many bytes follow them if the feed ends there.
#[derive(Drop)]
pub struct Ahead {
    slots: Vec<[u8; 42]>,
    at: usize,
    end: Option<usize>,
    ghost inside: { at ≤ length slots.items },
}

impl Ahead {
    ghost use Rattle.std.specs.Prelude.{◌≡◌, ◌∷◌, [], ℕ, List, None, IfOk, IfErr, MatchOption, length, take};
    ghost use Rattle.ttx_cycle.specs.Counters.{inner_of, faults_of};
    ghost use Rattle.ttx_packet.specs.Slots.{IsSlot};
    ghost use Rattle.ttx_files.specs.Devices.{AtFeed, input, IsFirstFailure};
    ghost use Rattle.ttx_files.specs.Feeds.{failed_at};
    ghost use Rattle.ttx_monitor.specs.Waiting.{waiting, IsLeft, HasMore, HasOneMore, IsEnough};

    /// What was read first of a feed.
    pub fn new(head: Head) -> Ahead
        ensures waiting { waiting result ≡ head.slots.items }
        ensures end { result.end ≡ head.end }
    {
        Ahead {
            slots: head.slots,
            at: 0,
            end: head.end,
        }
    }

    // Drops the slots that have been judged, if they are all or many.
    fn forget(&mut self) -> Result<(), FeedFault>
        ensures waiting { IfOk result (λ _. waiting self.new ≡ waiting self.old) }
        ensures end { self.new.end ≡ self.old.end }
        ensures faults { IfErr result (λ fault. fault ≡ FeedFault.NoMemory) }
    {
        let at = self.at;
        if at == self.slots.len() {
            self.at = 0;
            self.slots.clear();
        } else if at >= 4096 {
            self.at = 0;
            let Ok(kept) = self.slots.split_off(at) else {
                return Err(FeedFault::NoMemory);
            };
            self.slots = kept;
        }
        Ok(())
    }

    // Reads one more slot, or the end of the feed: whether there was a slot.
    fn read_one<R: Read>(&mut self, feed: &mut Counted<R>) -> Result<bool, FeedFault>
        requires { self.old.end ≡ None }
        ensures left { IfOk result (λ _. (bytes : List ℕ) → IsLeft self.old (R.remaining (inner_of feed.old)) bytes →
            IsLeft self.new (R.remaining (inner_of feed.new)) bytes) }
        ensures more { IfOk result (λ _. HasMore self.old self.new) }
        ensures one { IfOk result (λ is_slot. HasOneMore is_slot self.old self.new) }
        ensures faults { IsFirstFailure (input AtFeed (R.remaining (inner_of feed.old)) (faults_of feed.old) (faults_of feed.new) ∷ [])
            (failed_at result) }
    {
        let mut slot = [0; 42];
        match next_slot(feed, &mut slot)? {
            Next::Slot => {
                if self.slots.push(slot).is_err() {
                    return Err(FeedFault::NoMemory);
                }
                Ok(true)
            }
            Next::End { rest } => {
                self.end = Some(rest);
                Ok(false)
            }
        }
    }

    /// Reads on until `most` slots are waiting, or the feed ends.
    pub fn fill<R: Read>(&mut self, feed: &mut Counted<R>, most: usize) -> Result<(), FeedFault>
        ensures left { IfOk result (λ _. (bytes : List ℕ) → IsLeft self.old (R.remaining (inner_of feed.old)) bytes →
            IsLeft self.new (R.remaining (inner_of feed.new)) bytes) }
        ensures more { IfOk result (λ _. HasMore self.old self.new) }
        ensures enough { IfOk result (λ _. IsEnough most self.new) }
        ensures faults { IsFirstFailure (input AtFeed (R.remaining (inner_of feed.old)) (faults_of feed.old) (faults_of feed.new) ∷ [])
            (failed_at result) }
    {
        self.forget()?;
        if self.end.is_some() {
            return Ok(());
        }
        for _i in 0..most {
            if self.slots.len() - self.at >= most {
                return Ok(());
            }
            let is_slot = self.read_one(feed)?;
            if !is_slot {
                return Ok(());
            }
        }
        Ok(())
    }

    /// The first slot that is waiting.
    pub fn first(&self) -> Option<[u8; 42]>
        ensures { MatchOption result (waiting self.now ≡ []) (λ slot. IsSlot slot × ((more : List (List ℕ)) × (waiting self.now ≡ slot ∷ more))) }
    {
        if self.at < self.slots.len() {
            let slot = self.slots[self.at];
            ttx_cycle::arrays::is_slot(&slot);
            Some(slot)
        } else {
            None
        }
    }

    /// Up to `most` slots that are waiting.
    pub fn window(&self, most: usize) -> &[[u8; 42]]
        ensures { result.now ≡ take most (waiting self.now) }
    {
        let rest = &self.slots.as_slice()[self.at..];
        &rest[..most.min(rest.len())]
    }

    /// How many bytes follow the last slot, if the end of the feed has been read.
    pub fn end(&self) -> Option<usize>
        ensures { result ≡ self.now.end }
    {
        self.end
    }

    /// The first slot has been judged.
    pub fn pass(&mut self)
        ensures waiting { (slot : List ℕ) (more : List (List ℕ)) → waiting self.old ≡ slot ∷ more → waiting self.new ≡ more }
        ensures end { self.new.end ≡ self.old.end }
    {
        if self.at < self.slots.len() {
            self.at += 1;
        }
    }
}
