//! Row monitors: whether a feed of received slots stays within the error rule by rows for each page of a service. No slot is stored.

ghost use Rattle.std.specs.Prelude.{◌≡◌, ◌+◌, ◌-◌, ◌^◌, min, true, false, slice_index_or};
ghost use Rattle.ttx_row_monitor.specs.RowBreaches.{row_breach};

use crate::breach::RowBreach;
use crate::flags::flags_of;
use crate::muted_rows::{arrives, is_lost, muted};
use std::alloc::Global;
use std::io::Read;
use ttx_cycle::arrays::is_slot;
use ttx_cycle::{Counted, Cycle};
use ttx_files::FeedFault;
use ttx_monitor::step::shift_at;
use ttx_monitor::{Ahead, Breach, Monitor};
use ttx_page::Page;
use ttx_source::Service;
use ttx_witness::{Certificate, NoMemory};

/// The state of a row monitor: a monitor of the feed with torn rows in place of those that are refused or lost; which slots of the cycle send a
/// row that a viewer sees; and how many packets were lost.
#[derive(Drop)]
pub struct RowMonitor<'a> {
    monitor: Monitor<'a>,
    pages: &'a [Page],
    flags: Vec<bool>,
    lost: u64,
}

// The flag at a place.
fn flag_at(flags: &[bool], at: usize) -> bool
    ensures { result ≡ slice_index_or flags.now at false }
{
    if at < flags.len() { flags[at] } else { false }
}

// Counts one more, up to the largest number.
fn counted(count: u64, more: bool) -> u64
    ensures more { more ≡ true → result ≡ min (count + 1) (2 ^ 64 - 1) }
    ensures same { more ≡ false → result ≡ count }
{
    if more { count.saturating_add(1) } else { count }
}

// How a slot breaks the rule by rows.
fn breach_of(breach: Breach) -> RowBreach
    ensures { result ≡ row_breach breach }
{
    match breach {
        Breach::Repeated(byte) => RowBreach::Row {
            page: byte.page,
            row: byte.row,
        },
        Breach::Unasked | Breach::Lost | Breach::Bits(_) => RowBreach::Slot(breach),
    }
}

impl<'a> RowMonitor<'a> {
    ghost use Rattle.std.specs.Prelude.{◌≡◌, ◌↔◌, ◌-◌, ◌^◌, ◌≤◌, min, ◌++◌, ◌∷◌, [], ℕ, List, IfOk, IsTrue, None, length};
    ghost use Rattle.ttx_packet.specs.Slots.{IsSlot};
    ghost use Rattle.ttx_cycle.specs.Counters.{inner_of, faults_of};
    ghost use Rattle.ttx_cycle.specs.Cycles.{slots_of};
    ghost use Rattle.ttx_source.specs.Services.{pages_of};
    ghost use Rattle.ttx_certificate.specs.Certificates.{certificate_of};
    ghost use Rattle.ttx_files.specs.Devices.{AtFeed, input, IsFirstFailure};
    ghost use Rattle.ttx_files.specs.Feeds.{failed_at};
    ghost use Rattle.ttx_monitor.specs.Watching.{Watched, watched, sent_at};
    ghost use Rattle.ttx_monitor.specs.Stepping.{BeginsWith};
    ghost use Rattle.ttx_monitor.specs.Waiting.{IsLeft};
    ghost use Rattle.ttx_row_monitor.specs.RowFeeds.{Arrives, IsWithinByRows};
    ghost use Rattle.ttx_row_monitor.specs.RowStanding.{HasLost, RowStands, IsRowHeard};
    ghost use Rattle.ttx_row_monitor.specs.RowStepping.{IsRowPlaced};

    /// A row monitor for the pages of a service, with the certificate's repeat count. The feed begins with slot `start` of the cycle. Allocates
    /// all memory of the monitor. `Err` if memory runs out.
    pub fn new(
        alloc: Global,
        cycle: &'a Cycle,
        service: &'a Service,
        certificate: &Certificate,
        start: u32,
    ) -> Result<RowMonitor<'a>, NoMemory>
        ensures { IfOk result (λ m. RowStands m
            (watched (slots_of cycle.entry.now) (pages_of service.entry.now) (certificate_of certificate.now).repeat start) []) }
    {
        ttx_page::laws::pages_keep_their_rules();
        let pages = service.pages();
        let flags = flags_of(alloc, cycle, pages)?;
        let monitor = Monitor::new(alloc, cycle, service, certificate, start)?;
        Ok(RowMonitor {
            monitor,
            pages,
            flags,
            lost: 0,
        })
    }

    /// Takes the next slot of the feed, and returns how it breaks the rule, if it does. Allocates no memory.
    pub fn hear(&mut self, slot: &[u8; 42]) -> Option<RowBreach>
        ensures stands { (w : Watched) (feed : List (List ℕ)) → RowStands self.old w feed → RowStands self.new w (feed ++ slot.now ∷ []) }
        ensures heard { (w : Watched) (feed : List (List ℕ)) → RowStands self.old w feed → IsRowHeard w feed slot.now result }
        ensures first { (w : Watched) (feed : List (List ℕ)) → RowStands self.old w feed → IsWithinByRows w feed →
            (result ≡ None) ↔ IsWithinByRows w (feed ++ slot.now ∷ []) }
    {
        ttx_page::laws::each_slot_turns();
        ttx_page::laws::streams_move();
        is_slot(slot);
        let due = *self.monitor.due();
        let flag = flag_at(self.flags.as_slice(), self.monitor.place());
        let packet = muted(self.pages, flag, &due, slot);
        self.lost = counted(self.lost, is_lost(self.pages, &due, slot));
        match self.monitor.hear(&packet) {
            Some(breach) => Some(breach_of(breach)),
            None => None,
        }
    }

    /// Whether a slot may come next: it arrives, or is lost where it may be. Allocates no memory.
    pub fn takes(&self, slot: &[u8; 42]) -> bool
        ensures { (w : Watched) (feed : List (List ℕ)) → RowStands self.now w feed →
            IsTrue result ↔ Arrives w.pages (sent_at w (length feed)) slot.now }
    {
        is_slot(slot);
        arrives(self.pages, self.monitor.due(), slot)
    }

    /// By how many slots the feed has slipped at its next slot, if that does not arrive and if it has.
    pub fn slip<R: Read>(
        &mut self,
        ahead: &mut Ahead,
        feed: &mut Counted<R>,
        slot: &[u8; 42],
    ) -> Result<Option<usize>, FeedFault>
        ensures placed { IfOk result (λ shift. (w : Watched) (slots : List (List ℕ)) (bytes : List ℕ) → RowStands self.old w slots →
            IsLeft ahead.old (R.remaining (inner_of feed.old)) bytes → BeginsWith slot.now ahead.old →
            IsRowPlaced w slots bytes slot.now self.new ahead.new (R.remaining (inner_of feed.new)) shift) }
        ensures faults { IsFirstFailure (input AtFeed (R.remaining (inner_of feed.old)) (faults_of feed.old) (faults_of feed.new) ∷ [])
            (failed_at result) }
    {
        if self.takes(slot) {
            return Ok(None);
        }
        shift_at(&mut self.monitor, ahead, feed, slot)
    }

    /// How many slots have been taken. The count stops at 2^64 - 1. Allocates no memory.
    pub fn count(&self) -> u64
        ensures { (w : Watched) (feed : List (List ℕ)) → RowStands self.now w feed → result ≡ min (length feed) (2 ^ 64 - 1) }
    {
        self.monitor.count()
    }

    /// How many packets were lost where they may be. The count stops at 2^64 - 1. Allocates no memory.
    pub fn lost(&self) -> u64
        ensures { (w : Watched) (feed : List (List ℕ)) → RowStands self.now w feed →
            (count : ℕ) × HasLost w feed (length feed) count × (result ≡ min count (2 ^ 64 - 1)) }
    {
        self.lost
    }
}
