//! Monitors: whether a feed of received slots stays within the error rule for each page of a service. No slot is stored.

ghost use Rattle.std.specs.Prelude.{◌≡◌, ◌↔◌, ◌<◌, ◌≤◌, IsTrue, ℕ, length, slice_index_or, None, [], ◌+◌, ◌-◌, ◌%◌, ◌^◌, min};
ghost use Rattle.ttx_packet.specs.Slots.{IsSlot};
ghost use Rattle.ttx_cycle.specs.Cycles.{slots_of};
ghost use Rattle.ttx_certificate.specs.Certificates.{certificate_of};
ghost use Rattle.ttx_witness.specs.Coverage.{limit as slots_to};
ghost use Rattle.ttx_monitor.specs.Breaches.{first_told};

use crate::breach::{Breach, TextByte};
use crate::comparison::{is_right, slot_breach, wrong_bytes};
use crate::places::RowPlace;
use crate::streaks::{Pair, clear_all, clear_row, longest_with, no_streaks, note, text_end};
use crate::table::table_of;
use std::alloc::Global;
use ttx_cycle::Cycle;
use ttx_cycle::arrays::is_slot;
use ttx_page::Page;
use ttx_source::Service;
use ttx_witness::{Certificate, NoMemory, limit};

/// The state of a monitor: its place in the cycle, the streak of each text byte, and whether the feed has stayed within the error rule so far.
#[derive(Drop)]
pub struct Monitor<'a> {
    cycle: &'a Cycle,
    table: Vec<Option<RowPlace>>,
    cells: Vec<u8>,
    repeat: u8,
    at: usize,
    within: bool,
    longest: u8,
    wrong: u64,
    count: u64,
}

// The slot of the cycle at a place, or its first slot if the place is past its end.
fn slot_at(cycle: &Cycle, at: usize) -> &[u8; 42]
    ensures slot { IsSlot result.now }
    ensures is { at < length (slots_of cycle.now) → result.now ≡ slice_index_or (slots_of cycle.now) at [] }
{
    let slots = cycle.slots();
    if at < slots.len() {
        &slots[at]
    } else {
        &slots[0]
    }
}

// The entry at a place of the table.
fn place_at(table: &[Option<RowPlace>], at: usize) -> Option<RowPlace>
    ensures { result ≡ slice_index_or table.now at None }
{
    if at < table.len() { table[at] } else { None }
}

/// The place after `at` in a cycle of `count` slots. After the last one comes the first.
pub fn next(at: usize, count: usize) -> usize
    ensures { at < count → result ≡ (at + 1) % count }
{
    if at < count && at + 1 < count {
        at + 1
    } else {
        0
    }
}

// Counts one more slot, up to the largest number.
fn one_more(count: u64) -> u64
    ensures { result ≡ min (count + 1) (2 ^ 64 - 1) }
{
    count.saturating_add(1)
}

// Adds a number, up to the largest number.
fn added(count: u64, more: u8) -> u64
    ensures { result ≡ min (count + more) (2 ^ 64 - 1) }
{
    count.saturating_add(u64::from(more))
}

// The place so many slots on in a cycle of `count` slots.
fn place_on(at: usize, by: usize, count: usize) -> usize
    requires some { 1 ≤ count }
    requires few { count ≤ 65536 }
    ensures { at < count → by < count → result ≡ (at + by) % count }
{
    at.saturating_add(by) % count
}

// Whether so many slots reach the deadline of a certificate.
fn reaches(certificate: &Certificate, count: u64) -> bool
    ensures exact { IsTrue result ↔ (slots_to (certificate_of certificate.now) ≤ count) }
    ensures few { slots_to (certificate_of certificate.now) < 2 ^ 64 }
{
    u64::from(limit(certificate)) <= count
}

// How a slot breaks the rule: by itself; otherwise by the byte that has now been wrong too often.
fn first_told(alone: Option<Breach>, repeated: Option<TextByte>) -> Option<Breach>
    ensures { result ≡ first_told alone repeated }
{
    match alone {
        Some(breach) => Some(breach),
        None => match repeated {
            Some(byte) => Some(Breach::Repeated(byte)),
            None => None,
        },
    }
}

impl<'a> Monitor<'a> {
    ghost use Rattle.std.specs.Prelude.{◌≡◌, ◌≢◌, ◌↔◌, ◌<◌, ◌≤◌, ◌-◌, ◌^◌, min, true, ◌++◌, ◌∷◌, [], ℕ, List, IfOk, IsTrue, Some, None, length, map};
    ghost use Rattle.std.specs.List.{AllPairs};
    ghost use Rattle.ttx_packet.specs.Slots.{IsSlot};
    ghost use Rattle.ttx_page.specs.Views.{page_of, ids_of};
    ghost use Rattle.ttx_cycle.specs.Cycles.{slots_of};
    ghost use Rattle.ttx_monitor.specs.Watching.{Watched, watched, sent_at, AllReceived, IsWithin};
    ghost use Rattle.ttx_witness.specs.Coverage.{Accepts, limit};
    ghost use Rattle.ttx_source.specs.Services.{pages_of};
    ghost use Rattle.ttx_certificate.specs.Certificates.{certificate_of};
    ghost use Rattle.ttx_certify.specs.Laws.{ArePages};
    ghost use Rattle.ttx_monitor.specs.Laws.{IsSeenIn};
    ghost use Rattle.ttx_monitor.specs.Breaches.{IsHeard};
    ghost use Rattle.ttx_monitor.specs.Standing.{Stands};
    ghost use Rattle.ttx_monitor.specs.RightSlots.{IsRightNext};
    ghost use Rattle.ttx_monitor.specs.Events.{place_of, moved};
    ghost use Rattle.ttx_monitor.specs.MostWrong.{IsMostWrong};
    ghost use Rattle.ttx_monitor.specs.Totals.{wrong_bytes, IsLongestStreak};

    /// A monitor for the pages of a service, with the certificate's repeat count. The feed begins with slot `start` of the cycle. Allocates all
    /// memory of the monitor. `Err` if memory runs out.
    pub fn new(
        alloc: Global,
        cycle: &'a Cycle,
        service: &Service,
        certificate: &Certificate,
        start: u32,
    ) -> Result<Monitor<'a>, NoMemory>
        ensures { IfOk result (λ m. Stands m
            (watched (slots_of cycle.entry.now) (pages_of service.now) (certificate_of certificate.now).repeat start) []) }
    {
        ttx_witness::certificate_laws::certificates_keep_their_rules();
        Monitor::over(alloc, cycle, service.pages(), certificate.repeat(), start)
    }

    // A monitor for pages with distinct ids.
    fn over(
        alloc: Global,
        cycle: &'a Cycle,
        pages: &[Page],
        repeat: u8,
        start: u32,
    ) -> Result<Monitor<'a>, NoMemory>
        requires some { 1 ≤ repeat }
        requires distinct { AllPairs (λ a b. a ≢ b) (ids_of pages.now) }
        ensures { IfOk result (λ m. Stands m (watched (slots_of cycle.entry.now) (map page_of pages.now) repeat start) []) }
    {
        ttx_page::laws::pages_keep_their_rules();
        let table = table_of(alloc, cycle, pages)?;
        let cells = no_streaks(alloc, pages.len())?;
        let at = start as usize % cycle.slots().len();
        Ok(Monitor {
            cycle,
            table,
            cells,
            repeat,
            at,
            within: true,
            longest: 0,
            wrong: 0,
            count: 0,
        })
    }

    /// Whether no byte of the next slot of the feed is wrong. Allocates no memory.
    pub(crate) fn is_right(&self, slot: &[u8; 42]) -> bool
        ensures { (w : Watched) (feed : List (List ℕ)) → Stands self.now w feed → result ≡ true → IsRightNext w self.now.table.items feed slot.now }
    {
        is_slot(slot);
        let place = place_at(self.table.as_slice(), self.at);
        is_right(slot_at(self.cycle, self.at), slot, text_end(place))
    }

    /// Takes the next slot of the feed, in which no byte is wrong, without another look at it. Allocates no memory.
    pub(crate) fn hear_right(&mut self)
        ensures stands { (w : Watched) (feed : List (List ℕ)) (slot : List ℕ) → Stands self.old w feed →
            IsRightNext w self.old.table.items feed slot → Stands self.new w (feed ++ slot ∷ []) }
        ensures heard { (w : Watched) (feed : List (List ℕ)) (slot : List ℕ) → Stands self.old w feed →
            IsRightNext w self.old.table.items feed slot → IsHeard w feed slot None }
    {
        ttx_packet::laws::rows_are_numbered();
        ttx_page::laws::each_slot_turns();
        ttx_page::laws::streams_move();
        ttx_counter::laws::streaks_decide();
        let place = place_at(self.table.as_slice(), self.at);
        clear_row(&mut self.cells, place);
        self.at = next(self.at, self.cycle.slots().len());
        self.count = one_more(self.count);
    }

    /// Takes the next slot of the feed, and returns how it breaks the error rule, if it does. Allocates no memory.
    pub fn hear(&mut self, slot: &[u8; 42]) -> Option<Breach>
        ensures stands { (w : Watched) (feed : List (List ℕ)) → Stands self.old w feed → Stands self.new w (feed ++ slot.now ∷ []) }
        ensures heard { (w : Watched) (feed : List (List ℕ)) → Stands self.old w feed → IsHeard w feed slot.now result }
        ensures first { (w : Watched) (feed : List (List ℕ)) → Stands self.old w feed → IsWithin w feed →
            (result ≡ None) ↔ IsWithin w (feed ++ slot.now ∷ []) }
    {
        ttx_packet::laws::rows_are_numbered();
        ttx_page::laws::each_slot_turns();
        ttx_page::laws::streams_move();
        ttx_counter::laws::streaks_decide();
        is_slot(slot);
        if self.is_right(slot) {
            self.hear_right();
            return None;
        }
        let sent = slot_at(self.cycle, self.at);
        let place = place_at(self.table.as_slice(), self.at);
        let pair = Pair {
            sent,
            received: slot,
        };
        let repeated = note(&mut self.cells, place, &pair, self.repeat);
        self.longest = longest_with(self.longest, &self.cells, place, &pair);
        self.wrong = added(self.wrong, wrong_bytes(sent, slot));
        self.at = next(self.at, self.cycle.slots().len());
        let breach = first_told(slot_breach(sent, slot), repeated);
        self.within = self.within && breach.is_none();
        self.count = one_more(self.count);
        breach
    }

    /// What was sent where the next slot of the feed is received. Allocates no memory.
    pub fn due(&self) -> &[u8; 42]
        ensures slot { IsSlot result.now }
        ensures is { (w : Watched) (feed : List (List ℕ)) → Stands self.now w feed → result.now ≡ sent_at w (length feed) }
    {
        slot_at(self.cycle, self.at)
    }

    /// The cycle that is watched.
    pub fn cycle(&self) -> &'a Cycle
        ensures { (w : Watched) (feed : List (List ℕ)) → Stands self.now w feed → slots_of result.now ≡ w.cycle }
    {
        self.cycle
    }

    /// The place in the cycle of the next slot of the feed. Allocates no memory.
    pub fn place(&self) -> usize
        ensures { (w : Watched) (feed : List (List ℕ)) → Stands self.now w feed → result ≡ place_of w (length feed) }
    {
        self.at
    }

    /// The feed goes on so many slots further on in the cycle, and is judged as one that begins there. Allocates no memory.
    pub fn move_on(&mut self, by: usize)
        ensures { (w : Watched) (feed : List (List ℕ)) → Stands self.old w feed → by < length w.cycle →
            Stands self.new (moved w (length feed) (Some by)) [] }
    {
        let count = self.cycle.slots().len();
        self.at = place_on(self.at, by, count);
        clear_all(&mut self.cells);
        self.within = true;
        self.longest = 0;
        self.wrong = 0;
        self.count = 0;
    }

    /// In how many successive transmissions, up to the repeat count, a text byte was wrong at most. Allocates no memory.
    pub fn streak(&self) -> u8
        ensures { (w : Watched) (feed : List (List ℕ)) → Stands self.now w feed → IsMostWrong w feed result }
    {
        ttx_packet::laws::rows_are_numbered();
        ttx_page::laws::each_slot_turns();
        ttx_page::laws::streams_move();
        ttx_counter::laws::streaks_decide();
        self.longest
    }

    /// Whether the feed so far is within the error rule for each page. Allocates no memory.
    pub fn within(&self) -> bool
        ensures within { (w : Watched) (feed : List (List ℕ)) → Stands self.now w feed → IsTrue result ↔ IsWithin w feed }
        ensures received { (w : Watched) (feed : List (List ℕ)) → Stands self.now w feed → 0 < length w.pages → IsTrue result ↔ AllReceived w feed }
    {
        ttx_packet::laws::rows_are_numbered();
        ttx_page::laws::each_slot_turns();
        ttx_page::laws::streams_move();
        ttx_counter::laws::streaks_decide();
        self.within
    }

    /// How many slots have been taken. The count stops at 2^64 - 1. Allocates no memory.
    pub fn count(&self) -> u64
        ensures { (w : Watched) (feed : List (List ℕ)) → Stands self.now w feed → result ≡ min (length feed) (2 ^ 64 - 1) }
    {
        self.count
    }

    /// How many bytes were not received as they were sent, without the clocks of page headers and the bytes of packet 8/30 behind its
    /// address. The count stops at 2^64 - 1. Allocates no memory.
    pub fn wrong(&self) -> u64
        ensures { (w : Watched) (feed : List (List ℕ)) → Stands self.now w feed → result ≡ min (wrong_bytes w feed (length feed)) (2 ^ 64 - 1) }
    {
        self.wrong
    }

    /// In how many successive transmissions a text byte was wrong at most, where the feed is within the error rule. Allocates no memory.
    pub fn longest(&self) -> u8
        ensures { (w : Watched) (feed : List (List ℕ)) → Stands self.now w feed → IsWithin w feed → IsLongestStreak w feed result }
    {
        ttx_packet::laws::rows_are_numbered();
        ttx_page::laws::each_slot_turns();
        ttx_page::laws::streams_move();
        ttx_counter::laws::streaks_decide();
        self.longest
    }

    /// Whether the feed is within the error rule and at least as long as the certificate's deadline. If so, and if the cycle is accepted with
    /// the certificate, each permitted receiver of this feed has the View of each page. Allocates no memory.
    pub fn lasts(&self, certificate: &Certificate) -> bool
        ensures exact { (w : Watched) (feed : List (List ℕ)) → Stands self.now w feed →
            IsTrue result ↔ (IsWithin w feed × (limit (certificate_of certificate.now) ≤ length feed)) }
        ensures seen { (w : Watched) (feed : List (List ℕ)) → Stands self.now w feed → IsTrue result → ArePages w.pages →
            (certificate_of certificate.now).repeat ≡ w.repeat → Accepts w.cycle w.pages (certificate_of certificate.now) →
            IsSeenIn w feed (certificate_of certificate.now) }
    {
        crate::laws::within_is_seen();
        ttx_witness::certificate_laws::certificates_keep_their_rules();
        if !self.within() {
            return false;
        }
        reaches(certificate, self.count)
    }
}
