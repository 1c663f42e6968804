//! Checks counter-runs.

ghost use Rattle.std.specs.Prelude.{◌≡◌, ℕ, ◌*◌, ◌<◌, ◌≤◌, ◌↔◌, IsTrue, IfOk, true, Some, length, map, slice_get, All, IsPermutation};
ghost use Rattle.std.specs.List.Sorted.{IsNonDecreasing};
ghost use Rattle.ttx_packet.specs.Slots.{is_empty};
ghost use Rattle.ttx_page.specs.Pages as definitions;
ghost use Rattle.ttx_page.specs.Streams.{repeated};
ghost use Rattle.ttx_page.specs.Views.{page_of, memory_of};
ghost use Rattle.ttx_certify.specs.Seen.{HasView};
ghost use Rattle.ttx_render.specs.Comparison.{SameButClock};
ghost use Rattle.ttx_render.specs.View.{view_of};
ghost use Rattle.ttx_cycle.specs.Cycles.{slots_of};
ghost use Rattle.ttx_counter.specs.Counters.{counter_run_of, selection_for, AreCertificateNumbers, IsHit, IsCounterRun};
ghost use Rattle.ttx_counter.specs.Keys.{key_at, hit_key, AreHitOnce, IsKey};
ghost use Rattle.ttx_counter.specs.Checking.{IsInRange, IsJudgedWithin, IsRefuting};

use crate::counter::{Counter, Hit};
use crate::keys::{are_apart, sorted_keys};
use crate::rule::hear_within_rule;
use crate::run_slots::place;
use crate::scripted_receiver::Run;
use std::alloc::Global;
use ttx_cycle::Cycle;
use ttx_header::PageId;
use ttx_page::{Page, PageMemory, Selection};
use ttx_receiver::{Receiver, Scripted};
use ttx_render::{View, render, same_but_clock};
use ttx_witness::NoMemory;

/// What the receiver is set to.
pub fn selection_for(any_sub: bool, id: PageId) -> Selection
    ensures { result ≡ selection_for any_sub id }
{
    if any_sub {
        Selection::AnySub(id.mag(), id.page())
    } else {
        Selection::Exact(id)
    }
}

// Whether the numbers are in the ranges of a certificate.
fn are_numbers(lines: u8, repeat: u8, deadline: u32) -> bool
    ensures { IsTrue result ↔ AreCertificateNumbers lines repeat deadline }
{
    1 <= lines
        && lines <= 32
        && 1 <= repeat
        && repeat <= 8
        && 1 <= deadline
        && deadline <= 1_000_000
}

// Whether `slots` slots are the deadline or longer.
fn lasts(lines: u8, deadline: u32, slots: u32) -> bool
    ensures { IsTrue result ↔ (deadline * lines ≤ slots) }
{
    u64::from(deadline) * u64::from(lines) <= u64::from(slots)
}

fn is_empty(slot: &[u8; 42]) -> bool
    ensures { result ≡ is_empty slot.now }
{
    slot.iter().all(|b| *b == 0)
}

// Whether a hit is a bit of a slot of the run that is not empty.
fn is_hit(cycle: &Cycle, start: u32, count: u32, hit: Hit) -> bool
    ensures { IsTrue result ↔ IsHit (repeated (slots_of cycle.now)) start count hit }
{
    let slots = cycle.slots();
    hit.index < count
        && hit.byte < 42
        && 1 <= hit.bit
        && hit.bit <= 8
        && !is_empty(&slots[place(start, hit.index, slots.len())])
}

// The same for all hits.
fn are_hits(cycle: &Cycle, start: u32, count: u32, hits: &[Hit]) -> bool
    ensures { IsTrue result ↔ All (IsHit (repeated (slots_of cycle.now)) start count) hits.now }
{
    for hit in hits {
        if !is_hit(cycle, start, count, *hit) {
            return false;
        }
    }
    true
}

// Whether the numbers, the selection and the hits are in their ranges.
fn is_in_range(cycle: &Cycle, pages: &[Page], index: usize, counter: &Counter) -> bool
    requires { index < length pages.now }
    ensures { (p : definitions.Page) → slice_get (map page_of pages.now) index ≡ Some p →
        IsTrue result ↔ IsInRange (slots_of cycle.now) (map page_of pages.now) p (counter_run_of counter.now) }
{
    let selection = selection_for(counter.any_sub, pages[index].id());
    selection.fits(pages, index)
        && are_numbers(counter.lines, counter.repeat, counter.deadline)
        && lasts(counter.lines, counter.deadline, counter.slots)
        && are_hits(cycle, counter.start, counter.slots, &counter.hits)
}

/// Whether the memory's View differs from `own`, ignoring the header clock.
pub fn is_unlike(own: &View, memory: &PageMemory) -> bool
    ensures { IsTrue result ↔ (SameButClock (view_of (memory_of memory.now)) own.now → ⊥) }
{
    !same_but_clock(&render(memory), own)
}

// Whether the memory does not have the page's View.
fn is_wrong(page: &Page, memory: &PageMemory) -> bool
    ensures { IsTrue result ↔ (HasView (page_of page.now) (memory_of memory.now) → ⊥) }
{
    is_unlike(&render(&PageMemory::of(page)), memory)
}

// Whether the hits keep the rule of k, and the receiver's View is wrong after the run.
fn ends_wrong(
    alloc: Global,
    cycle: &Cycle,
    page: &Page,
    counter: &Counter,
    keys: &[u64],
) -> Result<bool, NoMemory>
    requires some { 1 ≤ (counter_run_of counter.now).repeat }
    requires sorted { IsNonDecreasing keys.now }
    requires apart { AreHitOnce keys.now }
    requires keys { (i : ℕ) → i < length keys.now → IsKey (key_at keys.now i) }
    ensures { IfOk result (IsJudgedWithin (repeated (slots_of cycle.now)) keys.now (page_of page.now) (counter_run_of counter.now)) }
{
    let run = Run {
        cycle,
        start: counter.start,
        count: counter.slots,
        keys,
    };
    let selection = selection_for(counter.any_sub, page.id());
    let mut receiver = Scripted::new(selection, counter.lines, counter.former, &counter.choices);
    let keeps = hear_within_rule(alloc, &mut receiver, &run, page.id(), counter.repeat)?;
    Ok(keeps && is_wrong(page, receiver.memory()))
}

// Whether these hits, as sorted keys, keep every rule, and the receiver's View is wrong after the run.
fn check_keys(
    alloc: Global,
    cycle: &Cycle,
    page: &Page,
    counter: &Counter,
    keys: &[u64],
) -> Result<bool, NoMemory>
    requires all { All (IsHit (repeated (slots_of cycle.now)) (counter_run_of counter.now).start (counter_run_of counter.now).slots)
        (counter_run_of counter.now).hits }
    requires some { 1 ≤ (counter_run_of counter.now).repeat }
    requires same { IsPermutation (map hit_key (counter_run_of counter.now).hits) keys.now }
    requires sorted { IsNonDecreasing keys.now }
    ensures { IfOk result (λ b. IsTrue b ↔ IsRefuting (slots_of cycle.now) (page_of page.now) (counter_run_of counter.now)) }
{
    ttx_code::laws::each_byte_is_near_itself();
    ttx_page::laws::each_slot_turns();
    if !are_apart(keys) {
        return Ok(false);
    }
    ends_wrong(alloc, cycle, page, counter, keys)
}

// Whether the hits keep every rule, and the receiver's View is wrong after the run.
fn check_hits(
    alloc: Global,
    cycle: &Cycle,
    page: &Page,
    counter: &Counter,
) -> Result<bool, NoMemory>
    requires all { All (IsHit (repeated (slots_of cycle.now)) (counter_run_of counter.now).start (counter_run_of counter.now).slots)
        (counter_run_of counter.now).hits }
    requires some { 1 ≤ (counter_run_of counter.now).repeat }
    ensures { IfOk result (λ b. IsTrue b ↔ IsRefuting (slots_of cycle.now) (page_of page.now) (counter_run_of counter.now)) }
{
    let keys = sorted_keys(alloc, &counter.hits)?;
    check_keys(alloc, cycle, page, counter, &keys)
}

/// Whether the counter-run keeps every rule, lasts to its deadline or longer, and ends in a wrong View. `Err` if memory runs out.
///
/// Takes one pass over the slots of the run, and the time to sort its hits. Allocates memory for a copy of the hits.
pub fn check_counter(
    alloc: Global,
    cycle: &Cycle,
    pages: &[Page],
    counter: &Counter,
) -> Result<bool, NoMemory>
    ensures { IfOk result (λ b. IsTrue b ↔ IsCounterRun (slots_of cycle.now) (map page_of pages.now) (counter_run_of counter.now)) }
{
    ttx_page::laws::memories_keep_their_rules();
    let index = counter.page as usize;
    if index >= pages.len() {
        return Ok(false);
    }
    if !is_in_range(cycle, pages, index, counter) {
        return Ok(false);
    }
    check_hits(alloc, cycle, &pages[index], counter)
}
