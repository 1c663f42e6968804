//! Replays counter-runs.

ghost use Rattle.std.specs.Prelude.{◌≡◌, ℕ, ◌<◌, IfOk, length, map};
ghost use Rattle.std.specs.List.Sorted.{IsNonDecreasing};
ghost use Rattle.ttx_page.specs.Streams.{repeated};
ghost use Rattle.ttx_page.specs.Views.{page_of, memory_of};
ghost use Rattle.ttx_cycle.specs.Cycles.{slots_of};
ghost use Rattle.ttx_counter.specs.Counters.{counter_run_of};
ghost use Rattle.ttx_counter.specs.Keys.{key_at, AreHitOnce, IsKey};
ghost use Rattle.ttx_counter.specs.Replaying.{IsLeft, TellsReplayed};

use crate::checks::{check_counter, selection_for};
use crate::claim::page_at;
use crate::counter::Counter;
use crate::keys::sorted_keys;
use crate::scripted_receiver::{Run, hear};
use std::alloc::Global;
use ttx_cycle::Cycle;
use ttx_page::{Page, PageMemory};
use ttx_receiver::{Receiver, Scripted};
use ttx_witness::NoMemory;

// The receiver's memory after the run.
fn memory_after(cycle: &Cycle, page: &Page, counter: &Counter, keys: &[u64]) -> PageMemory
    requires sorted { IsNonDecreasing keys.now }
    requires apart { AreHitOnce keys.now }
    requires keys { (i : ℕ) → i < length keys.now → IsKey (key_at keys.now i) }
    ensures { IsLeft (repeated (slots_of cycle.now)) keys.now (page_of page.now) (counter_run_of counter.now) (memory_of result) }
{
    let selection = selection_for(counter.any_sub, page.id());
    let mut receiver = Scripted::new(selection, counter.lines, counter.former, &counter.choices);
    hear(
        &mut receiver,
        &Run {
            cycle,
            start: counter.start,
            count: counter.slots,
            keys,
        },
    );
    *receiver.memory()
}

/// The memory of the receiver after a counter-run. `None` if this is not a counter-run of the cycle and the pages.
pub fn replay(
    alloc: Global,
    cycle: &Cycle,
    pages: &[Page],
    counter: &Counter,
) -> Result<Option<PageMemory>, NoMemory>
    ensures { IfOk result (TellsReplayed memory_of (slots_of cycle.now) (map page_of pages.now) (counter_run_of counter.now)) }
{
    ttx_page::laws::each_slot_turns();
    let is = check_counter(alloc, cycle, pages, counter)?;
    if !is {
        return Ok(None);
    }
    let keys = sorted_keys(alloc, &counter.hits)?;
    let page = page_at(pages, counter.page);
    Ok(Some(memory_after(cycle, page, counter, &keys)))
}
