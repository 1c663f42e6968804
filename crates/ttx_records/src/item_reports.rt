//! Reports on how long viewers of a service wait for pages and their items.

ghost use Rattle.std.specs.Prelude.{◌≤◌, IfOk, string_bytes};
ghost use Rattle.ttx_cycle.specs.Cycles.{slots_of};
ghost use Rattle.ttx_records.specs.ItemWaits.{IsItemWaitRecord};

use crate::item_waits::item_wait_records;
use std::alloc::Global;
use ttx_cycle::Cycle;
use ttx_page::Class;
use ttx_source::Service;
use ttx_wait::{Waiting, deadline_of};
use ttx_witness::{NoMemory, bad_slot, item_waits, waits};

/// How long a viewer of each page of a service waits, and for each item of a page that is sent unchanged, as JSON objects with the names
/// and values of the lines of `report_items`: those of a page as `report_waits` without promises, those of an item with `item` behind
/// `page`. `repeat` is 1 to 8. `Err` if memory runs out.
pub fn report_item_waits(
    alloc: Global,
    cycle: &Cycle,
    service: &Service,
    class: Class,
    repeat: u8,
) -> Result<Waiting, NoMemory>
    requires some_repeats { 1 ≤ repeat }
    requires few_repeats { repeat ≤ 8 }
    ensures { IfOk result (λ waiting. IsItemWaitRecord (slots_of cycle.now) service.now class repeat (string_bytes waiting.text) waiting.deadline) }
{
    let pages = service.pages();
    let lines = service.lines();
    let told = waits(alloc, cycle, pages, class, repeat, lines)?;
    let items = item_waits(alloc, cycle, pages, class, repeat, lines)?;
    let bad = bad_slot(cycle);
    let Ok(text) = item_wait_records(alloc, bad, &told, &items) else {
        return Err(NoMemory);
    };
    let deadline = deadline_of(bad, &told);
    Ok(Waiting { text, deadline })
}
