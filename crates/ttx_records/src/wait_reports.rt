//! Reports on how long viewers of a service wait, with its promises.

ghost use Rattle.std.specs.Prelude.{◌≡◌, ◌≤◌, IfOk, map, string_bytes};
ghost use Rattle.ttx_cycle.specs.Cycles.{slots_of};
ghost use Rattle.ttx_records.specs.WaitReports.{absent_pages, IsWaitRecord};
ghost use Rattle.ttx_source.specs.PromiseViews.{promise_view};

use crate::waits::wait_records;
use std::alloc::{AllocError, Global};
use ttx_cycle::Cycle;
use ttx_header::PageId;
use ttx_page::Class;
use ttx_promise::{PromisedReport, other_pages, some_late, with_promises};
use ttx_source::{Promise, Service};
use ttx_wait::{deadline_of, greatest};
use ttx_witness::{NoMemory, bad_slot, waits};

// The pages on the air that the service lacks, if it has promises.
fn absent_pages(
    alloc: Global,
    cycle: &Cycle,
    service: &Service,
    promises: &[Promise],
) -> Result<Vec<PageId>, AllocError>
    ensures { IfOk result (λ pages. pages.items ≡ absent_pages (slots_of cycle.now) service.now (map promise_view promises.now)) }
{
    match promises.first() {
        None => Ok(Vec::new(alloc)),
        Some(_) => other_pages(alloc, cycle.slots(), service.pages()),
    }
}

/// How long a viewer of each page of a service waits, as JSON objects with the names and values of the lines of `wait`. `repeat` is 1 to 8.
/// `Err` if memory runs out.
pub fn report_waits(
    alloc: Global,
    cycle: &Cycle,
    service: &Service,
    class: Class,
    repeat: u8,
    promises: &[Promise],
) -> Result<PromisedReport, NoMemory>
    requires some_repeats { 1 ≤ repeat }
    requires few_repeats { repeat ≤ 8 }
    ensures { IfOk result (λ report. IsWaitRecord (slots_of cycle.now) service.now class repeat (map promise_view promises.now)
        (string_bytes report.text) report.deadline report.late) }
{
    let pages = service.pages();
    let told = waits(alloc, cycle, pages, class, repeat, service.lines())?;
    let bad = bad_slot(cycle);
    let Ok(all) = with_promises(alloc, &told, promises) else {
        return Err(NoMemory);
    };
    let Ok(absent) = absent_pages(alloc, cycle, service, promises) else {
        return Err(NoMemory);
    };
    let Ok(text) = wait_records(alloc, &all, bad, greatest(&told), &absent) else {
        return Err(NoMemory);
    };
    Ok(PromisedReport {
        text,
        deadline: deadline_of(bad, &told),
        late: some_late(&all),
    })
}
