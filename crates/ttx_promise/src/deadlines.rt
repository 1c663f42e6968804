//! The least deadline of each page of a planned cycle.

ghost use Rattle.std.specs.Prelude.{◌≡◌, ◌≤◌, ℕ, IfOk, Some, map};
ghost use Rattle.ttx_cycle.specs.Cycles.{slots_of};
ghost use Rattle.ttx_page.specs.Pages as definitions;
ghost use Rattle.ttx_plan.specs.Acceptance.{IsAcceptedForEach};
ghost use Rattle.ttx_promise.specs.Deadlines.{AreDeadlines, fields_of};
ghost use Rattle.ttx_source.specs.Services.{pages_of};

use std::alloc::{AllocError, Global};
use ttx_cycle::Cycle;
use ttx_page::Class;
use ttx_source::Service;
use ttx_witness::{NoMemory, PageWait, Wait, waits};

// The deadline of a page that has one. Each page of a planned cycle has one.
fn fields_of(wait: Wait) -> u32
    ensures { result ≡ fields_of wait }
{
    match wait {
        Wait::Fields { fields, item: _ } => fields,
        _ => 0,
    }
}

// The deadlines of pages that have one.
fn fields_told(alloc: Global, told: &[PageWait]) -> Result<Vec<u32>, AllocError>
    ensures { IfOk result (λ deadlines. deadlines.items ≡ map (λ t. fields_of t.wait) told.now) }
{
    let mut deadlines = Vec::with_capacity(alloc, told.len())?;
    for one in told {
        deadlines.push(fields_of(one.wait))?;
    }
    Ok(deadlines)
}

/// The least deadline in fields of each page of a service in a cycle for which some certificate is accepted.
pub fn deadlines(
    alloc: Global,
    cycle: &Cycle,
    service: &Service,
    class: Class,
    repeat: u8,
) -> Result<Vec<u32>, NoMemory>
    requires some_repeats { 1 ≤ repeat }
    requires few_repeats { repeat ≤ 8 }
    requires accepted { IsAcceptedForEach class service.now (slots_of cycle.now) }
    ensures { IfOk result (λ deadlines. AreDeadlines (slots_of cycle.now) (pages_of service.now) class repeat service.now.lines deadlines.items) }
{
    let told = waits(
        alloc,
        cycle,
        service.pages(),
        class,
        repeat,
        service.lines(),
    )?;
    match fields_told(alloc, &told) {
        Ok(deadlines) => Ok(deadlines),
        Err(_) => Err(NoMemory),
    }
}
