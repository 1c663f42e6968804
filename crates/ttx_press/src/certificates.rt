//! The certificate of a planned service.

ghost use Rattle.std.specs.Prelude.{◌≡◌, ◌≤◌, IfOk, IfErr, map};
ghost use Rattle.ttx_certificate.specs.Certificates.{fields_of};
ghost use Rattle.ttx_certify.specs.declared.verdict.Verdict.TheVariants.{Yes};
ghost use Rattle.ttx_cycle.specs.Cycles.{slots_of};
ghost use Rattle.ttx_page.specs.declared.class.Class.TheVariants.{Any};
ghost use Rattle.ttx_source.specs.Services.{pages_of};
ghost use Rattle.ttx_witness.specs.wait_times.PageWaits.{AreWaits};
ghost use Rattle.ttx_deadline.specs.Deadlines.{IsFoundWith};
ghost use Rattle.ttx_press.specs.Houses as terms;
ghost use Rattle.ttx_press.specs.Refusals.{Says, IsTooSlow, IsSlowness};

use crate::house::House;
use crate::planned_service::{PlannedService, refused_late};
use crate::slow_pages::slow_pages;
use crate::terms::asked_of;
use std::alloc::Global;
use ttx_air::PressFault;
use ttx_certify::Verdict;
use ttx_deadline::find_with;
use ttx_page::Class;
use ttx_witness::{Certificate, NoMemory, PageWait, waits};

// How long viewers wait for each page.
fn waits_of(alloc: Global, repeat: u8, planned: &PlannedService) -> Result<Vec<PageWait>, NoMemory>
    requires some { 1 ≤ repeat }
    requires few { repeat ≤ 8 }
    ensures { IfOk result (λ told. AreWaits (slots_of planned.now.cycle) (pages_of planned.now.service) Any repeat
        planned.now.service.lines told.items) }
{
    let service = &planned.service;
    waits(
        alloc,
        &planned.cycle,
        service.pages(),
        Class::Any,
        repeat,
        service.lines(),
    )
}

/// The refusal of pages for which viewers wait longer than so many fields.
pub(crate) fn refused_slow(
    alloc: Global,
    repeat: u8,
    limit: u32,
    planned: &PlannedService,
) -> PressFault
    requires some { 1 ≤ repeat }
    requires few { repeat ≤ 8 }
    ensures { Says (IsSlowness repeat limit (slots_of planned.now.cycle) planned.now.service) result }
{
    let Ok(told) = waits_of(alloc, repeat, planned) else {
        return PressFault::NoMemory;
    };
    match slow_pages(alloc, &told, limit) {
        Ok(slow) => refused_late(alloc, &slow),
        Err(_) => PressFault::NoMemory,
    }
}

/// The certificate with the deadline of the house.
pub fn certified(
    alloc: Global,
    house: House,
    planned: &PlannedService,
) -> Result<Certificate, PressFault>
    ensures found { IfOk result (λ w. IsFoundWith (slots_of planned.now.cycle) (pages_of planned.now.service) planned.now.service.lines
        (terms.asked_of house) (fields_of w) Yes) }
    ensures refused { IfErr result (Says (IsTooSlow house (slots_of planned.now.cycle) planned.now.service)) }
{
    let Ok(found) = find_with(alloc, &planned.cycle, &planned.service, asked_of(house)) else {
        return Err(PressFault::NoMemory);
    };
    match found.verdict {
        Verdict::Yes => Ok(found.certificate),
        Verdict::No(_) => Err(refused_slow(alloc, house.repeat, house.deadline, planned)),
    }
}
