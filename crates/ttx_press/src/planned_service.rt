//! The plan of a service.

ghost use Rattle.std.specs.Prelude.{◌≡◌, ◌≤◌, IfOk, IfErr, map, true};
ghost use Rattle.ttx_cycle.specs.Cycles.{slots_of};
ghost use Rattle.ttx_plan.specs.Following.{AreFollowed};
ghost use Rattle.ttx_promise.specs.Views.{late_view};
ghost use Rattle.ttx_source.specs.Services.{pages_of};
ghost use Rattle.ttx_source.specs.PromiseViews.{promise_view};
ghost use Rattle.ttx_press.specs.Houses.{viewers_of};
ghost use Rattle.ttx_press.specs.Refusals.{Says, late_words, IsNoPlain, IsNoSpread, IsNoPlan};
ghost use Rattle.ttx_press.specs.Editions.{IsPlain, IsPlanBy, IsPlanFor};

use crate::house::House;
use crate::late_words::late_words;
use crate::refusals::refused;
use crate::script::Script;
use crate::terms::viewers_of;
use std::alloc::Global;
use ttx_air::PressFault;
use ttx_cycle::Cycle;
use ttx_plan::{PlanFault, plan_with};
use ttx_promise::{LatePage, PromiseFault, Viewers, plan_promises};
use ttx_source::{Promise, Service};

/// A cycle, and the service that it carries.
#[derive(Drop)]
pub struct PlannedService {
    pub cycle: Cycle,
    pub service: Service,
}

/// The refusal of pages that come too late.
pub(crate) fn refused_late(alloc: Global, pages: &[LatePage]) -> PressFault
    ensures { Says (λ said. said ≡ late_words (map late_view pages.now)) result }
{
    match late_words(alloc, pages) {
        Ok(words) => PressFault::Refused(words),
        Err(_) => PressFault::NoMemory,
    }
}

// The plan with each page in the first of its rounds.
fn plain_plan(
    alloc: Global,
    viewers: Viewers,
    service: Service,
) -> Result<PlannedService, PressFault>
    ensures plan { IfOk result (λ planned. IsPlain viewers service planned.service (slots_of planned.cycle)) }
    ensures followed { IfOk result (λ planned. viewers.receivers.late ≡ true → AreFollowed (slots_of planned.cycle) (pages_of planned.service)) }
    ensures refused { IfErr result (Says (IsNoPlain viewers service)) }
{
    match plan_with(alloc, &service, viewers.receivers) {
        Ok(cycle) => Ok(PlannedService { cycle, service }),
        Err(PlanFault::NoPages) => Err(refused(alloc, "plan 1 no-pages")),
        Err(PlanFault::TooLong) => Err(refused(alloc, "plan 2 too-long")),
        Err(PlanFault::NoMemory) => Err(PressFault::NoMemory),
    }
}

// The spread plan that keeps the promises.
fn spread_plan(
    alloc: Global,
    viewers: Viewers,
    service: Service,
    promises: &[Promise],
) -> Result<PlannedService, PressFault>
    requires some { 1 ≤ viewers.repeat }
    requires few { viewers.repeat ≤ 8 }
    ensures plan { IfOk result (λ planned.
        IsPlanBy true viewers service (map promise_view promises.now) planned.service (slots_of planned.cycle)) }
    ensures followed { IfOk result (λ planned. viewers.receivers.late ≡ true → AreFollowed (slots_of planned.cycle) (pages_of planned.service)) }
    ensures refused { IfErr result (Says (IsNoSpread viewers service (map promise_view promises.now))) }
{
    let mut service = service;
    match plan_promises(alloc, &mut service, viewers, promises) {
        Ok(cycle) => Ok(PlannedService { cycle, service }),
        Err(PromiseFault::NoPages) => Err(refused(alloc, "plan 1 no-pages")),
        Err(PromiseFault::TooLong) => Err(refused(alloc, "plan 2 too-long")),
        Err(PromiseFault::Late { pages }) => Err(refused_late(alloc, &pages)),
        Err(PromiseFault::NoMemory) => Err(PressFault::NoMemory),
    }
}

/// The plan of a house.
pub fn planned(alloc: Global, house: House, script: Script) -> Result<PlannedService, PressFault>
    ensures plan { IfOk result (λ planned.
        IsPlanFor house script.service (map promise_view script.promises.items) planned.service (slots_of planned.cycle)) }
    ensures followed { IfOk result (λ planned. (viewers_of house).receivers.late ≡ true →
        AreFollowed (slots_of planned.cycle) (pages_of planned.service)) }
    ensures refused { IfErr result (Says (IsNoPlan house script.service (map promise_view script.promises.items))) }
{
    let viewers = viewers_of(house);
    let Script { service, promises } = script;
    if house.spread {
        spread_plan(alloc, viewers, service, &promises)
    } else {
        plain_plan(alloc, viewers, service)
    }
}
