//! The plan that keeps each promise.

ghost use Rattle.std.specs.Prelude.{◌≡◌, ◌≢◌, ◌<◌, ◌≤◌, [], length, map, IfOk};
ghost use Rattle.ttx_cycle.specs.Cycles.{slots_of};
ghost use Rattle.ttx_plan.specs.Spread.{IsTooLongSpread};
ghost use Rattle.ttx_promise.specs.Lateness.{often_at};
ghost use Rattle.ttx_promise.specs.Promises.{Answers, Ends, IsSpreadFor, IsJudged, TriesToRaise, RaisesLatest, Improves};
ghost use Rattle.ttx_promise.specs.Searching.{Begins};
ghost use Rattle.ttx_source.specs.PromiseViews.{promise_view};
ghost use Rattle.ttx_source.specs.Services.{pages_of};

use crate::deadlines::deadlines;
use crate::faults::{LatePage, PromiseFault};
use crate::lateness::{late_pages, latest, page_at};
use crate::layout_search::search;
use std::alloc::Global;
use ttx_cycle::Cycle;
use ttx_plan::{PlanFault, Receivers, is_too_long_spread, plan_spread};
use ttx_source::{Promise, Service};
use ttx_witness::NoMemory;

/// The viewers that a plan is for.
#[derive(Clone, Copy)]
pub struct Viewers {
    /// Their receivers.
    pub receivers: Receivers,
    /// The repeat count: of so many successive transmissions of a character one is received right, 1 to 8.
    pub repeat: u8,
}

/// The result of one step.
#[derive(Drop)]
pub enum Improved {
    /// Each promise is kept.
    Kept,
    /// This plan sends the latest page twice as often.
    Raised { cycle: Cycle },
    /// These pages come too late, and none of them can be sent more often.
    Late { pages: Vec<LatePage> },
}

/// Why a plan does not keep each promise.
#[derive(Drop)]
pub enum Missed {
    /// These pages come too late.
    Late { pages: Vec<LatePage> },
    /// An allocation failed.
    NoMemory,
}

// Sends a page twice as often, and plans anew. `None` if the cycle might then be too long; the service is then unchanged.
fn raise(
    alloc: Global,
    service: &mut Service,
    receivers: Receivers,
    page: usize,
) -> Result<Option<Cycle>, NoMemory>
    requires page { page < length service.old.pages }
    requires rare { often_at service.old.pages page < 8 }
    ensures { IfOk result (λ raised. TriesToRaise receivers.late receivers.class page service.old service.new raised) }
{
    let _pages = service.pages();
    let often = service.often(page);
    service.set_often(page, 2 * often);
    match plan_spread(alloc, service, receivers) {
        Ok(cycle) => Ok(Some(cycle)),
        Err(PlanFault::TooLong) => {
            service.set_often(page, often);
            Ok(None)
        }
        Err(_) => Err(NoMemory),
    }
}

// The result for a plan that cannot be improved.
fn judge(
    alloc: Global,
    service: &Service,
    fields: &[u32],
    promises: &[Promise],
) -> Result<Improved, NoMemory>
    ensures { IfOk result (λ improved. IsJudged (pages_of service.now) fields.now (map promise_view promises.now) improved) }
{
    let Ok(pages) = late_pages(alloc, service, fields, promises) else {
        return Err(NoMemory);
    };
    if pages.is_empty() {
        Ok(Improved::Kept)
    } else {
        Ok(Improved::Late { pages })
    }
}

// Sends the page that is the latest twice as often. `None` if no page that is too late can be sent
// more often; the service is then unchanged.
fn raise_latest(
    alloc: Global,
    service: &mut Service,
    receivers: Receivers,
    fields: &[u32],
    promises: &[Promise],
) -> Result<Option<Cycle>, NoMemory>
    ensures { IfOk result (λ raised. RaisesLatest receivers.late receivers.class fields.now (map promise_view promises.now)
        service.old service.new raised) }
{
    let _pages = service.pages();
    let Some(number) = latest(service, fields, promises) else {
        return Ok(None);
    };
    match raise(alloc, service, receivers, page_at(promises, number)) {
        Ok(raised) => Ok(raised),
        Err(_) => Err(NoMemory),
    }
}

// Sends the page that is the latest twice as often, where that can be done.
fn improve(
    alloc: Global,
    service: &mut Service,
    viewers: Viewers,
    promises: &[Promise],
    cycle: &Cycle,
) -> Result<Improved, NoMemory>
    requires plan { IsSpreadFor viewers.receivers.late viewers.receivers.class service.old (slots_of cycle.now) }
    requires some_repeats { 1 ≤ viewers.repeat }
    requires few_repeats { viewers.repeat ≤ 8 }
    ensures { IfOk result (λ improved. Improves viewers (map promise_view promises.now) service.old service.new (slots_of cycle.now) improved) }
{
    let fields = deadlines(
        alloc,
        cycle,
        service,
        viewers.receivers.class,
        viewers.repeat,
    )?;
    match raise_latest(alloc, service, viewers.receivers, &fields, promises)? {
        Some(cycle) => Ok(Improved::Raised { cycle }),
        None => Ok(judge(alloc, service, &fields, promises)?),
    }
}

// Improves a plan until each promise is kept, or no page that is too late can be sent more often.
fn improve_all(
    alloc: Global,
    service: &mut Service,
    viewers: Viewers,
    promises: &[Promise],
    first: Cycle,
) -> Result<Cycle, Missed>
    requires plan { IsSpreadFor viewers.receivers.late viewers.receivers.class service.old (slots_of first) }
    requires some_repeats { 1 ≤ viewers.repeat }
    requires few_repeats { viewers.repeat ≤ 8 }
    ensures { Ends viewers (map promise_view promises.now) service.old service.new result }
{
    let mut cycle = first;
    loop {
        match improve(alloc, service, viewers, promises, &cycle) {
            Ok(Improved::Kept) => return Ok(cycle),
            Ok(Improved::Raised { cycle: next }) => cycle = next,
            Ok(Improved::Late { pages }) => return Err(Missed::Late { pages }),
            Err(_) => return Err(Missed::NoMemory),
        }
    }
}

// The plan from which the improvement begins, with pages sent as often as the search found. It isn't too long.
fn begin(
    alloc: Global,
    service: &mut Service,
    viewers: Viewers,
    promises: &[Promise],
) -> Result<Cycle, NoMemory>
    requires fits { IsTooLongSpread viewers.receivers.late viewers.receivers.class service.old → ⊥ }
    ensures { IfOk result (λ cycle. Begins viewers (map promise_view promises.now) service.old service.new (slots_of cycle)) }
{
    let Ok(()) = search(alloc, service, viewers, promises) else {
        return Err(NoMemory);
    };
    match plan_spread(alloc, service, viewers.receivers) {
        Ok(cycle) => Ok(cycle),
        Err(_) => Err(NoMemory),
    }
}

// The plan of a service without promises, which stays as it is.
fn plan_unpromised(alloc: Global, service: &Service, viewers: Viewers) -> Result<Cycle, Missed>
    ensures { Ends viewers [] service.now service.now result }
{
    match plan_spread(alloc, service, viewers.receivers) {
        Ok(cycle) => Ok(cycle),
        Err(_) => Err(Missed::NoMemory),
    }
}

// The plan that keeps each promise, of a service that has a plan.
fn keep_promises(
    alloc: Global,
    service: &mut Service,
    viewers: Viewers,
    promises: &[Promise],
) -> Result<Cycle, Missed>
    requires fits { IsTooLongSpread viewers.receivers.late viewers.receivers.class service.old → ⊥ }
    requires some_repeats { 1 ≤ viewers.repeat }
    requires few_repeats { viewers.repeat ≤ 8 }
    ensures { Ends viewers (map promise_view promises.now) service.old service.new result }
{
    if promises.is_empty() {
        return plan_unpromised(alloc, service, viewers);
    }
    match begin(alloc, service, viewers, promises) {
        Ok(cycle) => improve_all(alloc, service, viewers, promises, cycle),
        Err(_) => Err(Missed::NoMemory),
    }
}

/// A spread plan of a service that keeps each promise: for each promised page alone the cycle is accepted with a deadline of at most its
/// promise, in fields. As long as pages come too late, the one that is late by the most fields, the first of equals, is sent twice as
/// often, up to 8 times in a cycle. Only pages with a promise and without a key `often` are sent more often. `service` becomes the service
/// of the plan.
///
/// `Late` if a promise is not kept: to send the latest page more often would make the cycle too long, or no late page may be sent more
/// often. `service` is then that of the last plan. `NoPages` and `TooLong` are those of `plan_spread`, and `service` is unchanged. After
/// `NoMemory` nothing is known of `service`.
///
/// Without promises `service` stays as it is, and the plan is that of `plan_spread`. Otherwise a search over layouts comes first. Its plan is
/// judged by the waits of its cycle, and further steps go by these waits.
pub fn plan_promises(
    alloc: Global,
    service: &mut Service,
    viewers: Viewers,
    promises: &[Promise],
) -> Result<Cycle, PromiseFault>
    requires some_repeats { 1 ≤ viewers.repeat }
    requires few_repeats { viewers.repeat ≤ 8 }
    ensures { Answers viewers (map promise_view promises.now) service.old service.new result }
{
    if service.pages().is_empty() {
        return Err(PromiseFault::NoPages);
    }
    if is_too_long_spread(service, viewers.receivers) {
        return Err(PromiseFault::TooLong);
    }
    match keep_promises(alloc, service, viewers, promises) {
        Ok(cycle) => Ok(cycle),
        Err(Missed::Late { pages }) => Err(PromiseFault::Late { pages }),
        Err(Missed::NoMemory) => Err(PromiseFault::NoMemory),
    }
}
