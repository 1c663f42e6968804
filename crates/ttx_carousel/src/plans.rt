//! Plans in which subpages stay as long as promised.

ghost use Rattle.std.specs.Prelude.{◌≡◌, ◌≤◌, length, map, IfOk};
ghost use Rattle.ttx_source.specs.PromiseViews.{promise_view};
ghost use Rattle.ttx_carousel.specs.Orders.{AreBelow};
ghost use Rattle.ttx_carousel.specs.Planning.{most_laps, IsAttempt, IsCarouselOf, IsCarouselOrNone, IsEnded, IsLaidOut};
ghost use Rattle.ttx_carousel.specs.Planning.{KeepsStays, KeepsOrMisses, AnswersStays};

use crate::carousel::Carousel;
use crate::faults::{ShortStay, StayFault};
use crate::kept_promises::{judge, short_stays};
use crate::layout::{has_others, order, standings, turns};
use std::alloc::Global;
use ttx_cycle::Cycle;
use ttx_plan::{PlanFault, Receivers, plan_in_order, spread_places};
use ttx_promise::{Viewers, plan_promises};
use ttx_source::{Promise, Service};
use ttx_witness::NoMemory;

// The result for a number of laps.
#[derive(Drop)]
pub enum Attempt {
    // The pages of each number stay as promised.
    Kept { cycle: Cycle },
    // Those of these numbers do not.
    Short { numbers: Vec<ShortStay> },
    // There is no cycle with so many laps.
    TooLong,
    // An allocation failed.
    NoMemory,
}

// The carousel of a service.
fn carousel_of(
    alloc: Global,
    service: &Service,
    receivers: Receivers,
    stays: &[Promise],
) -> Result<Carousel, NoMemory>
    ensures receivers { IfOk result (λ carousel. carousel.receivers ≡ receivers) }
    ensures is { IfOk result (IsCarouselOf (map promise_view stays.now) service.now) }
{
    ttx_spread::laws::numbers_are_spread();
    let pages = service.pages();
    let turns = turns(pages, stays);
    let places = spread_places(service, receivers.class);
    match standings(alloc, service, stays, &places, turns) {
        Ok(standings) => Ok(Carousel {
            receivers,
            standings,
            turns,
        }),
        Err(_) => Err(NoMemory),
    }
}

// The cycle of an order; `None` if it might be too long, or the order is empty.
fn lay_out_order(
    alloc: Global,
    service: &Service,
    receivers: Receivers,
    order: &[usize],
) -> Result<Option<Cycle>, NoMemory>
    requires few { length order.now ≤ 65536 }
    requires within { AreBelow (length service.now.pages) order.now }
    ensures { IfOk result (IsLaidOut receivers service.now order.now) }
{
    match plan_in_order(alloc, service, receivers, order) {
        Ok(cycle) => Ok(Some(cycle)),
        Err(PlanFault::NoMemory) => Err(NoMemory),
        Err(_) => Ok(None),
    }
}

// The cycle of a carousel with so many laps a turn.
fn lay_out(
    alloc: Global,
    service: &Service,
    stays: &[Promise],
    carousel: &Carousel,
    laps: usize,
) -> Result<Option<Cycle>, NoMemory>
    requires some { 1 ≤ laps }
    requires few { laps ≤ 65536 }
    requires is { IsCarouselOf (map promise_view stays.now) service.now carousel.now }
    ensures { IfOk result (IsCarouselOrNone carousel.now.receivers (map promise_view stays.now) service.now laps) }
{
    match order(alloc, &carousel.standings, carousel.turns, laps) {
        Ok(Some(order)) => lay_out_order(alloc, service, carousel.receivers, &order),
        Ok(None) => Ok(None),
        Err(_) => Err(NoMemory),
    }
}

// Tries a number of laps.
fn try_laps(
    alloc: Global,
    service: &Service,
    stays: &[Promise],
    carousel: &Carousel,
    laps: usize,
) -> Attempt
    requires some { 1 ≤ laps }
    requires few { laps ≤ 65536 }
    requires is { IsCarouselOf (map promise_view stays.now) service.now carousel.now }
    ensures { IsAttempt carousel.now.receivers (map promise_view stays.now) service.now laps result }
{
    let cycle = match lay_out(alloc, service, stays, carousel, laps) {
        Ok(Some(cycle)) => cycle,
        Ok(None) => return Attempt::TooLong,
        Err(_) => return Attempt::NoMemory,
    };
    let Ok(numbers) = short_stays(alloc, &cycle, service, stays) else {
        return Attempt::NoMemory;
    };
    if numbers.is_empty() {
        Attempt::Kept { cycle }
    } else {
        Attempt::Short { numbers }
    }
}

// The most laps to try: more than one is no use if no page comes in each lap.
fn most_laps(service: &Service, stays: &[Promise]) -> usize
    ensures value { result ≡ most_laps service.now (map promise_view stays.now) }
    ensures some { 1 ≤ result }
    ensures few { result ≤ 65536 }
{
    if has_others(service.pages(), stays) {
        32768
    } else {
        1
    }
}

// The result once no further laps are tried, from that for the last ones.
fn ended(last: Option<Vec<ShortStay>>) -> Result<Cycle, StayFault>
    ensures { IsEnded last result }
{
    match last {
        Some(numbers) => Err(StayFault::Short { numbers }),
        None => Err(StayFault::TooLong),
    }
}

// The cycle of a carousel with the fewest laps in which the numbers stay as promised.
fn keep_stays(
    alloc: Global,
    service: &Service,
    stays: &[Promise],
    carousel: &Carousel,
) -> Result<Cycle, StayFault>
    requires { IsCarouselOf (map promise_view stays.now) service.now carousel.now }
    ensures { KeepsStays carousel.now.receivers (map promise_view stays.now) service.now result }
{
    let most = most_laps(service, stays);
    let mut last = None;
    for laps in 1..most + 1 {
        match try_laps(alloc, service, stays, carousel, laps) {
            Attempt::Kept { cycle } => return Ok(cycle),
            Attempt::Short { numbers } => last = Some(numbers),
            Attempt::TooLong => return ended(last),
            Attempt::NoMemory => return Err(StayFault::NoMemory),
        }
    }
    ended(last)
}

// The same of a service.
fn staying_cycle(
    alloc: Global,
    service: &Service,
    receivers: Receivers,
    stays: &[Promise],
) -> Result<Cycle, StayFault>
    ensures { KeepsStays receivers (map promise_view stays.now) service.now result }
{
    match carousel_of(alloc, service, receivers, stays) {
        Ok(carousel) => keep_stays(alloc, service, stays, &carousel),
        Err(_) => Err(StayFault::NoMemory),
    }
}

// A cycle that keeps the stays of a service, and the rest, or what it misses.
fn keep_all(
    alloc: Global,
    service: &Service,
    viewers: Viewers,
    promises: &[Promise],
    stays: &[Promise],
) -> Result<Cycle, StayFault>
    requires some_repeats { 1 ≤ viewers.repeat }
    requires few_repeats { viewers.repeat ≤ 8 }
    ensures { KeepsOrMisses viewers (map promise_view promises.now) (map promise_view stays.now) service.now result }
{
    let cycle = match staying_cycle(alloc, service, viewers.receivers, stays) {
        Ok(cycle) => cycle,
        Err(fault) => return Err(fault),
    };
    match judge(alloc, &cycle, service, viewers, promises) {
        Ok(None) => Ok(cycle),
        Ok(Some(missed)) => Err(StayFault::Missed { missed }),
        Err(_) => Err(StayFault::NoMemory),
    }
}

/// A plan of a service in which each page of a number with stays stays as long as promised, and which keeps each promise. A cycle has as
/// many turns as the number with stays that has the most pages; each page of such a number is sent once a cycle, whatever the service says
/// of how often. The other pages are sent as often as the service says in each eight rounds, and each turn has as many laps of eight rounds
/// as the stays take, and no more. `service` becomes that of `plan_promises`, in which promised pages may be sent more often. Without stays
/// the plan is that of `plan_promises`.
///
/// `Promise` is the answer of `plan_promises` if it has no plan. `TooLong`: even one lap a turn might take more than 65,536 slots. `Short`
/// names the numbers that stay too short with the most laps that fit; with each smaller number of laps some number stays too short too.
/// `Missed` names what is not kept in the cycle with the fewest laps in which the stays are kept. After `NoMemory` nothing is known of
/// `service`. Another order of the pages may keep more.
pub fn plan_stays(
    alloc: Global,
    service: &mut Service,
    viewers: Viewers,
    promises: &[Promise],
    stays: &[Promise],
) -> Result<Cycle, StayFault>
    requires some_repeats { 1 ≤ viewers.repeat }
    requires few_repeats { viewers.repeat ≤ 8 }
    ensures { AnswersStays viewers (map promise_view promises.now) (map promise_view stays.now) service.old service.new result }
{
    let cycle = match plan_promises(alloc, service, viewers, promises) {
        Ok(cycle) => cycle,
        Err(fault) => return Err(StayFault::Promise { fault }),
    };
    if stays.is_empty() {
        return Ok(cycle);
    }
    keep_all(alloc, &*service, viewers, promises, stays)
}
