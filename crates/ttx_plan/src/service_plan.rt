//! Plans the cycle that carries a service.

ghost use Rattle.std.specs.Prelude.{◌≡◌, ◌≢◌, ◌↔◌, ◌<◌, ◌≤◌, false, true, [], IfOk, map, option_map};
ghost use Rattle.ttx_cycle.specs.Cycles.{slots_of};
ghost use Rattle.ttx_info.specs.Infos.{info_bytes};
ghost use Rattle.ttx_page.specs.declared.class.Class.TheVariants.{Any};
ghost use Rattle.ttx_plan.specs.Acceptance.{IsAcceptedForEach, IsPlanned};
ghost use Rattle.ttx_plan.specs.Blocks.{length_bound, placed};
ghost use Rattle.ttx_plan.specs.Carries.{Carries, CarriesAt, blocks_of, blocks_sent, blocks_sent_at};
ghost use Rattle.ttx_plan.specs.Ranges.{ArePlaces};
ghost use Rattle.ttx_plan.specs.Following.{AreFollowed};
ghost use Rattle.ttx_plan.specs.Seen.{seen};
ghost use Rattle.ttx_plan.specs.Spread.{IsSpreadPlan, IsTooLongSpread};
ghost use Rattle.ttx_source.specs.Services.{pages_of};

use crate::asked::Receivers;
use crate::block::PageBlock;
use crate::bounds::{length_bound, place_at};
use crate::cycle::cycle_slots;
use crate::faults::PlanFault;
use crate::ranges::is_planned;
use crate::rounds::sent_blocks;
use crate::spread::spread_places;
use std::alloc::{AllocError, Global};
use ttx_cycle::Cycle;
use ttx_info::write_info;
use ttx_page::Class;
use ttx_source::Service;

/// The blocks of the service's pages, at these places, in authored order. `Err` if memory runs out.
pub fn blocks_of(
    alloc: Global,
    class: Class,
    service: &Service,
    places: &[usize],
) -> Result<Vec<PageBlock>, AllocError>
    ensures { IfOk result (λ blocks. map seen blocks.items ≡ placed places.now (blocks_of class service.now.pages)) }
{
    let pages = service.pages();
    let mut blocks = Vec::new(alloc);
    for index in 0..pages.len() {
        let often = service.often(index);
        blocks.push(PageBlock::new(alloc, class, &pages[index], often, place_at(places, index))?)?;
    }
    Ok(blocks)
}

/// Packet 8/30, if the service sends it.
pub fn info_packet(service: &Service) -> Option<[u8; 42]>
    ensures { result ≡ option_map info_bytes service.now.info }
{
    match service.info() {
        Some(info) => Some(write_info(info)),
        None => None,
    }
}

// The cycle that carries a service with at least one page, each at its place.
fn cycle_of(
    alloc: Global,
    receivers: Receivers,
    service: &Service,
    places: &[usize],
) -> Result<Cycle, AllocError>
    requires some { service.now.pages ≢ [] }
    requires places { ArePlaces places.now service.now.pages }
    requires few { length_bound service.now.lines (blocks_sent_at places.now receivers.late receivers.class service.now.pages) ≤ 65536 }
    ensures carries { IfOk result (λ cycle. CarriesAt places.now receivers.late receivers.class service.now (slots_of cycle)) }
    ensures planned { IfOk result (λ cycle. IsPlanned receivers.late receivers.class service.now (slots_of cycle)) }
{
    let _pages = service.pages();
    let blocks = blocks_of(alloc, receivers.class, service, places)?;
    let sent = sent_blocks(alloc, receivers.late, &blocks)?;
    let lines = usize::from(service.lines());
    let info = info_packet(service);
    let slots = cycle_slots(alloc, service.serial(), lines, info, &sent)?;
    let cycle = Cycle::of(slots).unwrap();
    is_planned(receivers, service, places, &cycle);
    Ok(cycle)
}

/// A cycle that carries a service to these receivers, with each page at its place among the eight rounds (0 if the list is shorter): a page
/// that is sent `often` times is in every (8 / often)th round, from the round of its place on. In all else as `plan_with`.
pub fn plan_at(
    alloc: Global,
    service: &Service,
    receivers: Receivers,
    places: &[usize],
) -> Result<Cycle, PlanFault>
    requires { ArePlaces places.now service.now.pages }
    ensures carries { IfOk result (λ cycle. CarriesAt places.now receivers.late receivers.class service.now (slots_of cycle)) }
    ensures planned { IfOk result (λ cycle. IsPlanned receivers.late receivers.class service.now (slots_of cycle)) }
    ensures accepted { IfOk result (λ cycle. IsAcceptedForEach receivers.class service.now (slots_of cycle)) }
    ensures followed { IfOk result (λ cycle. receivers.late ≡ true → AreFollowed (slots_of cycle) (pages_of service.now)) }
    ensures no_pages { (result ≡ Err PlanFault.NoPages) ↔ (service.now.pages ≡ []) }
    ensures too_long { (result ≡ Err PlanFault.TooLong) ↔ (65536 < length_bound service.now.lines
        (blocks_sent_at places.now receivers.late receivers.class service.now.pages)) }
{
    crate::acceptance::planned_cycles_are_accepted();
    crate::late_cycles::late_cycles_are_followed();
    if service.pages().is_empty() {
        return Err(PlanFault::NoPages);
    }
    if length_bound(receivers, service, places) > Cycle::MOST {
        return Err(PlanFault::TooLong);
    }
    match cycle_of(alloc, receivers, service, places) {
        Ok(cycle) => Ok(cycle),
        Err(_) => Err(PlanFault::NoMemory),
    }
}

/// A cycle that carries a service to these receivers, with each page at its place of `spread_places`, meant to make the eight rounds
/// similar in length. In all else as `plan_with`, with the bound for these places.
pub fn plan_spread(
    alloc: Global,
    service: &Service,
    receivers: Receivers,
) -> Result<Cycle, PlanFault>
    ensures carries { IfOk result (λ cycle. IsSpreadPlan receivers.late receivers.class service.now (slots_of cycle)) }
    ensures planned { IfOk result (λ cycle. IsPlanned receivers.late receivers.class service.now (slots_of cycle)) }
    ensures accepted { IfOk result (λ cycle. IsAcceptedForEach receivers.class service.now (slots_of cycle)) }
    ensures followed { IfOk result (λ cycle. receivers.late ≡ true → AreFollowed (slots_of cycle) (pages_of service.now)) }
    ensures no_pages { (result ≡ Err PlanFault.NoPages) ↔ (service.now.pages ≡ []) }
    ensures too_long { (result ≡ Err PlanFault.TooLong) ↔ IsTooLongSpread receivers.late receivers.class service.now }
{
    let _pages = service.pages();
    let places = spread_places(service, receivers.class);
    plan_at(alloc, service, receivers, &places)
}

/// Whether `plan_spread` answers `TooLong`. Allocates no memory.
pub fn is_too_long_spread(service: &Service, receivers: Receivers) -> bool
    ensures { (result ≡ true) ↔ IsTooLongSpread receivers.late receivers.class service.now }
{
    let _pages = service.pages();
    let bound = length_bound(receivers, service, &spread_places(service, receivers.class));
    bound > Cycle::MOST
}

// Place 0 is in range for each page.
fn first_places(service: &Service)
    ensures { ArePlaces [] service.now.pages }
{
    let _pages = service.pages();
}

/// A cycle that carries a service to these receivers. Blank rows and empty X/27/0 are not sent to receivers that surely clear a page. For
/// receivers that show pages late, a time-filling header is sent between two headers of a magazine with the same page number.
///
/// `NoPages` if the service has no pages. `TooLong` if twice the slots of all blocks (each with an empty field) and time-filling headers,
/// plus two fields, is more than 65,536. Both are decided before any memory is allocated.
pub fn plan_with(alloc: Global, service: &Service, receivers: Receivers) -> Result<Cycle, PlanFault>
    ensures carries { IfOk result (λ cycle. Carries receivers.late receivers.class service.now (slots_of cycle)) }
    ensures planned { IfOk result (λ cycle. IsPlanned receivers.late receivers.class service.now (slots_of cycle)) }
    ensures accepted { IfOk result (λ cycle. IsAcceptedForEach receivers.class service.now (slots_of cycle)) }
    ensures followed { IfOk result (λ cycle. receivers.late ≡ true → AreFollowed (slots_of cycle) (pages_of service.now)) }
    ensures no_pages { (result ≡ Err PlanFault.NoPages) ↔ (service.now.pages ≡ []) }
    ensures too_long { (result ≡ Err PlanFault.TooLong) ↔ (65536 < length_bound service.now.lines
        (blocks_sent receivers.late receivers.class service.now.pages)) }
{
    first_places(service);
    plan_at(alloc, service, receivers, &[])
}

/// A cycle that carries a service to receivers of a class that do not show pages late: `plan_with`.
pub fn plan_for(alloc: Global, service: &Service, class: Class) -> Result<Cycle, PlanFault>
    ensures carries { IfOk result (λ cycle. Carries false class service.now (slots_of cycle)) }
    ensures planned { IfOk result (λ cycle. IsPlanned false class service.now (slots_of cycle)) }
    ensures accepted { IfOk result (λ cycle. IsAcceptedForEach class service.now (slots_of cycle)) }
    ensures no_pages { (result ≡ Err PlanFault.NoPages) ↔ (service.now.pages ≡ []) }
    ensures too_long { (result ≡ Err PlanFault.TooLong) ↔ (65536 < length_bound service.now.lines (blocks_sent false class service.now.pages)) }
{
    plan_with(alloc, service, Receivers { class, late: false })
}

/// The cycle that carries a service to receivers of any class: `plan_for` with `Class::Any`.
pub fn plan(alloc: Global, service: &Service) -> Result<Cycle, PlanFault>
    ensures carries { IfOk result (λ cycle. Carries false Any service.now (slots_of cycle)) }
    ensures planned { IfOk result (λ cycle. IsPlanned false Any service.now (slots_of cycle)) }
    ensures accepted { IfOk result (λ cycle. IsAcceptedForEach Any service.now (slots_of cycle)) }
    ensures no_pages { (result ≡ Err PlanFault.NoPages) ↔ (service.now.pages ≡ []) }
    ensures too_long { (result ≡ Err PlanFault.TooLong) ↔ (65536 < length_bound service.now.lines (blocks_sent false Any service.now.pages)) }
{
    plan_for(alloc, service, Class::Any)
}
