//! What the types of its parts say about a service and the cycle that carries it. These functions do nothing at run time.

ghost use Rattle.ttx_cycle.specs.Cycles.{slots_of};
ghost use Rattle.ttx_plan.specs.Acceptance.{IsPlanned};
ghost use Rattle.ttx_plan.specs.Carries.{CarriesAt};
ghost use Rattle.ttx_plan.specs.Laws.{IsSaid};
ghost use Rattle.ttx_plan.specs.Ranges.{ArePlaces};

use crate::asked::Receivers;
use ttx_cycle::Cycle;
use ttx_source::Service;

// The fields of packet 8/30 are in their ranges.
fn is_said(service: &Service)
    ensures { IsSaid service.now.info }
{
    if let Some(info) = service.info() {
        let _designation = info.designation();
        ttx_info::laws::initial_page_is_a_target(info);
    }
}

/// A cycle that carries a service, with each page at a place in range, is a planned one.
pub fn is_planned(receivers: Receivers, service: &Service, places: &[usize], cycle: &Cycle)
    requires places { ArePlaces places.now service.now.pages }
    requires carries { CarriesAt places.now receivers.late receivers.class service.now (slots_of cycle.now) }
    ensures { IsPlanned receivers.late receivers.class service.now (slots_of cycle.now) }
{
    ttx_page::laws::pages_have_links();
    let _pages = service.pages();
    is_said(service);
}
