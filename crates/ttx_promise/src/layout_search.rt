//! How often pages are to be sent: a search over layouts, which makes no plan.

ghost use Rattle.std.specs.Prelude.{◌<◌, length, map, IfOk};
ghost use Rattle.ttx_plan.specs.Spread.{IsTooLongSpread};
ghost use Rattle.ttx_promise.specs.Lateness.{often_at};
ghost use Rattle.ttx_promise.specs.Promises.{IsRaised};
ghost use Rattle.ttx_promise.specs.Searching.{MayBeRaised, GoesOn};
ghost use Rattle.ttx_source.specs.PromiseViews.{promise_view};

use crate::lateness::{latest, page_at};
use crate::layout::{Outline, outlines};
use crate::promised_plan::Viewers;
use crate::waits_by_layout::waits_by_layout;
use std::alloc::{AllocError, Global};
use ttx_plan::{Receivers, is_too_long_spread};
use ttx_source::{Promise, Service};

// Sends a page twice as often, where the cycle fits then. Returns whether it does.
fn try_to_raise(service: &mut Service, receivers: Receivers, page: usize) -> bool
    requires page { page < length service.old.pages }
    requires rare { often_at service.old.pages page < 8 }
    ensures { MayBeRaised receivers.late receivers.class page service.old service.new result }
{
    let _pages = service.pages();
    let often = service.often(page);
    service.set_often(page, 2 * often);
    if is_too_long_spread(service, receivers) {
        service.set_often(page, often);
        return false;
    }
    true
}

// Sends the page that is the latest by the layout twice as often; whether that could be done.
fn go_on(
    alloc: Global,
    service: &mut Service,
    viewers: Viewers,
    promises: &[Promise],
    outlines: &[Outline],
) -> Result<bool, AllocError>
    ensures { IfOk result (GoesOn viewers (map promise_view promises.now) service.old service.new) }
{
    let fields = waits_by_layout(alloc, service, viewers, outlines)?;
    let _pages = service.pages();
    let Some(number) = latest(service, &fields, promises) else {
        return Ok(false);
    };
    let page = page_at(promises, number);
    Ok(try_to_raise(service, viewers.receivers, page))
}

/// As long as a page is late by its layout and the cycle fits, sends the latest page twice as often.
pub fn search(
    alloc: Global,
    service: &mut Service,
    viewers: Viewers,
    promises: &[Promise],
) -> Result<(), AllocError>
    requires fits { IsTooLongSpread viewers.receivers.late viewers.receivers.class service.old → ⊥ }
    ensures raised { IfOk result (λ _. IsRaised (map promise_view promises.now) service.old service.new) }
    ensures fits { IfOk result (λ _. IsTooLongSpread viewers.receivers.late viewers.receivers.class service.new → ⊥) }
{
    let outlines = outlines(alloc, service, viewers.receivers.class)?;
    loop {
        if !go_on(alloc, service, viewers, promises, &outlines)? {
            return Ok(());
        }
    }
}
