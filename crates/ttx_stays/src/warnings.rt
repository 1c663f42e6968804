//! The warnings about the stays of a service.

ghost use Rattle.std.specs.Prelude.{◌≡◌, ◌++◌, map, OnOk, string_bytes};
ghost use Rattle.ttx_source.specs.PromiseViews.{promise_view};
ghost use Rattle.ttx_stays.specs.StayWarnings.{stay_warnings};

use crate::short_numbers::push_short_numbers;
use crate::unkept_stays::push_unkept_stays;
use std::alloc::AllocError;
use ttx_source::{Promise, Service};

/// Adds a line for each page number with several pages, none of which has a stay of three seconds or more; then one for each stay that no
/// plan keeps: its page is the only one of its number, or the pages of the number take more slots than a cycle has. `Err` if memory runs out.
pub fn push_stay_warnings(
    text: &mut String,
    service: &Service,
    stays: &[Promise],
) -> Result<(), AllocError>
    ensures { OnOk result (string_bytes text.new ≡ string_bytes text.old ++ stay_warnings service.now (map promise_view stays.now)) }
{
    let pages = service.pages();
    push_short_numbers(text, pages, stays)?;
    push_unkept_stays(text, service.lines(), pages, stays)
}
