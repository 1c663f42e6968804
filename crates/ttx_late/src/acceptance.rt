//! Certifies cycles for receivers that show pages late.

ghost use Rattle.std.specs.Prelude.{map, IfOk};
ghost use Rattle.ttx_cycle.specs.Cycles.{slots_of};
ghost use Rattle.ttx_page.specs.Views.{page_of};
ghost use Rattle.ttx_certificate.specs.Certificates.{certificate_of};
ghost use Rattle.ttx_source.specs.Services.{pages_of};
ghost use Rattle.ttx_late.specs.LateVerdicts.{IsFollowedVerdict, IsLateVerdict, MeansLate};

use crate::followers::{first_unshown, greatest_gap};
use crate::verdict::LateVerdict;
use std::alloc::Global;
use ttx_certify::{Verdict, certify_service};
use ttx_cycle::Cycle;
use ttx_page::Page;
use ttx_source::Service;
use ttx_witness::{Certificate, NoMemory};

// The verdict on a cycle that the certifier accepts.
fn followed_verdict(cycle: &Cycle, pages: &[Page]) -> LateVerdict
    ensures { IsFollowedVerdict (slots_of cycle.now) (map page_of pages.now) result }
{
    match first_unshown(cycle, pages) {
        Some(unshown) => LateVerdict::NeverShown {
            page: pages[unshown.page].id(),
            slot: unshown.slot,
        },
        None => LateVerdict::Yes {
            gap: greatest_gap(cycle, pages),
        },
    }
}

/// Certifies a cycle also for receivers that show pages late: gives the verdict of `certify` on the pages of a service, and if that is
/// `Yes`, decides whether each page is followed by another page number. `Yes` gives the greatest gap in slots, `NeverShown` the first
/// header that is not followed.
///
/// If the verdict is `Yes`, each page is seen on two kinds of receivers, from any tuning slot, with any former memory and with any
/// reception within the error rule, ignoring the header clock: on every permitted receiver from the deadline on, and on every receiver
/// that gathers pages by permitted steps and shows them late, from `gap` slots after the deadline on.
pub fn certify_late(
    alloc: Global,
    cycle: &Cycle,
    service: &Service,
    certificate: &Certificate,
) -> Result<LateVerdict, NoMemory>
    ensures exact { IfOk result (IsLateVerdict (slots_of cycle.now) (pages_of service.now) (certificate_of certificate.now)) }
    ensures seen { IfOk result (MeansLate (slots_of cycle.now) (pages_of service.now) (certificate_of certificate.now)) }
{
    crate::laws::accepted_is_shown();
    ttx_page::laws::pages_keep_their_rules();
    ttx_witness::certificate_laws::certificates_keep_their_rules();
    let pages = service.pages();
    match certify_service(alloc, cycle, service, certificate)? {
        Verdict::Yes => Ok(followed_verdict(cycle, pages)),
        Verdict::No(reason) => Ok(LateVerdict::No(reason)),
    }
}
