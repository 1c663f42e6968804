//! Certifies for receivers that take a row whole or not at all: the verdicts of `certify_service` and `certify_late`, and what acceptance
//! guarantees beyond them.

ghost use Rattle.std.specs.Prelude.{IfOk};
ghost use Rattle.ttx_cycle.specs.Cycles.{slots_of};
ghost use Rattle.ttx_certificate.specs.Certificates.{certificate_of};
ghost use Rattle.ttx_source.specs.Services.{pages_of};
ghost use Rattle.ttx_certify.specs.Verdicts.{IsVerdict, Means};
ghost use Rattle.ttx_late.specs.LateVerdicts.{IsLateVerdict, MeansLate};
ghost use Rattle.ttx_rows.specs.RowVerdicts.{MeansByRows, MeansLateByRows};

use std::alloc::Global;
use ttx_certify::{Verdict, certify_service};
use ttx_cycle::Cycle;
use ttx_late::{LateVerdict, certify_late};
use ttx_source::Service;
use ttx_witness::{Certificate, NoMemory};

/// The verdict of `certify_service`. If it is `Yes`, each page is also seen, under the error rule by rows, by receivers that refuse a row with
/// a byte of even parity, lose rows, or show a space for a wrong character of a header.
pub fn certify_by_rows(
    alloc: Global,
    cycle: &Cycle,
    service: &Service,
    certificate: &Certificate,
) -> Result<Verdict, NoMemory>
    ensures exact { IfOk result (IsVerdict (slots_of cycle.now) (pages_of service.now) (certificate_of certificate.now)) }
    ensures seen { IfOk result (Means (slots_of cycle.now) (pages_of service.now) (certificate_of certificate.now)) }
    ensures rows { IfOk result (MeansByRows (slots_of cycle.now) (pages_of service.now) (certificate_of certificate.now)) }
{
    crate::laws::accepted_is_seen_by_rows();
    ttx_page::laws::pages_keep_their_rules();
    ttx_witness::certificate_laws::certificates_keep_their_rules();
    let _pages = service.pages();
    certify_service(alloc, cycle, service, certificate)
}

/// The verdict of `certify_late`. If it is `Yes`, such receivers see each page at once, and those that show pages late show it.
pub fn certify_late_by_rows(
    alloc: Global,
    cycle: &Cycle,
    service: &Service,
    certificate: &Certificate,
) -> Result<LateVerdict, NoMemory>
    ensures exact { IfOk result (IsLateVerdict (slots_of cycle.now) (pages_of service.now) (certificate_of certificate.now)) }
    ensures seen { IfOk result (MeansLate (slots_of cycle.now) (pages_of service.now) (certificate_of certificate.now)) }
    ensures rows { IfOk result (MeansLateByRows (slots_of cycle.now) (pages_of service.now) (certificate_of certificate.now)) }
{
    crate::laws::accepted_is_seen_by_rows();
    crate::laws::accepted_is_shown_by_rows();
    ttx_page::laws::pages_keep_their_rules();
    ttx_witness::certificate_laws::certificates_keep_their_rules();
    let _pages = service.pages();
    certify_late(alloc, cycle, service, certificate)
}
