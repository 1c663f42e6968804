//! Certifies, and finds certificates for, the pages of a service, whose ids are distinct.

ghost use Rattle.std.specs.Prelude.{◌≤◌, IfOk};
ghost use Rattle.ttx_cycle.specs.Cycles.{slots_of};
ghost use Rattle.ttx_source.specs.Services.{pages_of};
ghost use Rattle.ttx_certificate.specs.Certificates.{certificate_of};
ghost use Rattle.ttx_witness.specs.search.Finding.{IsFoundFor};
ghost use Rattle.ttx_certify.specs.AllReasons.{AreReasons};
ghost use Rattle.ttx_certify.specs.Verdicts.{IsVerdict, Means};

use crate::acceptance::{certify, certify_all};
use crate::all_reasons::AllReasons;
use crate::verdict::Verdict;
use std::alloc::Global;
use ttx_cycle::Cycle;
use ttx_page::Class;
use ttx_source::Service;
use ttx_witness::{Certificate, Found, NoMemory, find_for};

/// The verdict of `certify` on the pages of a service.
pub fn certify_service(
    alloc: Global,
    cycle: &Cycle,
    service: &Service,
    certificate: &Certificate,
) -> Result<Verdict, NoMemory>
    ensures exact { IfOk result (IsVerdict (slots_of cycle.now) (pages_of service.now) (certificate_of certificate.now)) }
    ensures seen { IfOk result (Means (slots_of cycle.now) (pages_of service.now) (certificate_of certificate.now)) }
{
    certify(alloc, cycle, service.pages(), certificate)
}

/// The verdict of `certify_all` on the pages of a service, and their first reasons.
pub fn certify_all_of_service(
    alloc: Global,
    cycle: &Cycle,
    service: &Service,
    certificate: &Certificate,
) -> Result<AllReasons, NoMemory>
    ensures exact { IfOk result (λ all. IsVerdict (slots_of cycle.now) (pages_of service.now) (certificate_of certificate.now) all.verdict) }
    ensures seen { IfOk result (λ all. Means (slots_of cycle.now) (pages_of service.now) (certificate_of certificate.now) all.verdict) }
    ensures reasons { IfOk result (λ all. AreReasons (slots_of cycle.now) (pages_of service.now) (certificate_of certificate.now) all.pages.items) }
{
    certify_all(alloc, cycle, service.pages(), certificate)
}

/// The certificate that `find_for` finds for the pages of a service, with its lines of a field. `repeat` is 1 to 8.
pub fn find_service(
    alloc: Global,
    cycle: &Cycle,
    service: &Service,
    repeat: u8,
    class: Class,
) -> Result<Found, NoMemory>
    requires some { 1 ≤ repeat }
    requires few { repeat ≤ 8 }
    ensures { IfOk result (λ found. IsFoundFor (slots_of cycle.now) (pages_of service.now) repeat service.now.lines class
        (certificate_of found.certificate) found.deadline) }
{
    find_for(
        alloc,
        cycle,
        service.pages(),
        repeat,
        service.lines(),
        class,
    )
}
