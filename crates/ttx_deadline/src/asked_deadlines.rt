//! Finds a certificate with a deadline that is asked for.

ghost use Rattle.std.specs.Prelude.{◌≡◌, ◌≤◌, IfOk};
ghost use Rattle.ttx_cycle.specs.Cycles.{slots_of};
ghost use Rattle.ttx_source.specs.Services.{pages_of};
ghost use Rattle.ttx_certificate.specs.Certificates.{fields_of, certificate_of};
ghost use Rattle.ttx_certify.specs.declared.verdict.Verdict.TheVariants.{Yes};
ghost use Rattle.ttx_witness.specs.search.Finding.{IsEnough, IsFoundFor};
ghost use Rattle.ttx_deadline.specs.Deadlines.{IsFoundWith};

use crate::copies::with_deadline;
use std::alloc::Global;
use ttx_certify::{Verdict, certify_service, find_service};
use ttx_cycle::Cycle;
use ttx_page::Class;
use ttx_source::Service;
use ttx_witness::{Certificate, Found, NoMemory};

/// The certificate that is asked for.
#[derive(Clone, Copy)]
pub struct Asked {
    /// The class of receivers.
    pub class: Class,
    /// The repeat count, 1 to 8: of so many successive transmissions of a character one arrives right.
    pub repeat: u8,
    /// The deadline in fields, 1 to 1,000,000.
    pub deadline: u32,
}

/// A certificate with the deadline that was asked for, and the certifier's verdict on it.
#[derive(Drop)]
pub struct FoundWith {
    pub certificate: Certificate,
    pub verdict: Verdict,
}

/// A certificate that `find_service` has found, with the deadline that is asked for, and the verdict on it, as `find_with` gives it. It is yes if
/// the least deadline is at most the one that is asked for. `Err` if memory runs out.
pub fn with_found(
    alloc: Global,
    cycle: &Cycle,
    service: &Service,
    found: &Found,
    asked: Asked,
) -> Result<FoundWith, NoMemory>
    requires some_fields { 1 ≤ asked.deadline }
    requires few_fields { asked.deadline ≤ 1000000 }
    ensures { IfOk result (λ with.
        IsFoundFor (slots_of cycle.now) (pages_of service.now) asked.repeat service.now.lines asked.class (certificate_of found.now.certificate)
        found.now.deadline →
        IsFoundWith (slots_of cycle.now) (pages_of service.now) service.now.lines asked (fields_of with.certificate) with.verdict
        × (IsEnough found.now.deadline asked.deadline → with.verdict ≡ Yes)) }
{
    ttx_witness::certificate_laws::certificates_keep_their_rules();
    let certificate = with_deadline(alloc, &found.certificate, asked.deadline)?;
    let verdict = certify_service(alloc, cycle, service, &certificate)?;
    Ok(FoundWith {
        certificate,
        verdict,
    })
}

/// The certificate that `find_service` finds, with the deadline that is asked for instead of the least, and the verdict on it: yes exactly
/// if the least deadline is at most the one that is asked for, otherwise the first reason why the cycle is not accepted with it. So two
/// editions can have certificates with one deadline, as `splice` requires. `Err` if memory runs out.
pub fn find_with(
    alloc: Global,
    cycle: &Cycle,
    service: &Service,
    asked: Asked,
) -> Result<FoundWith, NoMemory>
    requires some { 1 ≤ asked.repeat }
    requires few { asked.repeat ≤ 8 }
    requires some_fields { 1 ≤ asked.deadline }
    requires few_fields { asked.deadline ≤ 1000000 }
    ensures { IfOk result (λ found. IsFoundWith (slots_of cycle.now) (pages_of service.now) service.now.lines asked
        (fields_of found.certificate) found.verdict) }
{
    let found = find_service(alloc, cycle, service, asked.repeat, asked.class)?;
    with_found(alloc, cycle, service, &found, asked)
}
