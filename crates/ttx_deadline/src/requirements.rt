//! What may be required of a certificate: the lines of the service, and a deadline, for receivers that show pages at once, or also for
//! those that show them late.

ghost use Rattle.std.specs.Prelude.{◌≡◌, ◌≤◌, IfOk};
ghost use Rattle.ttx_cycle.specs.Cycles.{slots_of};
ghost use Rattle.ttx_source.specs.Services.{pages_of};
ghost use Rattle.ttx_certificate.specs.Certificates.{fields_of};
ghost use Rattle.ttx_deadline.specs.Requirements as rule;
ghost use Rattle.ttx_deadline.specs.LateRequirements as late_rule;

use std::alloc::Global;
use ttx_certify::{Verdict, certify_service};
use ttx_cycle::Cycle;
use ttx_late::{LateVerdict, certify_late};
use ttx_source::Service;
use ttx_witness::{Certificate, NoMemory, Reason};

/// The requirement that a certificate does not meet.
#[derive(Clone, Copy)]
pub enum Unmet {
    /// It has another number of lines in a field than the service.
    Lines { certificate: u8, service: u8 },
    /// Its deadline is later than the one that is required, both in fields.
    Deadline { certificate: u32, required: u32 },
    /// Receivers that show pages late have each page later than is required, both in fields.
    LateDeadline { certificate: u32, required: u32 },
}

/// The verdict on a certificate of which a deadline may be required.
#[derive(Clone, Copy)]
pub enum RequiredVerdict {
    /// The cycle is accepted, and the certificate promises what is required.
    Yes,
    /// The first reason why the cycle isn't accepted with the certificate.
    No(Reason),
    /// The cycle is accepted, but the certificate does not meet this requirement.
    Unmet(Unmet),
}

/// The verdict on a certificate of which a deadline is required, for receivers that show pages at once and late.
#[derive(Clone, Copy)]
pub enum LateRequiredVerdict {
    /// The verdict of the certifier. After a yes the certificate promises what is required.
    Certified(LateVerdict),
    /// The cycle is accepted and each page is followed, but the certificate doesn't promise this.
    Unmet(Unmet),
}

// The first requirement that a certificate does not meet: the lines of the service, then a deadline of at most `required` fields. If the
// deadline is later, it is `missed`.
fn first_of(
    service: &Service,
    certificate: &Certificate,
    deadline: u32,
    required: u32,
    missed: Unmet,
) -> Option<Unmet>
    ensures { result ≡ rule.first_of service.now.lines (fields_of certificate.now) deadline required missed }
{
    let lines = service.lines();
    if certificate.lines() != lines {
        return Some(Unmet::Lines {
            certificate: certificate.lines(),
            service: lines,
        });
    }
    if deadline > required {
        return Some(missed);
    }
    None
}

/// The first requirement that a certificate does not meet: the lines of the service, then a deadline of at most `required` fields. `None`
/// if it meets both.
pub fn first_unmet(service: &Service, certificate: &Certificate, required: u32) -> Option<Unmet>
    ensures { result ≡ rule.first_unmet service.now.lines (fields_of certificate.now) required }
{
    let certified = certificate.deadline();
    let missed = Unmet::Deadline {
        certificate: certified,
        required,
    };
    first_of(service, certificate, certified, required, missed)
}

// The same if something is required.
fn unmet_if(service: &Service, certificate: &Certificate, required: Option<u32>) -> Option<Unmet>
    ensures { result ≡ rule.unmet_if service.now.lines (fields_of certificate.now) required }
{
    match required {
        Some(required) => first_unmet(service, certificate, required),
        None => None,
    }
}

// The verdict with what is required.
fn required_verdict(verdict: Verdict, unmet: Option<Unmet>) -> RequiredVerdict
    ensures { result ≡ rule.required_verdict verdict unmet }
{
    match (verdict, unmet) {
        (Verdict::No(reason), _) => RequiredVerdict::No(reason),
        (Verdict::Yes, Some(unmet)) => RequiredVerdict::Unmet(unmet),
        (Verdict::Yes, None) => RequiredVerdict::Yes,
    }
}

/// The verdict of `certify` on the pages of a service; if `required` is given, the certificate must also have the lines of the service and
/// a deadline of at most that many fields. A rejection by `certify` comes first. A yes with `required` means all of this, and that
/// each page is seen. `Err` if memory runs out.
pub fn certify_required(
    alloc: Global,
    cycle: &Cycle,
    service: &Service,
    certificate: &Certificate,
    required: Option<u32>,
) -> Result<RequiredVerdict, NoMemory>
    ensures exact { IfOk result (rule.IsRequiredVerdict (slots_of cycle.now) service.now (fields_of certificate.now) required) }
    ensures means { IfOk result (rule.MeansRequired (slots_of cycle.now) service.now (fields_of certificate.now) required) }
{
    let verdict = certify_service(alloc, cycle, service, certificate)?;
    Ok(required_verdict(verdict, unmet_if(service, certificate, required)))
}

// The fields after which receivers that show pages late have each page: the deadline, and so many slots in whole fields, rounded up.
fn late_deadline(certificate: &Certificate, gap: usize) -> u32
    requires few { gap ≤ 65536 }
    ensures { result ≡ late_rule.late_deadline (fields_of certificate.now) gap }
{
    ttx_witness::certificate_laws::certificates_keep_their_rules();
    let lines = usize::from(certificate.lines());
    certificate.deadline() + gap.div_ceil(lines) as u32
}

// The same for receivers that show pages late.
fn first_late_unmet(
    service: &Service,
    certificate: &Certificate,
    gap: usize,
    required: u32,
) -> Option<Unmet>
    requires few { gap ≤ 65536 }
    ensures { result ≡ late_rule.first_late_unmet service.now.lines (fields_of certificate.now) gap required }
{
    let certified = late_deadline(certificate, gap);
    let missed = Unmet::LateDeadline {
        certificate: certified,
        required,
    };
    first_of(service, certificate, certified, required, missed)
}

// The verdict on a certificate with which each page is shown, so many slots after the deadline on receivers that show it late.
fn shown_verdict(
    service: &Service,
    certificate: &Certificate,
    gap: usize,
    required: u32,
) -> LateRequiredVerdict
    requires few { gap ≤ 65536 }
    ensures { result ≡ late_rule.late_required_verdict service.now.lines (fields_of certificate.now) required (LateVerdict.Yes gap) }
{
    match first_late_unmet(service, certificate, gap, required) {
        Some(unmet) => LateRequiredVerdict::Unmet(unmet),
        None => LateRequiredVerdict::Certified(LateVerdict::Yes { gap }),
    }
}

/// The verdict of `certify_late` on the pages of a service, with a certificate that has to promise a deadline of at most `required` fields, also
/// for receivers that show pages late. For a yes the certificate must have the lines of the service, and its deadline and the gap, in
/// whole fields, rounded up, must be at most that many. So after a yes each receiver that is tuned to a page has it after `required` fields
/// and ever after, whether it shows pages at once or late. `Err` if memory runs out.
pub fn certify_late_required(
    alloc: Global,
    cycle: &Cycle,
    service: &Service,
    certificate: &Certificate,
    required: u32,
) -> Result<LateRequiredVerdict, NoMemory>
    ensures exact { IfOk result (late_rule.IsLateRequiredVerdict (slots_of cycle.now) service.now (fields_of certificate.now) required) }
    ensures means { IfOk result (late_rule.MeansLateRequired (slots_of cycle.now) service.now (fields_of certificate.now) required) }
{
    ttx_late::laws::followed_is_within();
    ttx_witness::certificate_laws::certificates_keep_their_rules();
    match certify_late(alloc, cycle, service, certificate)? {
        LateVerdict::Yes { gap } => Ok(shown_verdict(service, certificate, gap, required)),
        LateVerdict::No(reason) => Ok(LateRequiredVerdict::Certified(LateVerdict::No(reason))),
        LateVerdict::NeverShown { page, slot } => {
            let verdict = LateVerdict::NeverShown { page, slot };
            Ok(LateRequiredVerdict::Certified(verdict))
        }
    }
}
