//! The lines of verdicts with a requirement, for receivers that show pages at once and late.

ghost use Rattle.std.specs.Prelude.{◌≡◌, ◌++◌, ℕ, List, OnOk, IfOk, length, string_bytes};
ghost use Rattle.ttx_certificate.specs.Certificates.{fields_of};
ghost use Rattle.ttx_certificate.specs.Entries.{CertificateFields};
ghost use Rattle.ttx_deadline.specs.RequiredLines as lines;

use crate::requirements::{LateRequiredVerdict, RequiredVerdict, Unmet};
use std::alloc::{AllocError, Global};
use ttx_certify::{Verdict, verdict_line};
use ttx_late::late_verdict_line;
use ttx_source::Service;
use ttx_witness::{Certificate, NoMemory};

// Appends what is unmet.
#[tactic(auto, unfolding(crate::specs::RequiredLines::unmet_text))]
fn push_unmet(text: &mut String, unmet: Unmet) -> Result<(), AllocError>
    ensures { OnOk result (string_bytes text.new ≡ string_bytes text.old ++ lines.unmet_text unmet) }
{
    match unmet {
        Unmet::Lines {
            certificate,
            service,
        } => write!(text, "no lines {certificate} of {service}"),
        Unmet::Deadline {
            certificate,
            required,
        } => write!(text, "no deadline {certificate} of {required}"),
        Unmet::LateDeadline {
            certificate,
            required,
        } => write!(text, "no late-deadline {certificate} of {required}"),
    }
}

fn push_unmet_line(text: &mut String, unmet: Unmet) -> Result<(), AllocError>
    ensures { OnOk result (string_bytes text.new ≡ string_bytes text.old ++ lines.unmet_line unmet) }
{
    push_unmet(text, unmet)?;
    text.push('\n')
}

// The line of what is unmet.
fn unmet_line(alloc: Global, unmet: Unmet) -> Result<String, NoMemory>
    ensures { IfOk result (λ line. string_bytes line ≡ lines.unmet_line unmet) }
{
    let mut line = String::new(alloc);
    match push_unmet_line(&mut line, unmet) {
        Ok(()) => Ok(line),
        Err(_) => Err(NoMemory),
    }
}

/// The line of a verdict, ended by 0A: that of `certify`, or `no lines L of M` or `no deadline D of E`.
pub fn required_line(
    alloc: Global,
    certificate: &Certificate,
    pages: usize,
    verdict: RequiredVerdict,
) -> Result<String, NoMemory>
    ensures { IfOk result (λ line. string_bytes line ≡ lines.required_line (fields_of certificate.now) pages verdict) }
{
    match verdict {
        RequiredVerdict::Yes => verdict_line(alloc, certificate, pages, Verdict::Yes),
        RequiredVerdict::No(reason) => verdict_line(alloc, certificate, pages, Verdict::No(reason)),
        RequiredVerdict::Unmet(unmet) => unmet_line(alloc, unmet),
    }
}

/// The line of a verdict on so many pages, ended by 0A: that of `certify --late`, or `no lines L of M` and `no late-deadline D of E`.
pub fn late_required_line(
    alloc: Global,
    certificate: &Certificate,
    pages: usize,
    verdict: LateRequiredVerdict,
) -> Result<String, NoMemory>
    ensures { IfOk result (λ line. string_bytes line ≡ lines.late_required_line (fields_of certificate.now) pages verdict) }
{
    match verdict {
        LateRequiredVerdict::Certified(verdict) => {
            late_verdict_line(alloc, certificate, pages, verdict)
        }
        LateRequiredVerdict::Unmet(unmet) => unmet_line(alloc, unmet),
    }
}

/// A verdict with a line.
pub(crate) trait Lined {
    ghost line_is: { CertificateFields → ℕ → Self → List ℕ };

    /// The line of the verdict on so many pages.
    fn line(
        &self,
        alloc: Global,
        certificate: &Certificate,
        pages: usize,
    ) -> Result<String, NoMemory>
        ensures { IfOk result (λ line. string_bytes line ≡ line_is (fields_of certificate.now) pages self.now) };
}

impl Lined for RequiredVerdict {
    ghost line_is = { lines.required_line };

    fn line(
        &self,
        alloc: Global,
        certificate: &Certificate,
        pages: usize,
    ) -> Result<String, NoMemory> {
        required_line(alloc, certificate, pages, *self)
    }
}

impl Lined for LateRequiredVerdict {
    ghost line_is = { lines.late_required_line };

    fn line(
        &self,
        alloc: Global,
        certificate: &Certificate,
        pages: usize,
    ) -> Result<String, NoMemory> {
        late_required_line(alloc, certificate, pages, *self)
    }
}

/// The line of a verdict on the pages of a service.
pub(crate) fn service_line<V: Lined>(
    alloc: Global,
    service: &Service,
    certificate: &Certificate,
    verdict: &V,
) -> Result<String, NoMemory>
    ensures { IfOk result (λ line. string_bytes line ≡ V.line_is (fields_of certificate.now) (length service.now.pages) verdict.now) }
{
    verdict.line(alloc, certificate, service.pages().len())
}
