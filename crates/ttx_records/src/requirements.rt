//! Verdicts of `certify --within`.

ghost use Rattle.std.specs.Prelude.{◌≡◌, ◌++◌, IfOk, OnOk, length, string_bytes};
ghost use Rattle.ttx_certificate.specs.Certificates.{fields_of};
ghost use Rattle.ttx_records.specs.Names.{line};
ghost use Rattle.ttx_records.specs.Requirements as rule;

use crate::verdicts::{push_reason, push_yes};
use std::alloc::{AllocError, Global};
use ttx_deadline::{RequiredVerdict, Unmet};
use ttx_json::{count, push_object, word};
use ttx_source::Service;
use ttx_witness::Certificate;

// Adds a rejection for a number that is not as required.
#[tactic(auto, unfolding(crate::specs::Names::line))]
fn push_of(
    alloc: Global,
    text: &mut String,
    name: &str,
    value: u32,
    most: u32,
) -> Result<(), AllocError>
    ensures { OnOk result (string_bytes text.new ≡ string_bytes text.old ++ line (rule.unmet name.now value most)) }
{
    let members = [
        word("answer", "no"),
        word("name", name),
        count(name, u64::from(value)),
        count("of", u64::from(most)),
    ];
    push_object(alloc, text, &members)
}

// Adds a rejection for a requirement.
fn push_unmet(alloc: Global, text: &mut String, unmet: Unmet) -> Result<(), AllocError>
    ensures { OnOk result (string_bytes text.new ≡ string_bytes text.old ++ line (rule.unmet_members unmet)) }
{
    match unmet {
        Unmet::Lines {
            certificate,
            service,
        } => {
            let most = u32::from(service);
            push_of(alloc, text, "lines", u32::from(certificate), most)
        }
        Unmet::Deadline {
            certificate,
            required,
        } => push_of(alloc, text, "deadline", certificate, required),
        Unmet::LateDeadline {
            certificate,
            required,
        } => push_of(alloc, text, "late-deadline", certificate, required),
    }
}

/// Adds a verdict on so many pages.
pub fn push_required(
    alloc: Global,
    text: &mut String,
    certificate: &Certificate,
    pages: usize,
    verdict: RequiredVerdict,
) -> Result<(), AllocError>
    ensures { OnOk result (string_bytes text.new ≡ string_bytes text.old ++ rule.required_record (fields_of certificate.now) pages verdict) }
{
    match verdict {
        RequiredVerdict::Yes => push_yes(alloc, text, certificate, pages, &[]),
        RequiredVerdict::No(reason) => push_reason(alloc, text, reason),
        RequiredVerdict::Unmet(unmet) => push_unmet(alloc, text, unmet),
    }
}

/// The object of a verdict on the pages of a service.
pub fn required_record(
    alloc: Global,
    service: &Service,
    certificate: &Certificate,
    verdict: &RequiredVerdict,
) -> Result<String, AllocError>
    ensures { IfOk result (λ text. string_bytes text ≡ rule.required_record (fields_of certificate.now) (length service.now.pages) verdict.now) }
{
    let pages = service.pages().len();
    let mut text = String::new(alloc);
    push_required(alloc, &mut text, certificate, pages, *verdict)?;
    Ok(text)
}
