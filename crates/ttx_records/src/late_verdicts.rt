//! Verdicts of `certify --late`.

ghost use Rattle.std.specs.Prelude.{◌≡◌, ◌++◌, IfOk, OnOk, length, string_bytes};
ghost use Rattle.ttx_certificate.specs.Certificates.{fields_of};
ghost use Rattle.ttx_records.specs.LateVerdicts as rule;

use crate::members::{No, push_of_page};
use crate::verdicts::{push_reason, push_yes};
use std::alloc::{AllocError, Global};
use ttx_json::count;
use ttx_late::LateVerdict;
use ttx_source::Service;
use ttx_witness::Certificate;

/// Adds a verdict on so many pages.
pub fn push_late_verdict(
    alloc: Global,
    text: &mut String,
    certificate: &Certificate,
    pages: usize,
    verdict: LateVerdict,
) -> Result<(), AllocError>
    ensures { OnOk result (string_bytes text.new ≡ string_bytes text.old ++ rule.late_record (fields_of certificate.now) pages verdict) }
{
    match verdict {
        LateVerdict::Yes { gap } => {
            let late = [count("late", gap as u64)];
            push_yes(alloc, text, certificate, pages, &late)
        }
        LateVerdict::No(reason) => push_reason(alloc, text, reason),
        LateVerdict::NeverShown { page, slot } => {
            let slot = [count("slot", slot as u64)];
            push_of_page(alloc, text, No(13, "never-shown"), page, &slot)
        }
    }
}

/// The object of a verdict on the pages of a service.
pub fn late_record(
    alloc: Global,
    service: &Service,
    certificate: &Certificate,
    verdict: &LateVerdict,
) -> Result<String, AllocError>
    ensures { IfOk result (λ text. string_bytes text ≡ rule.late_record (fields_of certificate.now) (length service.now.pages) verdict.now) }
{
    let pages = service.pages().len();
    let mut text = String::new(alloc);
    push_late_verdict(alloc, &mut text, certificate, pages, *verdict)?;
    Ok(text)
}
