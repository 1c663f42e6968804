//! The lines of verdicts for receivers that may show pages late.

ghost use Rattle.std.specs.Prelude.{◌≡◌, ◌∷◌, ◌++◌, [], OnOk, IfOk, length, string_bytes};
ghost use Rattle.ttx_certificate.specs.Certificates.{fields_of};
ghost use Rattle.ttx_certify.specs.VerdictLines.{page_words, slot_words};
ghost use Rattle.ttx_late.specs.LateVerdictLines.{late_text, late_verdict_line};

use crate::verdict::LateVerdict;
use std::alloc::{AllocError, Global};
use ttx_certify::{Verdict, push_yes, verdict_line};
use ttx_header::PageId;
use ttx_source::Service;
use ttx_witness::{Certificate, NoMemory, push_id};

fn push_late(
    text: &mut String,
    certificate: &Certificate,
    pages: usize,
    gap: usize,
) -> Result<(), AllocError>
    ensures { OnOk result (string_bytes text.new ≡ string_bytes text.old ++ late_text (fields_of certificate.now) pages gap) }
{
    push_yes(text, certificate, pages)?;
    write!(text, " late {gap}\n")
}

fn push_page(text: &mut String, name: &str, page: PageId) -> Result<(), AllocError>
    ensures { OnOk result (string_bytes text.new ≡ string_bytes text.old ++ page_words name.now page) }
{
    text.push_str(name)?;
    text.push(' ')?;
    push_id(text, page)
}

fn push_slot(text: &mut String, name: &str, page: PageId, slot: usize) -> Result<(), AllocError>
    ensures { OnOk result (string_bytes text.new ≡ string_bytes text.old ++ slot_words name.now page slot) }
{
    push_page(text, name, page)?;
    write!(text, " {slot}")
}

fn push_ended(text: &mut String, name: &str, page: PageId, slot: usize) -> Result<(), AllocError>
    ensures { OnOk result (string_bytes text.new ≡ string_bytes text.old ++ slot_words name.now page slot ++ 10 ∷ []) }
{
    push_slot(text, name, page, slot)?;
    text.push('\n')
}

fn yes_line(
    alloc: Global,
    certificate: &Certificate,
    pages: usize,
    gap: usize,
) -> Result<String, NoMemory>
    ensures { IfOk result (λ line. string_bytes line ≡ late_text (fields_of certificate.now) pages gap) }
{
    let mut line = String::new(alloc);
    match push_late(&mut line, certificate, pages, gap) {
        Ok(()) => Ok(line),
        Err(_) => Err(NoMemory),
    }
}

fn slot_line(alloc: Global, name: &str, page: PageId, slot: usize) -> Result<String, NoMemory>
    ensures { IfOk result (λ line. string_bytes line ≡ slot_words name.now page slot ++ 10 ∷ []) }
{
    let mut line = String::new(alloc);
    match push_ended(&mut line, name, page, slot) {
        Ok(()) => Ok(line),
        Err(_) => Err(NoMemory),
    }
}

/// The line of a verdict on `pages` pages. It ends with the byte 0A. `Err` if memory runs out.
pub fn late_verdict_line(
    alloc: Global,
    certificate: &Certificate,
    pages: usize,
    verdict: LateVerdict,
) -> Result<String, NoMemory>
    ensures { IfOk result (λ line. string_bytes line ≡ late_verdict_line (fields_of certificate.now) pages verdict) }
{
    match verdict {
        LateVerdict::Yes { gap } => yes_line(alloc, certificate, pages, gap),
        LateVerdict::No(reason) => { verdict_line(alloc, certificate, pages, Verdict::No(reason)) }
        LateVerdict::NeverShown { page, slot } => {
            slot_line(alloc, "no 13 never-shown", page, slot)
        }
    }
}

/// The line of a verdict on the pages of a service.
pub(crate) fn late_line(
    alloc: Global,
    service: &Service,
    certificate: &Certificate,
    verdict: &LateVerdict,
) -> Result<String, NoMemory>
    ensures { IfOk result (λ line. string_bytes line ≡ late_verdict_line (fields_of certificate.now) (length service.now.pages) verdict.now) }
{
    late_verdict_line(alloc, certificate, service.pages().len(), *verdict)
}
