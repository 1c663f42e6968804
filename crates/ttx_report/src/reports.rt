//! A report on a cycle, the service that it carries, and a certificate.

ghost use Rattle.std.specs.Prelude.{◌≡◌, ◌++◌, IfOk, OnOk, Option, length, map, option_map, string_bytes};
ghost use Rattle.ttx_certify.specs.VerdictLines.{verdict_line};
ghost use Rattle.ttx_cycle.specs.Cycles.{slots_of};
ghost use Rattle.ttx_promise.specs.OtherPages.{other_pages};
ghost use Rattle.ttx_promise.specs.PromisedWaits.{ArePromisedWaits};
ghost use Rattle.ttx_report.specs.Files.{marks_view};
ghost use Rattle.ttx_report.specs.Reports as rule;
ghost use Rattle.ttx_report.specs.Waits.{waits_told};
ghost use Rattle.ttx_source.specs.PromiseViews.{promise_view};
ghost use Rattle.ttx_source.specs.Services.{authored_ids, pages_of};
ghost use Rattle.ttx_certificate.specs.Certificates.{fields_of};
ghost use Rattle.ttx_witness.specs.laws.WaitLaws.{greatest as greatest_told};

use crate::marks::{Marks, Sizes, push_date, push_files, push_version};
use crate::verdicts::{push_decoders, push_numbers, push_verdict};
use crate::waits::{greatest_of, push_others, push_waits};
use std::alloc::{AllocError, Global};
use ttx_certify::{Verdict, certify_service, verdict_line};
use ttx_cycle::Cycle;
use ttx_document::{push_body, push_end, push_start, push_style};
use ttx_header::PageId;
use ttx_promise::{PromisedWait, other_pages, promised_waits};
use ttx_source::{Promise, Service};
use ttx_witness::{Certificate, NoMemory, bad_slot};

/// What a report is on: a cycle, the service that it carries with its promises, a certificate, and the SHA-256 of their files.
#[derive(Clone, Copy)]
pub struct Filing<'a> {
    pub cycle: &'a Cycle,
    pub service: &'a Service,
    pub promises: &'a [Promise],
    pub certificate: &'a Certificate,
    pub marks: Marks,
}

/// The lines that name the program, and the date, if one is given.
#[derive(Clone, Copy)]
pub struct Imprint<'a> {
    pub version: &'a str,
    pub date: Option<&'a str>,
}

/// The verdict on a cycle, and the report as an HTML document.
#[derive(Drop)]
pub struct Document {
    pub verdict: Verdict,
    pub text: String,
}

// What is found out: the verdict and its line, the waits, the first bad slot, and the pages on the air that the service does not have.
#[derive(Drop)]
struct Findings {
    verdict: Verdict,
    line: String,
    waits: Vec<PromisedWait>,
    bad: Option<u32>,
    others: Vec<PageId>,
}

// The pages on the air that the service does not have.
fn others_of(alloc: Global, cycle: &Cycle, service: &Service) -> Result<Vec<PageId>, NoMemory>
    ensures { IfOk result (λ others. others.items ≡ other_pages (slots_of cycle.now) (authored_ids service.now.pages)) }
{
    match other_pages(alloc, cycle.slots(), service.pages()) {
        Ok(others) => Ok(others),
        Err(_) => Err(NoMemory),
    }
}

// The waits for the pages of the service, for the class and the repeat count of the certificate.
fn waits_of(alloc: Global, filing: &Filing<'_>) -> Result<Vec<PromisedWait>, NoMemory>
    ensures { IfOk result (λ waits. ArePromisedWaits (slots_of filing.now.cycle.now) (pages_of filing.now.service.now)
        (fields_of filing.now.certificate.now).class (fields_of filing.now.certificate.now).repeat filing.now.service.now.lines
        (map promise_view filing.now.promises.now) waits.items) }
{
    ttx_witness::certificate_laws::certificates_keep_their_rules();
    let class = filing.certificate.class();
    let repeat = filing.certificate.repeat();
    promised_waits(
        alloc,
        filing.cycle,
        filing.service,
        class,
        repeat,
        filing.promises,
    )
}

// The line of a verdict on so many pages.
fn line_of(
    alloc: Global,
    certificate: &Certificate,
    pages: usize,
    verdict: &Verdict,
) -> Result<String, NoMemory>
    ensures { IfOk result (λ line. string_bytes line ≡ verdict_line (fields_of certificate.now) pages verdict.now) }
{
    verdict_line(alloc, certificate, pages, *verdict)
}

// Finds out what is reported.
fn find_out(alloc: Global, filing: &Filing<'_>) -> Result<Findings, NoMemory>
    ensures { IfOk result (rule.AreFindings (slots_of filing.now.cycle.now) filing.now.service.now (map promise_view filing.now.promises.now)
        (fields_of filing.now.certificate.now)) }
{
    let verdict = certify_service(alloc, filing.cycle, filing.service, filing.certificate)?;
    let pages = filing.service.pages().len();
    let line = line_of(alloc, filing.certificate, pages, &verdict)?;
    let waits = waits_of(alloc, filing)?;
    let bad = bad_slot(filing.cycle);
    let others = others_of(alloc, filing.cycle, filing.service)?;
    Ok(Findings {
        verdict,
        line,
        waits,
        bad,
        others,
    })
}

#[tactic(auto, unfolding(crate::specs::Reports::head_html))]
fn push_head(text: &mut String) -> Result<(), AllocError>
    ensures { OnOk result (string_bytes text.new ≡ string_bytes text.old ++ rule.head_html) }
{
    push_start(text, "Report on a teletext carousel")?;
    push_style(text)?;
    push_body(text, "Report on a teletext carousel")
}

// Appends the verdict, and what it promises.
#[tactic(auto, unfolding(crate::specs::Reports::judged_html))]
fn push_judged(
    text: &mut String,
    service: &Service,
    certificate: &Certificate,
    verdict: Verdict,
    line: &str,
) -> Result<(), AllocError>
    requires { line.now ≡ verdict_line (fields_of certificate.now) (length service.now.pages) verdict }
    ensures { OnOk result (string_bytes text.new ≡ string_bytes text.old ++ rule.judged_html service.now (fields_of certificate.now) verdict) }
{
    push_verdict(text, certificate, service.pages().len(), verdict, line)?;
    push_numbers(text, certificate, service.lines())?;
    push_decoders(text, certificate.class())
}

// Appends how long viewers wait, and what else is on the air.
#[tactic(auto, unfolding(crate::specs::Reports::found_html))]
fn push_found(text: &mut String, found: &Findings, greatest: Option<u32>) -> Result<(), AllocError>
    requires { greatest ≡ greatest_told (waits_told found.now.waits.items) }
    ensures { OnOk result (string_bytes text.new ≡ string_bytes text.old ++ rule.found_html (rule.facts_of found.now)) }
{
    push_waits(text, &found.waits, found.bad, greatest)?;
    push_others(text, &found.others)
}

// How much the inputs have.
fn sizes_of(filing: &Filing<'_>) -> Sizes
    ensures slots { result.slots ≡ length (slots_of filing.now.cycle.now) }
    ensures pages { result.pages ≡ length filing.now.service.now.pages }
    ensures entries { result.entries ≡ length (fields_of filing.now.certificate.now).entries }
{
    Sizes {
        slots: filing.cycle.slots().len(),
        pages: filing.service.pages().len(),
        entries: filing.certificate.entries().len(),
    }
}

// Appends what the inputs are, and which program made the report.
#[tactic(auto, unfolding(crate::specs::Reports::tail_html))]
fn push_tail(
    alloc: Global,
    text: &mut String,
    filing: &Filing<'_>,
    version: &str,
) -> Result<(), AllocError>
    ensures { OnOk result (string_bytes text.new ≡ string_bytes text.old
        ++ rule.tail_html (length (slots_of filing.now.cycle.now)) filing.now.service.now (fields_of filing.now.certificate.now)
        (marks_view filing.now.marks) version.now) }
{
    push_files(alloc, text, sizes_of(filing), &filing.marks)?;
    push_version(text, version)?;
    push_end(text)
}

// The text of the document.
fn text_of(
    alloc: Global,
    filing: &Filing<'_>,
    found: &Findings,
    imprint: &Imprint<'_>,
) -> Result<String, AllocError>
    requires { string_bytes found.now.line ≡ verdict_line (fields_of filing.now.certificate.now) (length filing.now.service.now.pages)
        found.now.verdict }
    ensures { IfOk result (λ text. string_bytes text ≡ rule.report_html (length (slots_of filing.now.cycle.now)) filing.now.service.now
        (fields_of filing.now.certificate.now) (rule.facts_of found.now) (marks_view filing.now.marks) imprint.now.version.now
        (option_map (λ d. d.now) imprint.now.date)) }
{
    let greatest = greatest_of(alloc, &found.waits)?;
    let mut text = String::new(alloc);
    push_head(&mut text)?;
    push_date(&mut text, imprint.date)?;
    push_judged(
        &mut text,
        filing.service,
        filing.certificate,
        found.verdict,
        found.line.as_str(),
    )?;
    push_found(&mut text, found, greatest)?;
    push_tail(alloc, &mut text, filing, imprint.version)?;
    Ok(text)
}

/// The report as an HTML document: the line of `certify` and what it means, what is assumed and which decoders are covered, how long a
/// viewer waits for each page beside its promise, the pages on the air that the service does not have, the SHA-256 of the inputs, the
/// program, and the date, if one is given. `Err` if memory runs out.
///
/// The waits are for the class and the repeat count of the certificate, and for the lines of the service.
pub fn report(
    alloc: Global,
    filing: &Filing<'_>,
    imprint: &Imprint<'_>,
) -> Result<Document, NoMemory>
    ensures { IfOk result (λ r. rule.IsReport (slots_of filing.now.cycle.now) filing.now.service.now (map promise_view filing.now.promises.now)
        (fields_of filing.now.certificate.now) r.verdict (marks_view filing.now.marks) imprint.now.version.now
        (option_map (λ d. d.now) imprint.now.date) (string_bytes r.text)) }
{
    let found = find_out(alloc, filing)?;
    match text_of(alloc, filing, &found, imprint) {
        Ok(text) => Ok(Document {
            verdict: found.verdict,
            text,
        }),
        Err(_) => Err(NoMemory),
    }
}
