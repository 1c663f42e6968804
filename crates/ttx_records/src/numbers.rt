//! Verdicts of `certify --numbers`.

ghost use Rattle.std.specs.Prelude.{◌≡◌, ◌+◌, ◌++◌, IfOk, OnOk, length, string_bytes};
ghost use Rattle.ttx_certificate.specs.Certificates.{certificate_of, fields_of};
ghost use Rattle.ttx_certificate.specs.NamedStarts.{limit};
ghost use Rattle.ttx_numbers.specs.Numbers.{number_text};
ghost use Rattle.ttx_records.specs.Names.{line};
ghost use Rattle.ttx_records.specs.NumberRecords as rule;

use crate::late_verdicts::push_late_verdict;
use crate::members::{No, push_no, push_of_item};
use crate::verdicts::push_yes;
use std::alloc::{AllocError, Global};
use ttx_header::PageId;
use ttx_json::{count, push_object, word};
use ttx_numbers::push_number;
use ttx_source::Service;
use ttx_subpages::{Lack, NumberReport, NumbersVerdict};
use ttx_witness::Certificate;

/// The number of a page, as in `100`.
pub fn number_text(alloc: Global, page: PageId) -> Result<String, AllocError>
    ensures { IfOk result (λ text. string_bytes text ≡ number_text page) }
{
    let mut text = String::new(alloc);
    push_number(&mut text, page)?;
    Ok(text)
}

// Adds a number whose subpages come again within so many slots.
#[tactic(auto, unfolding(crate::specs::Names::line, crate::specs::NumberRecords::number_record))]
fn push_one(
    alloc: Global,
    text: &mut String,
    every: u64,
    report: NumberReport,
) -> Result<(), AllocError>
    ensures { OnOk result (string_bytes text.new ≡ string_bytes text.old ++ rule.number_record every report) }
{
    let number = number_text(alloc, report.first)?;
    let members = [
        word("page_number", number.as_str()),
        count("pages", report.pages as u64),
        count("every", every),
        count("stays", report.stay as u64),
    ];
    push_object(alloc, text, &members)
}

// Adds each number.
fn push_numbers(
    alloc: Global,
    text: &mut String,
    every: u64,
    reports: &[NumberReport],
) -> Result<(), AllocError>
    ensures { OnOk result (string_bytes text.new ≡ string_bytes text.old ++ rule.number_records every reports.now) }
{
    for report in reports {
        push_one(alloc, text, every, *report)?;
    }
    Ok(())
}

// The deadline and the gap, in slots.
fn within(certificate: &Certificate, gap: usize) -> u64
    ensures { result ≡ rule.at_most (limit (certificate_of certificate.now) + gap) }
{
    let slots = u128::from(certificate.deadline()) * u128::from(certificate.lines()) + gap as u128;
    slots.min(u128::from(u64::MAX)) as u64
}

// Adds a rejection for what is not sent whole.
fn push_lack(alloc: Global, text: &mut String, lack: Lack) -> Result<(), AllocError>
    ensures { OnOk result (string_bytes text.new ≡ string_bytes text.old ++ line (rule.lack_members lack)) }
{
    match lack {
        Lack::Unwhole { page, item, slot } => {
            let slot = [count("slot", slot as u64)];
            push_of_item(alloc, text, No(14, "unwhole"), (page, item), &slot)
        }
        Lack::Unlisted { page, slot } => {
            let number = number_text(alloc, page)?;
            let page = word("page_number", number.as_str());
            let members = [page, count("slot", slot as u64)];
            push_no(alloc, text, No(15, "unlisted"), &members)
        }
    }
}

/// The object of a verdict on the pages of a service, and one for each number in `reports` behind a yes.
pub fn numbers_record(
    alloc: Global,
    service: &Service,
    certificate: &Certificate,
    reports: &[NumberReport],
    verdict: &NumbersVerdict,
) -> Result<String, AllocError>
    ensures { IfOk result (λ text. string_bytes text
        ≡ rule.numbers_record (fields_of certificate.now) (length service.now.pages) reports.now verdict.now) }
{
    let pages = service.pages().len();
    let mut text = String::new(alloc);
    match *verdict {
        NumbersVerdict::Yes { gap } => {
            let late = [count("late", gap as u64)];
            push_yes(alloc, &mut text, certificate, pages, &late)?;
            push_numbers(alloc, &mut text, within(certificate, gap), reports)?;
        }
        NumbersVerdict::No(verdict) => {
            push_late_verdict(alloc, &mut text, certificate, pages, verdict)?;
        }
        NumbersVerdict::Lacking(lack) => push_lack(alloc, &mut text, lack)?,
    }
    Ok(text)
}
