//! Verdicts of `certify`.

ghost use Rattle.std.specs.Prelude.{◌≡◌, ◌++◌, IfOk, OnOk, map, string_bytes};
ghost use Rattle.ttx_certificate.specs.Certificates.{fields_of};
ghost use Rattle.ttx_json.specs.Members.{member_of};
ghost use Rattle.ttx_records.specs.Names.{line};
ghost use Rattle.ttx_records.specs.Verdicts as rule;

use crate::members::{No, at, push_joined, push_no, push_of_item, push_of_page};
use crate::names::class_name;
use std::alloc::{AllocError, Global};
use ttx_certify::Verdict;
use ttx_json::{Member, count, word};
use ttx_witness::{Certificate, Reason};

/// Adds a rejection for a reason.
pub fn push_reason(alloc: Global, text: &mut String, reason: Reason) -> Result<(), AllocError>
    ensures { OnOk result (string_bytes text.new ≡ string_bytes text.old ++ line (rule.reason_members reason)) }
{
    match reason {
        Reason::BadSlot { slot } => push_no(alloc, text, No(1, "bad-slot"), &[at(slot)]),
        Reason::NoHeader { page } => push_of_page(alloc, text, No(2, "no-header"), page, &[]),
        Reason::OtherSubpage { page, slot } => {
            push_of_page(alloc, text, No(3, "other-subpage"), page, &[at(slot)])
        }
        Reason::Erased { page, slot } => {
            push_of_page(alloc, text, No(4, "erased"), page, &[at(slot)])
        }
        Reason::HeadDiffers { page, slot } => {
            push_of_page(alloc, text, No(5, "head-differs"), page, &[at(slot)])
        }
        Reason::RowDiffers { page, slot } => {
            push_of_page(alloc, text, No(6, "row-differs"), page, &[at(slot)])
        }
        Reason::LinksDiffer { page, slot } => {
            push_of_page(alloc, text, No(7, "links-differ"), page, &[at(slot)])
        }
        Reason::NoWitness { page, item } => {
            push_of_item(alloc, text, No(8, "no-witness"), (page, item), &[])
        }
        Reason::WitnessBad { page, item, start } => {
            let start = [count("start", u64::from(start))];
            push_of_item(alloc, text, No(9, "witness-bad"), (page, item), &start)
        }
        Reason::Late { page, item, start } => {
            let start = [count("start", u64::from(start))];
            push_of_item(alloc, text, No(10, "late"), (page, item), &start)
        }
        Reason::Unsteady => push_no(alloc, text, No(11, "unsteady"), &[]),
        Reason::LateBlank { page, item, header } => {
            let header = [count("header", u64::from(header))];
            push_of_item(alloc, text, No(12, "late-blank"), (page, item), &header)
        }
    }
}

/// Adds a yes for so many pages, with further members.
pub fn push_yes(
    alloc: Global,
    text: &mut String,
    certificate: &Certificate,
    pages: usize,
    further: &[Member],
) -> Result<(), AllocError>
    ensures { OnOk result (string_bytes text.new ≡ string_bytes text.old
        ++ line (rule.yes_members (fields_of certificate.now) pages (map member_of further.now))) }
{
    let first = [
        word("answer", "yes"),
        count("lines", u64::from(certificate.lines())),
        count("repeat", u64::from(certificate.repeat())),
        count("deadline", u64::from(certificate.deadline())),
        count("pages", pages as u64),
        word("class", class_name(certificate.class())),
    ];
    push_joined(alloc, text, &first, further)
}

/// Adds a verdict on so many pages.
pub fn push_verdict(
    alloc: Global,
    text: &mut String,
    certificate: &Certificate,
    pages: usize,
    verdict: Verdict,
) -> Result<(), AllocError>
    ensures { OnOk result (string_bytes text.new ≡ string_bytes text.old ++ rule.verdict_record (fields_of certificate.now) pages verdict) }
{
    match verdict {
        Verdict::Yes => push_yes(alloc, text, certificate, pages, &[]),
        Verdict::No(reason) => push_reason(alloc, text, reason),
    }
}

/// The object of a verdict on `pages` pages.
pub fn verdict_record(
    alloc: Global,
    certificate: &Certificate,
    pages: usize,
    verdict: Verdict,
) -> Result<String, AllocError>
    ensures { IfOk result (λ text. string_bytes text ≡ rule.verdict_record (fields_of certificate.now) pages verdict) }
{
    let mut text = String::new(alloc);
    push_verdict(alloc, &mut text, certificate, pages, verdict)?;
    Ok(text)
}
