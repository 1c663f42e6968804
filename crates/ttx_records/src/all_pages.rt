//! The verdict of `certify`, and the first reason of each page.

ghost use Rattle.std.specs.Prelude.{◌≡◌, ◌++◌, IfOk, OnOk, string_bytes};
ghost use Rattle.ttx_certificate.specs.Certificates.{fields_of};
ghost use Rattle.ttx_records.specs.Verdicts as rule;

use crate::verdicts::{push_reason, push_verdict};
use std::alloc::{AllocError, Global};
use ttx_certify::{AllReasons, PageReason, reasons_in};
use ttx_json::{count, push_object};
use ttx_witness::Certificate;

// Adds the object of a page, if it has a reason.
fn push_page(alloc: Global, text: &mut String, told: PageReason) -> Result<(), AllocError>
    ensures { OnOk result (string_bytes text.new ≡ string_bytes text.old ++ rule.page_record told) }
{
    match told.reason {
        None => Ok(()),
        Some(reason) => push_reason(alloc, text, reason),
    }
}

// Adds the objects of the pages that have a reason.
fn push_pages(alloc: Global, text: &mut String, pages: &[PageReason]) -> Result<(), AllocError>
    ensures { OnOk result (string_bytes text.new ≡ string_bytes text.old ++ rule.page_records pages.now) }
{
    for told in pages {
        push_page(alloc, text, *told)?;
    }
    Ok(())
}

// Adds the number of pages with a reason, and of all pages.
#[tactic(auto, unfolding(crate::specs::Names::line))]
fn push_count(alloc: Global, text: &mut String, pages: &[PageReason]) -> Result<(), AllocError>
    ensures { OnOk result (string_bytes text.new ≡ string_bytes text.old ++ rule.count_record pages.now) }
{
    let members = [
        count("reasons", reasons_in(pages) as u64),
        count("pages", pages.len() as u64),
    ];
    push_object(alloc, text, &members)
}

// Adds the objects of the pages, and the count.
fn push_all(alloc: Global, text: &mut String, pages: &[PageReason]) -> Result<(), AllocError>
    ensures { OnOk result (string_bytes text.new ≡ string_bytes text.old ++ rule.page_records pages.now ++ rule.count_record pages.now) }
{
    push_pages(alloc, text, pages)?;
    push_count(alloc, text, pages)
}

/// The objects of a verdict and of the first reason of each page: those of the lines of `ttx_certify::All`.
pub fn all_records(
    alloc: Global,
    certificate: &Certificate,
    all: &AllReasons,
) -> Result<String, AllocError>
    ensures { IfOk result (λ text. string_bytes text ≡ rule.all_records (fields_of certificate.now) all.now.verdict all.now.pages.items) }
{
    let pages = all.pages.as_slice();
    let mut text = String::new(alloc);
    push_verdict(alloc, &mut text, certificate, pages.len(), all.verdict)?;
    push_all(alloc, &mut text, pages)?;
    Ok(text)
}
