//! The text of a verdict and of the first reason of each page.

ghost use Rattle.std.specs.Prelude.{◌≡◌, ◌++◌, OnOk, IfOk, string_bytes};
ghost use Rattle.ttx_certificate.specs.Certificates.{fields_of};
ghost use Rattle.ttx_certify.specs.AllLines.{page_line, page_lines, has_reason, reasons_in, count_line, all_text};

use crate::all_reasons::{AllReasons, PageReason};
use crate::verdict_lines::{push_reason, verdict_line};
use std::alloc::{AllocError, Global};
use ttx_witness::{Certificate, NoMemory};

// Adds the line of a page, if it has a reason.
fn push_page_line(text: &mut String, told: PageReason) -> Result<(), AllocError>
    ensures { OnOk result (string_bytes text.new ≡ string_bytes text.old ++ page_line told) }
{
    match told.reason {
        None => Ok(()),
        Some(reason) => {
            text.push_str("no ")?;
            push_reason(text, reason)?;
            text.push('\n')
        }
    }
}

// Adds the lines of the pages that have a reason.
fn push_page_lines(text: &mut String, pages: &[PageReason]) -> Result<(), AllocError>
    ensures { OnOk result (string_bytes text.new ≡ string_bytes text.old ++ page_lines pages.now) }
{
    for told in pages {
        push_page_line(text, *told)?;
    }
    Ok(())
}

// Whether a page has a reason.
fn has_reason(told: PageReason) -> bool
    ensures { result ≡ has_reason told }
{
    told.reason.is_some()
}

/// How many pages have a reason.
pub fn reasons_in(pages: &[PageReason]) -> usize
    ensures { result ≡ reasons_in pages.now }
{
    let mut count = 0;
    for told in pages {
        if has_reason(*told) {
            count += 1;
        }
    }
    count
}

// Adds the number of pages with a reason, and of all pages.
fn push_count(text: &mut String, pages: &[PageReason]) -> Result<(), AllocError>
    ensures { OnOk result (string_bytes text.new ≡ string_bytes text.old ++ count_line pages.now) }
{
    let (reasons, count) = (reasons_in(pages), pages.len());
    write!(text, "reasons {reasons} pages {count}\n")
}

// Adds the lines of the pages, and the count.
fn push_all(text: &mut String, pages: &[PageReason]) -> Result<(), AllocError>
    ensures { OnOk result (string_bytes text.new ≡ string_bytes text.old ++ page_lines pages.now ++ count_line pages.now) }
{
    push_page_lines(text, pages)?;
    push_count(text, pages)
}

/// The text of a verdict and of the first reason of each page: the line of the verdict, a line for each page with a reason, and how many
/// pages have one. Each line ends with the byte 0A.
pub fn all_text(
    alloc: Global,
    certificate: &Certificate,
    all: &AllReasons,
) -> Result<String, NoMemory>
    ensures { IfOk result (λ text. string_bytes text ≡ all_text (fields_of certificate.now) all.now.verdict all.now.pages.items) }
{
    let pages = all.pages.as_slice();
    let mut text = verdict_line(alloc, certificate, pages.len(), all.verdict)?;
    match push_all(&mut text, pages) {
        Ok(()) => Ok(text),
        Err(_) => Err(NoMemory),
    }
}
