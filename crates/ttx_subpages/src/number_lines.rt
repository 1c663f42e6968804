//! The lines of a verdict on all numbers with several pages.

ghost use Rattle.std.specs.Prelude.{◌≡◌, ◌+◌, ◌++◌, IfOk, OnOk, string_bytes};
ghost use Rattle.ttx_digits.specs.PageIds.{id_text};
ghost use Rattle.ttx_certificate.specs.CertificateTexts.{item_text};
ghost use Rattle.ttx_certificate.specs.Certificates.{certificate_of, fields_of};
ghost use Rattle.ttx_certificate.specs.NamedStarts.{limit};
ghost use Rattle.ttx_numbers.specs.Numbers.{number_text};
ghost use Rattle.ttx_subpages.specs.NumberReports.{amounts_text, number_line, numbers_text};
ghost use Rattle.ttx_subpages.specs.NumberReports.{slot_text, unwhole_line, unlisted_line, lack_line, numbers_verdict_text};

use crate::lack::Lack;
use crate::reports::NumberReport;
use crate::verdict::NumbersVerdict;
use std::alloc::{AllocError, Global};
use ttx_digits::push_id;
use ttx_header::PageId;
use ttx_late::{LateVerdict, late_verdict_line};
use ttx_numbers::push_number;
use ttx_page::Item;
use ttx_witness::{Certificate, NoMemory, push_item};

// Appends how many pages a number has, how often each is seen, and how long.
fn push_amounts(text: &mut String, most: u128, pages: usize, stay: usize) -> Result<(), AllocError>
    ensures { OnOk result (string_bytes text.new ≡ string_bytes text.old ++ amounts_text most pages stay) }
{
    write!(text, " pages {pages} every {most} slots stays {stay}\n")
}

// Appends the line of a number.
fn push_line(text: &mut String, most: u128, report: NumberReport) -> Result<(), AllocError>
    ensures { OnOk result (string_bytes text.new ≡ string_bytes text.old ++ number_line most report) }
{
    text.push_str("number ")?;
    push_number(text, report.first)?;
    push_amounts(text, most, report.pages, report.stay)
}

// Appends the line of each number.
fn push_lines(text: &mut String, most: u128, reports: &[NumberReport]) -> Result<(), AllocError>
    ensures { OnOk result (string_bytes text.new ≡ string_bytes text.old ++ numbers_text most reports.now) }
{
    for one in reports {
        push_line(text, most, *one)?;
    }
    Ok(())
}

// Appends a page and an item of it.
fn push_of(text: &mut String, page: PageId, item: Item) -> Result<(), AllocError>
    ensures { OnOk result (string_bytes text.new ≡ string_bytes text.old ++ id_text page ++ item_text item) }
{
    push_id(text, page)?;
    push_item(text, item)
}

// Appends the end of a line: a slot.
fn push_slot(text: &mut String, slot: usize) -> Result<(), AllocError>
    ensures { OnOk result (string_bytes text.new ≡ string_bytes text.old ++ slot_text slot) }
{
    write!(text, " {slot}\n")
}

// Appends the line of a block that is not whole.
fn push_unwhole(text: &mut String, page: PageId, item: Item, slot: usize) -> Result<(), AllocError>
    ensures { OnOk result (string_bytes text.new ≡ string_bytes text.old ++ unwhole_line page item slot) }
{
    text.push_str("no 14 unwhole ")?;
    push_of(text, page, item)?;
    push_slot(text, slot)
}

// Appends the number of a page, and a slot.
fn push_at(text: &mut String, page: PageId, slot: usize) -> Result<(), AllocError>
    ensures { OnOk result (string_bytes text.new ≡ string_bytes text.old ++ number_text page ++ slot_text slot) }
{
    push_number(text, page)?;
    push_slot(text, slot)
}

// Appends the line of a header that is of no page.
fn push_unlisted(text: &mut String, page: PageId, slot: usize) -> Result<(), AllocError>
    ensures { OnOk result (string_bytes text.new ≡ string_bytes text.old ++ unlisted_line page slot) }
{
    text.push_str("no 15 unlisted ")?;
    push_at(text, page, slot)
}

// Appends the no line for what is not sent whole.
fn push_lack(text: &mut String, lack: Lack) -> Result<(), AllocError>
    ensures { OnOk result (string_bytes text.new ≡ string_bytes text.old ++ lack_line lack) }
{
    match lack {
        Lack::Unwhole { page, item, slot } => push_unwhole(text, page, item, slot),
        Lack::Unlisted { page, slot } => push_unlisted(text, page, slot),
    }
}

// The deadline and the gap, in slots.
fn most_of(certificate: &Certificate, gap: usize) -> u128
    ensures { result ≡ limit (certificate_of certificate.now) + gap }
{
    u128::from(certificate.deadline()) * u128::from(certificate.lines()) + gap as u128
}

fn lack_text(alloc: Global, lack: Lack) -> Result<String, NoMemory>
    ensures { IfOk result (λ text. string_bytes text ≡ lack_line lack) }
{
    let mut text = String::new(alloc);
    match push_lack(&mut text, lack) {
        Ok(()) => Ok(text),
        Err(_) => Err(NoMemory),
    }
}

/// The text of a verdict: the yes line, and a line for each number in `reports`; or the no line. Each line ends with the byte
/// 0A. `Err` if memory runs out.
pub fn numbers_verdict_text(
    alloc: Global,
    certificate: &Certificate,
    pages: usize,
    reports: &[NumberReport],
    verdict: NumbersVerdict,
) -> Result<String, NoMemory>
    ensures { IfOk result (λ text. string_bytes text ≡ numbers_verdict_text (fields_of certificate.now) pages reports.now verdict) }
{
    match verdict {
        NumbersVerdict::Yes { gap } => {
            let yes = LateVerdict::Yes { gap };
            let mut text = late_verdict_line(alloc, certificate, pages, yes)?;
            match push_lines(&mut text, most_of(certificate, gap), reports) {
                Ok(()) => Ok(text),
                Err(_) => Err(NoMemory),
            }
        }
        NumbersVerdict::No(verdict) => late_verdict_line(alloc, certificate, pages, verdict),
        NumbersVerdict::Lacking(lack) => lack_text(alloc, lack),
    }
}
