//! The lines of verdicts.

ghost use Rattle.std.specs.Prelude.{◌≡◌, ◌∷◌, ◌++◌, [], OnOk, IfOk, string_bytes};
ghost use Rattle.ttx_certify.specs.VerdictLines.{page_words, slot_words, item_words, start_words, reason_text, class_words, yes_text, verdict_text};
ghost use Rattle.ttx_certify.specs.VerdictLines.{verdict_line};
ghost use Rattle.ttx_certificate.specs.Certificates.{fields_of};

use crate::verdict::Verdict;
use std::alloc::{AllocError, Global};
use ttx_header::PageId;
use ttx_page::{Class, Item};
use ttx_witness::{Certificate, NoMemory, Reason, push_id, push_item};

fn push_page(text: &mut String, name: &str, page: PageId) -> Result<(), AllocError>
    ensures { OnOk result (string_bytes text.new ≡ string_bytes text.old ++ page_words name.now page) }
{
    text.push_str(name)?;
    text.push(' ')?;
    push_id(text, page)
}

fn push_slot(text: &mut String, name: &str, page: PageId, slot: u32) -> Result<(), AllocError>
    ensures { OnOk result (string_bytes text.new ≡ string_bytes text.old ++ slot_words name.now page slot) }
{
    push_page(text, name, page)?;
    write!(text, " {slot}")
}

fn push_of(text: &mut String, name: &str, page: PageId, item: Item) -> Result<(), AllocError>
    ensures { OnOk result (string_bytes text.new ≡ string_bytes text.old ++ item_words name.now page item) }
{
    push_page(text, name, page)?;
    push_item(text, item)
}

fn push_start(
    text: &mut String,
    name: &str,
    page: PageId,
    item: Item,
    start: u32,
) -> Result<(), AllocError>
    ensures { OnOk result (string_bytes text.new ≡ string_bytes text.old ++ start_words name.now page item start) }
{
    push_of(text, name, page, item)?;
    write!(text, " {start}")
}

/// Adds a reason: its number, its name, and the page, slot, item or start that it names.
pub fn push_reason(text: &mut String, reason: Reason) -> Result<(), AllocError>
    ensures { OnOk result (string_bytes text.new ≡ string_bytes text.old ++ reason_text reason) }
{
    match reason {
        Reason::BadSlot { slot } => write!(text, "1 bad-slot {slot}"),
        Reason::NoHeader { page } => push_page(text, "2 no-header", page),
        Reason::OtherSubpage { page, slot } => push_slot(text, "3 other-subpage", page, slot),
        Reason::Erased { page, slot } => push_slot(text, "4 erased", page, slot),
        Reason::HeadDiffers { page, slot } => push_slot(text, "5 head-differs", page, slot),
        Reason::RowDiffers { page, slot } => push_slot(text, "6 row-differs", page, slot),
        Reason::LinksDiffer { page, slot } => push_slot(text, "7 links-differ", page, slot),
        Reason::NoWitness { page, item } => push_of(text, "8 no-witness", page, item),
        Reason::WitnessBad { page, item, start } => {
            push_start(text, "9 witness-bad", page, item, start)
        }
        Reason::Late { page, item, start } => push_start(text, "10 late", page, item, start),
        Reason::Unsteady => text.push_str("11 unsteady"),
        Reason::LateBlank { page, item, header } => {
            push_start(text, "12 late-blank", page, item, header)
        }
    }
}

fn push_class(text: &mut String, class: Class) -> Result<(), AllocError>
    ensures { OnOk result (string_bytes text.new ≡ string_bytes text.old ++ class_words class) }
{
    match class {
        Class::Any => Ok(()),
        Class::Clearing => text.push_str(" class clearing"),
    }
}

/// Adds the words of a yes for `pages` pages, without the end of the line.
pub fn push_yes(
    text: &mut String,
    certificate: &Certificate,
    pages: usize,
) -> Result<(), AllocError>
    ensures { OnOk result (string_bytes text.new ≡ string_bytes text.old ++ yes_text (fields_of certificate.now) pages) }
{
    let lines = certificate.lines();
    let repeat = certificate.repeat();
    let deadline = certificate.deadline();
    write!(
        text,
        "yes lines {lines} repeat {repeat} deadline {deadline} pages {pages}"
    )?;
    push_class(text, certificate.class())
}

fn push_verdict(
    text: &mut String,
    certificate: &Certificate,
    pages: usize,
    verdict: Verdict,
) -> Result<(), AllocError>
    ensures { OnOk result (string_bytes text.new ≡ string_bytes text.old ++ verdict_line (fields_of certificate.now) pages verdict) }
{
    match verdict {
        Verdict::Yes => push_yes(text, certificate, pages)?,
        Verdict::No(reason) => {
            text.push_str("no ")?;
            push_reason(text, reason)?;
        }
    }
    text.push('\n')
}

/// The line of a verdict on `pages` pages. It ends with the byte 0A.
pub fn verdict_line(
    alloc: Global,
    certificate: &Certificate,
    pages: usize,
    verdict: Verdict,
) -> Result<String, NoMemory>
    ensures { IfOk result (λ line. string_bytes line ≡ verdict_line (fields_of certificate.now) pages verdict) }
{
    let mut line = String::new(alloc);
    match push_verdict(&mut line, certificate, pages, verdict) {
        Ok(()) => Ok(line),
        Err(_) => Err(NoMemory),
    }
}
