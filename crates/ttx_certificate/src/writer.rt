//! Writing certificates.

ghost use Rattle.std.specs.Prelude.{◌≡◌, ◌∷◌, ◌++◌, [], OnOk, IfOk, string_bytes};
ghost use Rattle.ttx_digits.specs.PageIds.{id_text};
ghost use Rattle.ttx_certificate.specs.CertificateTexts.{item_text, starts_text, entry_text};
ghost use Rattle.ttx_certificate.specs.CertificateTexts.{entries_text, class_text, head_text, certificate_text};
ghost use Rattle.ttx_certificate.specs.EntryViews.{entry_of, entries_of};
ghost use Rattle.ttx_certificate.specs.Certificates.{fields_of};

use crate::certificates::Certificate;
use crate::entries::Entry;
use crate::no_memory::NoMemory;
use std::alloc::{AllocError, Global};
use ttx_digits::{push_decimal, push_id};
use ttx_header::PageId;
use ttx_page::{Class, Item};

// The id of a page and its text, made once for the entries of a page, which follow one another.
#[derive(Drop)]
struct PageText {
    page: PageId,
    text: String,
    ghost is: { string_bytes text ≡ id_text page },
}

/// Adds an item, after a space.
pub fn push_item(text: &mut String, item: Item) -> Result<(), AllocError>
    ensures { OnOk result (string_bytes text.new ≡ string_bytes text.old ++ item_text item) }
{
    match item {
        Item::Head => text.push_str(" head"),
        Item::Row(row) => {
            text.push_str(" row ")?;
            push_decimal(text, row.number() as usize)
        }
        Item::Links => text.push_str(" links"),
    }
}

// Adds starts, each after a space.
fn push_starts(text: &mut String, starts: &[u32]) -> Result<(), AllocError>
    ensures { OnOk result (string_bytes text.new ≡ string_bytes text.old ++ starts_text starts.now) }
{
    for start in starts {
        text.push(' ')?;
        push_decimal(text, *start as usize)?;
    }
    Ok(())
}

// The text of a page's id.
fn page_text(alloc: Global, page: PageId) -> Result<PageText, AllocError>
    ensures { IfOk result (λ words. words.page ≡ page) }
{
    let mut text = String::new(alloc);
    push_id(&mut text, page)?;
    Ok(PageText { page, text })
}

// The text of a page's id: `last`, if that is the page's.
fn next_text(alloc: Global, last: PageText, page: PageId) -> Result<PageText, AllocError>
    ensures { IfOk result (λ words. words.page ≡ page) }
{
    if last.page == page {
        return Ok(last);
    }
    page_text(alloc, page)
}

// Adds the line of an entry, whose page has this text.
fn push_entry(text: &mut String, page: &str, entry: &Entry) -> Result<(), AllocError>
    requires { page.now ≡ id_text (entry_of entry.now).page }
    ensures { OnOk result (string_bytes text.new ≡ string_bytes text.old ++ entry_text (entry_of entry.now) ++ 10 ∷ []) }
{
    text.push_str(page)?;
    push_item(text, entry.item())?;
    push_starts(text, entry.starts())?;
    text.push('\n')
}

// Adds the lines of entries.
fn push_entries(alloc: Global, text: &mut String, entries: &[Entry]) -> Result<(), AllocError>
    ensures { OnOk result (string_bytes text.new ≡ string_bytes text.old ++ entries_text (entries_of entries.now)) }
{
    let Some(first) = entries.first() else {
        return Ok(());
    };
    let mut page = page_text(alloc, first.page())?;
    for entry in entries {
        page = next_text(alloc, page, entry.page())?;
        push_entry(text, page.text.as_str(), entry)?;
    }
    Ok(())
}

// Adds the first line, and that of the class.
fn push_class(text: &mut String, class: Class) -> Result<(), AllocError>
    ensures { OnOk result (string_bytes text.new ≡ string_bytes text.old ++ class_text class) }
{
    match class {
        Class::Any => text.push_str("ttx certificate 1\n"),
        Class::Clearing => text.push_str("ttx certificate 2\nclass clearing\n"),
    }
}

// Adds the lines before the entries.
fn push_head(text: &mut String, certificate: &Certificate) -> Result<(), AllocError>
    ensures { OnOk result (string_bytes text.new ≡ string_bytes text.old ++ head_text (fields_of certificate.now)) }
{
    push_class(text, certificate.class())?;
    let lines = certificate.lines();
    writeln!(text, "lines {lines}")?;
    let repeat = certificate.repeat();
    writeln!(text, "repeat {repeat}")?;
    let deadline = certificate.deadline();
    writeln!(text, "deadline {deadline}")
}

// The whole text.
fn text_of(alloc: Global, certificate: &Certificate) -> Result<String, AllocError>
    ensures { IfOk result (λ text. string_bytes text ≡ certificate_text (fields_of certificate.now)) }
{
    let mut text = String::new(alloc);
    push_head(&mut text, certificate)?;
    push_entries(alloc, &mut text, certificate.entries())?;
    Ok(text)
}

/// The text of a certificate. `Err` only if memory runs out.
pub fn write_certificate(alloc: Global, certificate: &Certificate) -> Result<Vec<u8>, NoMemory>
    ensures { IfOk result (λ text. text.items ≡ certificate_text (fields_of certificate.now)) }
{
    match text_of(alloc, certificate) {
        Ok(text) => Ok(text.into_bytes()),
        Err(_) => Err(NoMemory),
    }
}
