//! Reading certificates.

ghost use Rattle.std.specs.Prelude.{◌≡◌, ◌+◌, ◌<◌, ◌≤◌, ◌^◌, ◌&&◌, true, length, codes, IfOk, Some, None, if◌then◌else◌};
ghost use Rattle.std.specs.Str.{bytes_eq};
ghost use Rattle.ttx_header.specs.Ids.{id_at};
ghost use Rattle.ttx_certificate.specs.Entries.{is_item, is_page_id, rises, entry_places};
ghost use Rattle.ttx_certificate.specs.EntryViews.{entry_of, entries_of};
ghost use Rattle.ttx_certificate.specs.Certificates.{fields_of};
ghost use Rattle.ttx_certificate.specs.CertificateReading.{lines_in, words_in, is_id};
ghost use Rattle.ttx_certificate.specs.CertificateReading as rule;
ghost use Rattle.ttx_certificate.specs.WrittenEntries.{written_item, written_with};
ghost use Rattle.ttx_certificate.specs.ReadingAnswers.{outcome, IsUnlessMemory};

use crate::certificate_faults::CertFault;
use crate::certificates::Certificate;
use crate::entries::{Entry, Starts, are_slots, is_above, rises};
use crate::entry_lines::{names, push_starts};
use crate::line_words::{cut_line, cut_word};
use crate::written::{Written, WrittenItem};
use std::alloc::Global;
use ttx_digits::number;
use ttx_header::PageId;
use ttx_page::{Class, Item, RowNumber};

// The id of a page, if its numbers are in their ranges.
fn page_id(mag: u8, page: u8, sub: u16) -> Option<PageId>
    ensures { result ≡ (if is_id (id_at mag page sub) && is_page_id (id_at mag page sub) then Some (id_at mag page sub) else None) }
{
    if page == 0xff || sub == 0x3f7f {
        return None;
    }
    PageId::new(mag, page, sub)
}

// The item, if the number of a row is 1 to 24.
fn ranged_item(item: WrittenItem) -> Option<Item>
    ensures { result ≡ (if is_item (written_item item) then Some (written_item item) else None) }
{
    match item {
        WrittenItem::Head => Some(Item::Head),
        WrittenItem::Row(number) if number > 24 => None,
        WrittenItem::Row(number) => match RowNumber::new(number as u8) {
            Some(row) => Some(Item::Row(row)),
            None => None,
        },
        WrittenItem::Links => Some(Item::Links),
    }
}

// The entry of line `line` with these starts, after the place of the entry before.
fn entry(
    written: Written,
    starts: Starts,
    line: usize,
    low: Option<u32>,
) -> Result<Entry, CertFault>
    ensures { outcome entry_of result ≡ rule.read_entry line low (Some (written_with written starts.items)) }
{
    let range = CertFault::Range { line };
    let Some(page) = page_id(written.mag, written.page, written.sub) else {
        return Err(range);
    };
    let Some(item) = ranged_item(written.item) else {
        return Err(range);
    };
    if !are_slots(starts.as_slice()) {
        return Err(range);
    }
    if starts.is_empty() || !rises(starts.as_slice()) {
        return Err(CertFault::Order { line });
    }
    let entry = Entry::of(page, item, starts);
    if is_above(low, entry.place()) {
        Ok(entry)
    } else {
        Err(CertFault::Order { line })
    }
}

// The entry of line `line`, after the place of the entry before.
fn entry_in(alloc: Global, text: &[u8], line: usize, low: Option<u32>) -> Result<Entry, CertFault>
    ensures { IsUnlessMemory result (outcome entry_of result ≡ rule.read_entry line low (rule.entry_in (words_in text.now))) }
{
    let Some((written, rest)) = names(text) else {
        return Err(CertFault::Line { line });
    };
    let mut starts = Starts::new(alloc);
    match push_starts(&mut starts, rest) {
        Ok(true) => entry(written, starts, line, low),
        Ok(false) => Err(CertFault::Line { line }),
        Err(_) => Err(CertFault::NoMemory),
    }
}

// Line `line`, without its 0A, and what follows it.
#[tactic(auto, using(crate::proofs::LineShapes::ended_line))]
#[inline(always)]
fn line_at(text: &[u8], line: usize) -> Result<(&[u8], &[u8]), CertFault>
    ensures value { outcome (λ p. (p.0.now, lines_in p.1.now)) result ≡ rule.line_at line (lines_in text.now) }
    ensures shorter { IfOk result (λ p. length p.1.now < length text.now) }
{
    match cut_line(text) {
        Some((first, rest)) => Ok((first, rest)),
        None => Err(CertFault::Line { line }),
    }
}

// The entries of the lines from line `first` on.
fn entries(alloc: Global, text: &[u8], first: usize) -> Result<Vec<Entry>, CertFault>
    requires { first + length text.now < 2 ^ 64 }
    ensures value { IsUnlessMemory result (outcome (λ v. entries_of v.items) result ≡ rule.read_entries first None (lines_in text.now)) }
    ensures rising { IfOk result (λ v. rises (entry_places (entries_of v.items)) ≡ true) }
{
    let mut entries = Vec::new(alloc);
    let mut low = None;
    let mut line = first;
    let mut rest = text;
    while !rest.is_empty() {
        let (text, more) = line_at(rest, line)?;
        let entry = entry_in(alloc, text, line, low)?;
        low = Some(entry.place());
        if entries.push(entry).is_err() {
            return Err(CertFault::NoMemory);
        }
        line += 1;
        rest = more;
    }
    Ok(entries)
}

// A number from 1 to the most.
fn ranged(number: Option<u32>, line: usize, most: u32) -> Result<u32, CertFault>
    ensures value { result ≡ rule.ranged line most number }
    ensures range { IfOk result (λ n. (1 ≤ n) × (n ≤ most)) }
{
    match number {
        Some(number) if 1 <= number && number <= most => Ok(number),
        Some(_) => Err(CertFault::Range { line }),
        None => Err(CertFault::Line { line }),
    }
}

// The number after a word.
#[tactic(auto, using(crate::proofs::LineShapes::two_words))]
fn number_in(text: &[u8], line: usize, key: &[u8], most: u32) -> Result<u32, CertFault>
    ensures value { result ≡ rule.number_in line key.now most (words_in text.now) }
    ensures range { IfOk result (λ n. (1 ≤ n) × (n ≤ most)) }
{
    let Some((word, rest)) = cut_word(text) else {
        return Err(CertFault::Line { line });
    };
    if word != key {
        return Err(CertFault::Line { line });
    }
    match cut_word(rest) {
        Some(_) => Err(CertFault::Line { line }),
        None => ranged(number(rest), line, most),
    }
}

// The number of line `line`, and what follows the line.
fn number_line<'a>(
    text: &'a [u8],
    line: usize,
    key: &[u8],
    most: u32,
) -> Result<(u32, &'a [u8]), CertFault>
    ensures value { outcome (λ p. (p.0, lines_in p.1.now)) result ≡ rule.number_line line key.now most (lines_in text.now) }
    ensures range { IfOk result (λ p. (1 ≤ p.0) × (p.0 ≤ most)) }
    ensures shorter { IfOk result (λ p. length p.1.now < length text.now) }
{
    let (first, rest) = line_at(text, line)?;
    let number = number_in(first, line, key, most)?;
    Ok((number, rest))
}

// The numbers and the entries of the lines from line `line` on.
#[tactic(auto, unfolding(crate::specs::CertificateReading::read_numbers))]
fn numbers(alloc: Global, text: &[u8], line: usize, class: Class) -> Result<Certificate, CertFault>
    requires { line + length text.now + 8 < 2 ^ 64 }
    ensures { IsUnlessMemory result (outcome fields_of result ≡ rule.read_numbers class line (lines_in text.now)) }
{
    let (lines, rest) = number_line(text, line, b"lines", 32)?;
    let (repeat, rest) = number_line(rest, line + 1, b"repeat", 8)?;
    let (deadline, rest) = number_line(rest, line + 2, b"deadline", 1_000_000)?;
    let entries = entries(alloc, rest, line + 3)?;
    Ok(Certificate::of(lines as u8, repeat as u8, deadline, entries, class))
}

// Whether the line of the class names class clearing, the only one that version 2 has.
fn is_clearing(line: &[u8]) -> bool
    ensures { result ≡ bytes_eq line.now (codes "class clearing") }
{
    line == b"class clearing".as_slice()
}

// The lines after the first one of version 2: the class, the numbers and the entries.
fn clearing(alloc: Global, text: &[u8]) -> Result<Certificate, CertFault>
    requires { length text.now + 16 < 2 ^ 64 }
    ensures { IsUnlessMemory result (outcome fields_of result ≡ rule.read_class (lines_in text.now)) }
{
    let (class, rest) = line_at(text, 2)?;
    if !is_clearing(class) {
        return Err(CertFault::Line { line: 2 });
    }
    numbers(alloc, rest, 3, Class::Clearing)
}

/// The certificate of a text, or its first fault: the shape of a line is checked before the ranges of its numbers, and
/// these before their order.
pub fn read_certificate(alloc: Global, bytes: &[u8]) -> Result<Certificate, CertFault>
    ensures { IsUnlessMemory result (outcome fields_of result ≡ rule.read_text bytes.now) }
{
    let Ok((first, rest)) = line_at(bytes, 1) else {
        return Err(CertFault::Title);
    };
    if first == b"ttx certificate 1".as_slice() {
        numbers(alloc, rest, 2, Class::Any)
    } else if first == b"ttx certificate 2".as_slice() {
        clearing(alloc, rest)
    } else {
        Err(CertFault::Title)
    }
}
