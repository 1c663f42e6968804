//! What a report says of its inputs, of the program and of its date.

ghost use Rattle.std.specs.Prelude.{◌≡◌, ◌++◌, OnOk, Option, option_map, string_bytes};
ghost use Rattle.hex.specs.Hex.{encode_lower};
ghost use Rattle.sha2.specs.Sha256.{sha256};
ghost use Rattle.ttx_cycle.specs.Cycles.{slots_of};
ghost use Rattle.ttx_cycle.specs.Files.{file_of};
ghost use Rattle.ttx_report.specs.Files as rule;

use sha2::{Digest, Sha256};
use std::alloc::{AllocError, Global};
use ttx_cycle::Cycle;
use ttx_digits::push_decimal;
use ttx_document::{push_escaped, push_heading, push_words};

/// The SHA-256 of a packet file, of a service text and of a certificate.
#[derive(Clone, Copy)]
pub struct Marks {
    pub cycle: [u8; 32],
    pub service: [u8; 32],
    pub certificate: [u8; 32],
}

// The SHA-256 of the packet file of a cycle.
fn digest_of(cycle: &Cycle) -> [u8; 32]
    ensures { result ≡ sha256 (file_of (slots_of cycle.now)) }
{
    let mut hasher = Sha256::new();
    for slot in cycle.slots() {
        hasher.update(slot.as_slice());
    }
    hasher.finalize()
}

/// The SHA-256 of the packet file of a cycle, and of two texts.
pub fn marks_of(cycle: &Cycle, service: &[u8], certificate: &[u8]) -> Marks
    ensures { rule.marks_view result ≡ rule.marks_of (file_of (slots_of cycle.now)) service.now certificate.now }
{
    Marks {
        cycle: digest_of(cycle),
        service: Sha256::digest(service),
        certificate: Sha256::digest(certificate),
    }
}

// Appends a digest in hexadecimal.
fn push_digest(alloc: Global, text: &mut String, digest: &[u8; 32]) -> Result<(), AllocError>
    ensures { OnOk result (string_bytes text.new ≡ string_bytes text.old ++ encode_lower digest.now) }
{
    let digits = hex::encode(alloc, digest.as_slice())?;
    text.push_str(digits.as_str())
}

// Appends the row of an input.
#[tactic(auto, unfolding(crate::specs::Files::file_row))]
fn push_row(
    alloc: Global,
    text: &mut String,
    name: &str,
    size: &Size<'_>,
    digest: &[u8; 32],
) -> Result<(), AllocError>
    ensures { OnOk result (string_bytes text.new ≡ string_bytes text.old ++ rule.file_row name.now size.now.count size.now.unit.now digest.now) }
{
    text.push_str("<tr><td>")?;
    text.push_str(name)?;
    push_size(text, size)?;
    push_digest(alloc, text, digest)?;
    text.push_str("</code></td></tr>\n")
}

// How much of something an input has.
#[derive(Clone, Copy)]
struct Size<'a> {
    count: usize,
    unit: &'a str,
}

#[tactic(auto, unfolding(crate::specs::Files::size_cell))]
fn push_size(text: &mut String, size: &Size<'_>) -> Result<(), AllocError>
    ensures { OnOk result (string_bytes text.new ≡ string_bytes text.old ++ rule.size_cell size.now.count size.now.unit.now) }
{
    push_words(text, "</td><td>")?;
    push_words(text, size.unit)?;
    push_decimal(text, size.count)?;
    push_words(text, "</td><td><code>")
}

#[tactic(auto, unfolding(crate::specs::Files::files_start))]
fn push_start(text: &mut String) -> Result<(), AllocError>
    ensures { OnOk result (string_bytes text.new ≡ string_bytes text.old ++ rule.files_start) }
{
    text.push_str("<table><tr><th>Input</th><th>Has</th><th>SHA-256</th></tr>\n")
}

/// How many slots, pages and entries the inputs have.
#[derive(Clone, Copy)]
pub(crate) struct Sizes {
    pub(crate) slots: usize,
    pub(crate) pages: usize,
    pub(crate) entries: usize,
}

// Appends the rows of the inputs.
#[tactic(auto, unfolding(crate::specs::Files::file_rows))]
fn push_rows(
    alloc: Global,
    text: &mut String,
    sizes: Sizes,
    marks: &Marks,
) -> Result<(), AllocError>
    ensures { OnOk result (string_bytes text.new ≡ string_bytes text.old
        ++ rule.file_rows sizes.slots sizes.pages sizes.entries (rule.marks_view marks.now)) }
{
    let slots = Size {
        count: sizes.slots,
        unit: "slots: ",
    };
    let pages = Size {
        count: sizes.pages,
        unit: "pages: ",
    };
    let entries = Size {
        count: sizes.entries,
        unit: "entries: ",
    };
    push_row(alloc, text, "packet file", &slots, &marks.cycle)?;
    push_row(alloc, text, "service text", &pages, &marks.service)?;
    push_row(alloc, text, "certificate", &entries, &marks.certificate)
}

/// Appends the sizes of the inputs and their SHA-256.
#[tactic(auto, unfolding(crate::specs::Files::files_html))]
pub(crate) fn push_files(
    alloc: Global,
    text: &mut String,
    sizes: Sizes,
    marks: &Marks,
) -> Result<(), AllocError>
    ensures { OnOk result (string_bytes text.new ≡ string_bytes text.old
        ++ rule.files_html sizes.slots sizes.pages sizes.entries (rule.marks_view marks.now)) }
{
    push_heading(text, "Inputs")?;
    push_start(text)?;
    push_rows(alloc, text, sizes, marks)?;
    text.push_str("</table>\n")
}

/// Appends which program made the report.
#[tactic(auto, unfolding(crate::specs::Files::version_html))]
pub(crate) fn push_version(text: &mut String, version: &str) -> Result<(), AllocError>
    ensures { OnOk result (string_bytes text.new ≡ string_bytes text.old ++ rule.version_html version.now) }
{
    push_heading(text, "Made by")?;
    text.push_str("<pre>")?;
    text.push_str(version)?;
    text.push_str("</pre>\n")
}

/// Appends the date, if one is given.
#[tactic(auto, unfolding(crate::specs::Files::date_html))]
pub(crate) fn push_date(text: &mut String, date: Option<&str>) -> Result<(), AllocError>
    ensures { OnOk result (string_bytes text.new ≡ string_bytes text.old ++ rule.date_html (option_map (λ d. d.now) date.entry)) }
{
    match date {
        None => Ok(()),
        Some(date) => {
            text.push_str("<p>")?;
            push_escaped(text, date)?;
            text.push_str("</p>\n")
        }
    }
}
