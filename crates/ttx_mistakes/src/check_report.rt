//! What is wrong, or probably wrong, in the text of a service, in the short or the long form.

ghost use Rattle.std.specs.Prelude.{◌≡◌, IfOk};
ghost use Rattle.ttx_mistakes.specs.Checking as rule;

use crate::long_reports::long_report;
use std::alloc::{AllocError, Global};
use toml_parser::bytes::byte_at;
use ttx_check::{Reported, report};

/// How a text is reported on: the name of its file, the form of the report, and whether a warning makes the status 1.
#[derive(Clone, Copy)]
pub struct Style<'a> {
    pub file: &'a str,
    pub long: bool,
    pub strict: bool,
}

fn strict_status(strict: bool, text: &[u8], status: u8) -> u8
    ensures { result ≡ rule.strict_status strict text.now status }
{
    if (strict && status == 0) && byte_at(text, 0) != b'o' {
        1
    } else {
        status
    }
}

// The short report.
fn short(alloc: Global, bytes: &[u8], strict: bool) -> Result<Reported, AllocError>
    ensures { IfOk result (λ r. rule.IsShort strict bytes.now r.text.items r.status) }
{
    let report = report(alloc, bytes)?;
    let plain = report.status;
    let text = report.text.into_bytes();
    let status = strict_status(strict, text.as_slice(), plain);
    Ok(Reported { text, status })
}

/// The report on a text.
pub fn report_in_style(
    alloc: Global,
    bytes: &[u8],
    style: Style<'_>,
) -> Result<Reported, AllocError>
    ensures { IfOk result (λ r. rule.IsReport style.entry bytes.now r.text.items r.status) }
{
    if style.long {
        long_report(alloc, style.file, bytes, style.strict)
    } else {
        short(alloc, bytes, style.strict)
    }
}
