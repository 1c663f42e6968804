//! The verdict on files for viewers who key a page number alone.

ghost use Rattle.std.specs.Prelude.{◌≡◌, IfOk, length, string_bytes};
ghost use Rattle.ttx_certificate.specs.Certificates.{fields_of};
ghost use Rattle.ttx_subpages.specs.NumberReports.{numbers_verdict_text};
ghost use Rattle.ttx_subpages.specs.CertifyingNumbers.{IsJudgedByNumber};

use crate::acceptance::certify_numbers;
use crate::number_lines::numbers_verdict_text;
use crate::reports::{NumberReport, number_reports};
use crate::verdict::NumbersVerdict;
use std::alloc::Global;
use ttx_files::{Inputs, Judge, Told};
use ttx_witness::NoMemory;

// The text of a verdict on what was read.
fn text_of(
    alloc: Global,
    inputs: &Inputs,
    reports: &[NumberReport],
    verdict: &NumbersVerdict,
) -> Result<String, NoMemory>
    ensures { IfOk result (λ text. string_bytes text ≡
        numbers_verdict_text (fields_of inputs.now.certificate) (length inputs.now.service.pages) reports.now verdict.now) }
{
    let pages = inputs.service.pages().len();
    numbers_verdict_text(alloc, &inputs.certificate, pages, reports, *verdict)
}

/// Judges also for receivers that show a page late, and for viewers who key a page number alone. The text is the line of the verdict of
/// `certify_numbers`, and behind a yes a line for each number with several pages.
pub struct ByNumber;

impl Judge for ByNumber {
    type Verdict = NumbersVerdict;

    ghost says = { λ j. IsJudgedByNumber };

    fn judge(&self, alloc: Global, inputs: &Inputs) -> Result<Told<NumbersVerdict>, NoMemory> {
        let (cycle, service) = (&inputs.cycle, &inputs.service);
        let verdict = certify_numbers(alloc, cycle, service, &inputs.certificate)?;
        let reports = number_reports(alloc, cycle, service.pages())?;
        let line = text_of(alloc, inputs, reports.as_slice(), &verdict)?;
        Ok(Told { verdict, line })
    }
}
