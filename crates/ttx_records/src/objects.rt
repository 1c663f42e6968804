//! Judges whose verdicts are JSON objects, with the names and values of the lines.

ghost use Rattle.std.specs.Prelude.{Some};
ghost use Rattle.ttx_records.specs.Verdicts.{verdict_record};
ghost use Rattle.ttx_records.specs.Judging.{IsRecorded, IsAllRecorded, IsLateRecorded, IsRequiredRecorded, IsNumbersRecorded};

use crate::all_pages::all_records;
use crate::late_verdicts::late_record;
use crate::numbers::numbers_record;
use crate::requirements::required_record;
use crate::verdicts::verdict_record;
use std::alloc::Global;
use ttx_certify::{Verdict, VerdictWording, certify_all_of_service, certify_service};
use ttx_deadline::{RequiredVerdict, certify_required};
use ttx_files::{Inputs, Judge, Told};
use ttx_late::{LateVerdict, certify_late};
use ttx_subpages::{NumbersVerdict, certify_numbers, number_reports};
use ttx_witness::{Certificate, NoMemory};

/// Judges for receivers that show a page at once.
pub struct AtOnce;

/// The same, with an object for each page with a reason, and one that says how many pages have one.
pub struct All;

/// Judges also for receivers that show a page late.
pub struct Late;

/// Judges for receivers that show a page at once, with a deadline of at most so many fields.
#[derive(Drop)]
pub struct Required(pub u32);

/// Judges also for receivers that show a page late, and for viewers who key a page number alone, with an object for each number with
/// several pages behind a yes.
pub struct ByNumber;

impl VerdictWording for AtOnce {
    ghost words = { λ j. verdict_record };

    fn text(
        &self,
        alloc: Global,
        certificate: &Certificate,
        pages: usize,
        verdict: &Verdict,
    ) -> Result<String, NoMemory> {
        verdict_record(alloc, certificate, pages, *verdict).map_err(|_| NoMemory)
    }
}

impl Judge for AtOnce {
    type Verdict = Verdict;

    ghost says = { λ j. IsRecorded };

    fn judge(&self, alloc: Global, inputs: &Inputs) -> Result<Told<Verdict>, NoMemory> {
        let (service, certificate) = (&inputs.service, &inputs.certificate);
        let verdict = certify_service(alloc, &inputs.cycle, service, certificate)?;
        let line = self.text(alloc, certificate, service.pages().len(), &verdict)?;
        Ok(Told { verdict, line })
    }
}

impl Judge for All {
    type Verdict = Verdict;

    ghost says = { λ j. IsAllRecorded };

    fn judge(&self, alloc: Global, inputs: &Inputs) -> Result<Told<Verdict>, NoMemory> {
        let (service, certificate) = (&inputs.service, &inputs.certificate);
        let all = certify_all_of_service(alloc, &inputs.cycle, service, certificate)?;
        match all_records(alloc, certificate, &all) {
            Ok(line) => Ok(Told {
                verdict: all.verdict,
                line,
            }),
            Err(_) => Err(NoMemory),
        }
    }
}

impl Judge for Late {
    type Verdict = LateVerdict;

    ghost says = { λ j. IsLateRecorded };

    fn judge(&self, alloc: Global, inputs: &Inputs) -> Result<Told<LateVerdict>, NoMemory> {
        let (service, certificate) = (&inputs.service, &inputs.certificate);
        let verdict = certify_late(alloc, &inputs.cycle, service, certificate)?;
        match late_record(alloc, service, certificate, &verdict) {
            Ok(line) => Ok(Told { verdict, line }),
            Err(_) => Err(NoMemory),
        }
    }
}

impl Judge for Required {
    type Verdict = RequiredVerdict;

    ghost says = { λ j slots service w. IsRequiredRecorded slots service w (Some j.0) };

    fn judge(&self, alloc: Global, inputs: &Inputs) -> Result<Told<RequiredVerdict>, NoMemory> {
        let (service, certificate) = (&inputs.service, &inputs.certificate);
        let required = Some(self.0);
        let verdict = certify_required(alloc, &inputs.cycle, service, certificate, required)?;
        match required_record(alloc, service, certificate, &verdict) {
            Ok(line) => Ok(Told { verdict, line }),
            Err(_) => Err(NoMemory),
        }
    }
}

impl Judge for ByNumber {
    type Verdict = NumbersVerdict;

    ghost says = { λ j. IsNumbersRecorded };

    fn judge(&self, alloc: Global, inputs: &Inputs) -> Result<Told<NumbersVerdict>, NoMemory> {
        let (service, certificate) = (&inputs.service, &inputs.certificate);
        let verdict = certify_numbers(alloc, &inputs.cycle, service, certificate)?;
        let reports = number_reports(alloc, &inputs.cycle, service.pages())?;
        match numbers_record(alloc, service, certificate, reports.as_slice(), &verdict) {
            Ok(line) => Ok(Told { verdict, line }),
            Err(_) => Err(NoMemory),
        }
    }
}
