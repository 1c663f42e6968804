//! The verdict on files, with the first reason of each page.

ghost use Rattle.ttx_certify.specs.AllLines.{IsJudgedAll};

use crate::all_lines::all_text;
use crate::certified_services::certify_all_of_service;
use crate::verdict::Verdict;
use std::alloc::Global;
use ttx_files::{Inputs, Judge, Told};
use ttx_witness::NoMemory;

/// Judges for receivers that show a page at once. The text is the line of the verdict, a line for each page with a reason, and how many
/// pages have one.
pub struct All;

impl Judge for All {
    type Verdict = Verdict;

    ghost says = { λ j. IsJudgedAll };

    fn judge(&self, alloc: Global, inputs: &Inputs) -> Result<Told<Verdict>, NoMemory> {
        let (service, certificate) = (&inputs.service, &inputs.certificate);
        let Ok(all) = certify_all_of_service(alloc, &inputs.cycle, service, certificate) else {
            return Err(NoMemory);
        };
        match all_text(alloc, certificate, &all) {
            Ok(line) => Ok(Told {
                verdict: all.verdict,
                line,
            }),
            Err(_) => Err(NoMemory),
        }
    }
}
