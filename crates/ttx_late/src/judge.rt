//! The verdict on files for receivers that show pages late.

ghost use Rattle.ttx_late.specs.CertifyingLate.{IsJudgedLate};

use crate::acceptance::certify_late;
use crate::verdict::LateVerdict;
use crate::verdict_lines::late_line;
use std::alloc::Global;
use ttx_files::{Inputs, Judge, Told};
use ttx_witness::NoMemory;

/// Judges also for receivers that show a page late. The line is that of the verdict of `certify_late`.
pub struct Late;

impl Judge for Late {
    type Verdict = LateVerdict;

    ghost says = { λ j. IsJudgedLate };

    fn judge(&self, alloc: Global, inputs: &Inputs) -> Result<Told<LateVerdict>, NoMemory> {
        let (service, certificate) = (&inputs.service, &inputs.certificate);
        let verdict = certify_late(alloc, &inputs.cycle, service, certificate)?;
        let line = late_line(alloc, service, certificate, &verdict)?;
        Ok(Told { verdict, line })
    }
}
