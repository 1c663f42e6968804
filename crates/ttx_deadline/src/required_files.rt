//! The verdict on files, with a deadline that is required.

ghost use Rattle.ttx_deadline.specs.RequiredFiles.{IsJudgedRequired, IsJudgedLateRequired};

use crate::required_lines::service_line;
use crate::requirements::{
    LateRequiredVerdict, RequiredVerdict, certify_late_required, certify_required,
};
use std::alloc::Global;
use ttx_files::{Inputs, Judge, Told};
use ttx_witness::NoMemory;

/// Judges for receivers that show a page at once, with a deadline of at most so many fields where one is required. The line is that of the
/// verdict of `certify_required`.
#[derive(Drop)]
pub struct Required(pub Option<u32>);

/// Judges also for receivers that show a page late, with a deadline of at most so many fields. The line is that of the verdict of
/// `certify_late_required`.
#[derive(Drop)]
pub struct LateRequired(pub u32);

impl Judge for Required {
    type Verdict = RequiredVerdict;

    ghost says = { λ j slots service w. IsJudgedRequired slots service w j.0 };

    fn judge(&self, alloc: Global, inputs: &Inputs) -> Result<Told<RequiredVerdict>, NoMemory> {
        let (service, certificate) = (&inputs.service, &inputs.certificate);
        let verdict = certify_required(alloc, &inputs.cycle, service, certificate, self.0)?;
        let line = service_line(alloc, service, certificate, &verdict)?;
        Ok(Told { verdict, line })
    }
}

impl Judge for LateRequired {
    type Verdict = LateRequiredVerdict;

    ghost says = { λ j slots service w. IsJudgedLateRequired slots service w j.0 };

    fn judge(&self, alloc: Global, inputs: &Inputs) -> Result<Told<LateRequiredVerdict>, NoMemory> {
        let (service, certificate) = (&inputs.service, &inputs.certificate);
        let verdict = certify_late_required(alloc, &inputs.cycle, service, certificate, self.0)?;
        let line = service_line(alloc, service, certificate, &verdict)?;
        Ok(Told { verdict, line })
    }
}
