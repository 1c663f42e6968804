//! The verdict on the contents of six files for receivers that show a page only where it ends.

ghost use Rattle.std.specs.Prelude.{◌≡◌, IfOk, string_bytes};
ghost use Rattle.ttx_change.specs.LateSpliceFiles.{IsLateAnswer};
ghost use Rattle.ttx_change.specs.LateSpliceLines as line_as;

use crate::late_verdict::late_splice;
use crate::lines::late_splice_line;
use crate::verdict::LateSplice;
use std::alloc::Global;
use ttx_files::Told;
use ttx_proof::{Six, SpliceJudge};
use ttx_witness::NoMemory;

fn line_of(alloc: Global, verdict: &LateSplice) -> Result<String, NoMemory>
    ensures { IfOk result (λ line. string_bytes line ≡ line_as.late_splice_line verdict.now) }
{
    late_splice_line(alloc, *verdict)
}

/// Judges a splice also for receivers that show a page only where it ends, when the old cycle has been on the air for so many periods, if
/// that counts. `late_splice` says what a yes means.
#[derive(Drop)]
pub struct Late(pub Option<u32>);

impl SpliceJudge for Late {
    type Verdict = LateSplice;

    ghost says = { λ j. λ c. IsLateAnswer c j.0 };

    fn judge(&self, alloc: Global, six: &Six) -> Result<Told<LateSplice>, NoMemory> {
        let verdict = late_splice(alloc, six, self.0)?;
        let line = line_of(alloc, &verdict)?;
        Ok(Told { verdict, line })
    }
}
