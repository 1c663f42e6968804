//! The verdict on the contents of six files, at any time and after some periods of the old cycle.

ghost use Rattle.std.specs.Prelude.{◌≡◌, IfOk, string_bytes};
ghost use Rattle.ttx_proof.specs.SplicingFiles.{splice_in, IsSpliceAnswer, IsSentAnswer};
ghost use Rattle.ttx_proof.specs.SpliceLines as line_as;
ghost use Rattle.ttx_proof.specs.Verdicts.{IsSpliceVerdict, SpliceMeans};

use crate::acceptance::splice;
use crate::lines::splice_line;
use crate::periods::{sent_line, sent_verdict};
use crate::sent::SentVerdict;
use crate::six_files::Six;
use crate::verdict::SpliceVerdict;
use crate::verdict_line::SpliceJudge;
use std::alloc::Global;
use ttx_files::Told;
use ttx_witness::NoMemory;

/// The verdict of `splice` on the contents of six files.
pub fn splice_six(alloc: Global, six: &Six) -> Result<SpliceVerdict, NoMemory>
    ensures exact { IfOk result (IsSpliceVerdict (splice_in six.now)) }
    ensures seen { IfOk result (SpliceMeans (splice_in six.now)) }
{
    splice(
        alloc,
        &six.cycles.old,
        &six.cycles.new,
        six.services.old.pages(),
        six.services.new.pages(),
        &six.witnesses.old,
        &six.witnesses.new,
    )
}

fn line_of(alloc: Global, verdict: &SpliceVerdict) -> Result<String, NoMemory>
    ensures { IfOk result (λ line. string_bytes line ≡ line_as.splice_line verdict.now) }
{
    splice_line(alloc, *verdict)
}

/// Judges a splice at any time. If the verdict is `Yes`, the joined stream is seen, as `splice` says.
pub struct AtAnyTime;

impl SpliceJudge for AtAnyTime {
    type Verdict = SpliceVerdict;

    ghost says = { λ j. IsSpliceAnswer };

    fn judge(&self, alloc: Global, six: &Six) -> Result<Told<SpliceVerdict>, NoMemory> {
        let verdict = splice_six(alloc, six)?;
        let line = line_of(alloc, &verdict)?;
        Ok(Told { verdict, line })
    }
}

fn sent_line_of(alloc: Global, verdict: &SentVerdict) -> Result<String, NoMemory>
    ensures { IfOk result (λ line. string_bytes line ≡ line_as.sent_line verdict.now) }
{
    sent_line(alloc, *verdict)
}

/// Judges a splice when the old cycle has been on the air for so many periods. One that would be accepted is refused as too soon if these
/// periods have fewer slots than the deadline. The line is that of `sent_line`.
#[derive(Drop)]
pub struct AfterPeriods(pub u32);

impl SpliceJudge for AfterPeriods {
    type Verdict = SentVerdict;

    ghost says = { λ j. λ c. IsSentAnswer c j.0 };

    fn judge(&self, alloc: Global, six: &Six) -> Result<Told<SentVerdict>, NoMemory> {
        let splice = splice_six(alloc, six)?;
        let verdict = sent_verdict(&six.cycles.old, &six.witnesses.old, self.0, splice);
        let line = sent_line_of(alloc, &verdict)?;
        Ok(Told { verdict, line })
    }
}
