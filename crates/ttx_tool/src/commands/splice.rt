//! `splice`: the change from an old cycle to a new one.

ghost use Rattle.ttx_cycle.specs.Counters.{inner_of};
ghost use Rattle.ttx_files.specs.Answers.{IsUntouched};
ghost use Rattle.ttx_files.specs.Devices.{IsFirstFailure};
ghost use Rattle.ttx_tool.specs.Answers.{splice_status, sent_status, late_splice_status};
ghost use Rattle.ttx_tool.specs.Claims.{change_devices};
ghost use Rattle.ttx_faults.specs.Devices.{is_tool_write, failed_at};
ghost use Rattle.ttx_tool.specs.Splice.{AnswersChange, Splices};

use crate::claims::Claim;
use crate::commands::certify::Status;
use std::alloc::Global;
use std::io::{Read, Write};
use ttx_change::{Late, LateSplice};
use ttx_cycle::Counted;
use ttx_faults::ToolFault;
use ttx_proof::{AfterPeriods, AtAnyTime, SentVerdict, SpliceJudge, SpliceVerdict, splice_files};

/// What a change is judged for.
#[derive(Clone, Copy)]
pub struct Splicing {
    /// For how many periods the old cycle has been on the air; without it, for any time.
    pub sent: Option<u32>,
    /// Also for receivers that show a page only where it ends.
    pub late: bool,
}

impl Status for SpliceVerdict {
    ghost status = { splice_status };

    fn status(&self) -> u8 {
        match self {
            SpliceVerdict::Yes => 0,
            SpliceVerdict::No(_) => 1,
        }
    }
}

impl Status for SentVerdict {
    ghost status = { sent_status };

    fn status(&self) -> u8 {
        match self {
            SentVerdict::Yes => 0,
            SentVerdict::No(_) | SentVerdict::TooSoon { left: _ } => 1,
        }
    }
}

impl Status for LateSplice {
    ghost status = { late_splice_status };

    fn status(&self) -> u8 {
        match self {
            LateSplice::Yes => 0,
            LateSplice::No(_)
            | LateSplice::Amid { .. }
            | LateSplice::Stored { .. }
            | LateSplice::Unfollowed { page: _ } => 1,
        }
    }
}

// Reads the files of two claims, writes what a judge says of the change from the old one to the new one, and gives the status of the verdict.
fn answer<J: SpliceJudge, A: Read, B: Read, C: Read, D: Read, E: Read, F: Read, W: Write>(
    alloc: Global,
    judge: &J,
    old: &mut Claim<A, C, E>,
    new: &mut Claim<B, D, F>,
    writer: &mut Counted<W>,
) -> Result<u8, ToolFault>
where
    J::Verdict: Status,
    ensures bytes { AnswersChange J.Verdict.status (J.says judge.now) A.remaining B.remaining C.remaining D.remaining E.remaining F.remaining
        old.old new.old (W.contents (inner_of writer.old)) (W.contents (inner_of writer.new)) result }
    ensures faults { IsFirstFailure (change_devices A.remaining B.remaining C.remaining D.remaining E.remaining F.remaining
        old.old new.old old.new new.new writer.old writer.new) (failed_at result) }
    ensures untouched { IsUntouched is_tool_write result writer.old writer.new }
{
    match splice_files(
        alloc,
        judge,
        &mut old.cycle,
        &mut new.cycle,
        &mut old.service,
        &mut new.service,
        &mut old.certificate,
        &mut new.certificate,
        writer,
    ) {
        Ok(verdict) => Ok(verdict.status()),
        Err(fault) => Err(ToolFault::Files(fault)),
    }
}

/// Reads two packet files, two service definitions and two certificates, in this order, the old one of each kind first, judges the
/// change from the old cycle to the new one, and writes the line of the verdict: the status is 0 if it is yes, otherwise 1.
///
/// Nothing is written before all files are judged. After `Write` exactly the first `written` bytes of the line went out; after any other
/// fault the writer is unchanged.
pub fn run<A: Read, B: Read, C: Read, D: Read, E: Read, F: Read, W: Write>(
    alloc: Global,
    old: &mut Claim<A, C, E>,
    new: &mut Claim<B, D, F>,
    splicing: Splicing,
    writer: &mut Counted<W>,
) -> Result<u8, ToolFault>
    ensures bytes { Splices splicing.late splicing.sent A.remaining B.remaining C.remaining D.remaining E.remaining F.remaining old.old new.old
        (W.contents (inner_of writer.old)) (W.contents (inner_of writer.new)) result }
    ensures faults { IsFirstFailure (change_devices A.remaining B.remaining C.remaining D.remaining E.remaining F.remaining
        old.old new.old old.new new.new writer.old writer.new) (failed_at result) }
    ensures untouched { IsUntouched is_tool_write result writer.old writer.new }
{
    match (splicing.late, splicing.sent) {
        (true, sent) => answer(alloc, &Late(sent), old, new, writer),
        (false, None) => answer(alloc, &AtAnyTime, old, new, writer),
        (false, Some(periods)) => answer(alloc, &AfterPeriods(periods), old, new, writer),
    }
}
