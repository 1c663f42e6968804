//! `certify`: whether a cycle is accepted with a certificate for the pages of a service.

ghost use Rattle.std.specs.Prelude.{◌≡◌, ℕ};
ghost use Rattle.ttx_cycle.specs.Counters.{inner_of};
ghost use Rattle.ttx_files.specs.Answers.{IsUntouched};
ghost use Rattle.ttx_files.specs.Devices.{IsFirstFailure};
ghost use Rattle.ttx_tool.specs.Answers.{verdict_status, late_status, numbers_status, required_status};
ghost use Rattle.ttx_tool.specs.Certify.{AnswersClaim, CertifiesBy, CertifiesTwice};
ghost use Rattle.ttx_tool.specs.Claims.{claim_devices, twice_devices};
ghost use Rattle.ttx_faults.specs.Devices.{is_tool_write, failed_at};

use crate::claims::Claim;
use std::alloc::Global;
use std::io::{Read, Write};
use ttx_certify::{All, AtOnce, Verdict, answer_passes, certify_passes};
use ttx_cycle::Counted;
use ttx_deadline::{Required, RequiredVerdict};
use ttx_faults::ToolFault;
use ttx_files::{Judge, answer_files};
use ttx_late::{Late, LateVerdict};
use ttx_records::objects;
use ttx_subpages::{ByNumber, NumbersVerdict};

/// What a cycle is judged for.
#[derive(Clone, Copy)]
pub enum Judgement {
    /// Receivers that show a page at once.
    AtOnce,
    /// The same, with the first reason of each page.
    All,
    /// Receivers that show a page late, too.
    Late,
    /// The same, and viewers who key a page number without a subcode.
    Numbers,
    /// Receivers that show a page at once, within at most so many fields.
    Within(u32),
}

/// A verdict with its status: 0 for a yes, 1 for a no.
pub(super) trait Status {
    ghost status: { Self → ℕ };

    /// The status.
    fn status(&self) -> u8
        ensures { result ≡ status self.now };
}

impl Status for Verdict {
    ghost status = { verdict_status };

    fn status(&self) -> u8 {
        match self {
            Verdict::Yes => 0,
            Verdict::No(_) => 1,
        }
    }
}

impl Status for LateVerdict {
    ghost status = { late_status };

    fn status(&self) -> u8 {
        match self {
            LateVerdict::Yes { gap: _ } => 0,
            LateVerdict::No(_) | LateVerdict::NeverShown { page: _, slot: _ } => 1,
        }
    }
}

impl Status for NumbersVerdict {
    ghost status = { numbers_status };

    fn status(&self) -> u8 {
        match self {
            NumbersVerdict::Yes { gap: _ } => 0,
            NumbersVerdict::No(_) | NumbersVerdict::Lacking(_) => 1,
        }
    }
}

impl Status for RequiredVerdict {
    ghost status = { required_status };

    fn status(&self) -> u8 {
        match self {
            RequiredVerdict::Yes => 0,
            RequiredVerdict::No(_) | RequiredVerdict::Unmet(_) => 1,
        }
    }
}

// Reads the files of a claim, writes what a judge says of them, and gives the status of the verdict.
fn answer<J: Judge, A: Read, B: Read, C: Read, W: Write>(
    alloc: Global,
    judge: &J,
    claim: &mut Claim<A, B, C>,
    writer: &mut Counted<W>,
) -> Result<u8, ToolFault>
where
    J::Verdict: Status,
    ensures bytes { AnswersClaim J.Verdict.status (J.says judge.now) A.remaining B.remaining C.remaining claim.old
        (W.contents (inner_of writer.old)) (W.contents (inner_of writer.new)) result }
    ensures faults { IsFirstFailure (claim_devices A.remaining B.remaining C.remaining claim.old claim.new writer.old writer.new) (failed_at result) }
    ensures untouched { IsUntouched is_tool_write result writer.old writer.new }
{
    let (cycle, service) = (&mut claim.cycle, &mut claim.service);
    let verdict = answer_files(alloc, judge, cycle, service, &mut claim.certificate, writer)?;
    Ok(verdict.status())
}

/// Reads a packet file, the text of a service and that of a certificate, in this order, certifies the pages of the service, and writes the
/// verdict as lines or JSON objects: the status is 0 if it is yes, otherwise 1.
///
/// Nothing is written before everything is judged. After `Write` exactly the first `written` bytes of the answer went out; after any other
/// fault the writer is unchanged.
pub fn run<A: Read, B: Read, C: Read, W: Write>(
    alloc: Global,
    claim: &mut Claim<A, B, C>,
    judgement: Judgement,
    json: bool,
    writer: &mut Counted<W>,
) -> Result<u8, ToolFault>
    ensures bytes { CertifiesBy json judgement A.remaining B.remaining C.remaining claim.old
        (W.contents (inner_of writer.old)) (W.contents (inner_of writer.new)) result }
    ensures faults { IsFirstFailure (claim_devices A.remaining B.remaining C.remaining claim.old claim.new writer.old writer.new) (failed_at result) }
    ensures untouched { IsUntouched is_tool_write result writer.old writer.new }
{
    match (json, judgement) {
        (false, Judgement::AtOnce) => answer(alloc, &AtOnce, claim, writer),
        (false, Judgement::All) => answer(alloc, &All, claim, writer),
        (false, Judgement::Late) => answer(alloc, &Late, claim, writer),
        (false, Judgement::Numbers) => answer(alloc, &ByNumber, claim, writer),
        (false, Judgement::Within(most)) => answer(alloc, &Required(Some(most)), claim, writer),
        (true, Judgement::AtOnce) => answer(alloc, &objects::AtOnce, claim, writer),
        (true, Judgement::All) => answer(alloc, &objects::All, claim, writer),
        (true, Judgement::Late) => answer(alloc, &objects::Late, claim, writer),
        (true, Judgement::Numbers) => answer(alloc, &objects::ByNumber, claim, writer),
        (true, Judgement::Within(most)) => answer(alloc, &objects::Required(most), claim, writer),
    }
}

/// Reads the text of a service, that of a certificate, and then a packet file twice, in this order, slot by slot: once through `first`, and
/// once in the claim. Certifies the pages of the service for the second reading and writes the verdict as a line or a JSON object: the status
/// is 0 if it is yes, otherwise 1.
///
/// Nothing is written before everything is judged. After `Write` exactly the first `written` bytes of the answer went out; after any other
/// fault the writer is unchanged.
pub fn run_twice<A: Read, B: Read, C: Read, D: Read, W: Write>(
    alloc: Global,
    first: &mut Counted<A>,
    claim: &mut Claim<B, C, D>,
    json: bool,
    writer: &mut Counted<W>,
) -> Result<u8, ToolFault>
    ensures bytes { CertifiesTwice json (A.remaining (inner_of first.old)) (B.remaining (inner_of claim.old.cycle))
        (C.remaining (inner_of claim.old.service)) (D.remaining (inner_of claim.old.certificate))
        (W.contents (inner_of writer.old)) (W.contents (inner_of writer.new)) result }
    ensures faults { IsFirstFailure (twice_devices A.remaining B.remaining C.remaining D.remaining first.old claim.old first.new claim.new
        writer.old writer.new) (failed_at result) }
    ensures untouched { IsUntouched is_tool_write result writer.old writer.new }
{
    let (second, service) = (&mut claim.cycle, &mut claim.service);
    let certificate = &mut claim.certificate;
    if json {
        match answer_passes(
            alloc,
            &objects::AtOnce,
            first,
            second,
            service,
            certificate,
            writer,
        ) {
            Ok(verdict) => Ok(verdict.status()),
            Err(fault) => Err(ToolFault::Files(fault)),
        }
    } else {
        match certify_passes(alloc, first, second, service, certificate, writer) {
            Ok(verdict) => Ok(verdict.status()),
            Err(fault) => Err(ToolFault::Files(fault)),
        }
    }
}
