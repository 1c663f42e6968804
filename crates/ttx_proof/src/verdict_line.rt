//! The verdict on the six files of a splice, in a line.

ghost use Rattle.std.specs.Prelude.{◌∷◌, [], ℕ, List, IfOk, string_bytes};
ghost use Rattle.ttx_cycle.specs.Counters.{inner_of, faults_of};
ghost use Rattle.ttx_files.specs.Answers.{IsUntouched, is_write};
ghost use Rattle.ttx_files.specs.Devices.{AtCycle, AtService, AtCertificate, input, output, failed_at, IsRight, IsFirstFailure};
ghost use Rattle.ttx_proof.specs.Splices.{Splice};
ghost use Rattle.ttx_proof.specs.SplicingFiles.{splice_in, JudgesSix, AnswersSix};

use crate::six_files::{Six, read_six};
use std::alloc::Global;
use std::io::{Read, Write};
use ttx_cycle::Counted;
use ttx_files::{FilesFault, Told, write_told};
use ttx_witness::NoMemory;

/// Judges a splice. `says` is the verdict on it, with its line.
pub trait SpliceJudge {
    type Verdict: Drop;

    ghost says: { Self → Splice → Self.Verdict → List ℕ → Type 0 };

    /// The verdict on the contents of six files, and its line.
    fn judge(&self, alloc: Global, six: &Six) -> Result<Told<Self::Verdict>, NoMemory>
        ensures { IfOk result (λ told. says self.now (splice_in six.now) told.verdict (string_bytes told.line)) };
}

// Reads the six files and judges the splice.
fn judge_six<J: SpliceJudge, A: Read, B: Read, C: Read, D: Read, E: Read, F: Read>(
    alloc: Global,
    judge: &J,
    old: &mut Counted<A>,
    new: &mut Counted<B>,
    old_service: &mut Counted<C>,
    new_service: &mut Counted<D>,
    old_certificate: &mut Counted<E>,
    new_certificate: &mut Counted<F>,
) -> Result<Told<J::Verdict>, FilesFault>
    ensures bytes { JudgesSix (J.says judge.now) (A.remaining (inner_of old.old)) (B.remaining (inner_of new.old)) (C.remaining (inner_of old_service.old))
        (D.remaining (inner_of new_service.old)) (E.remaining (inner_of old_certificate.old)) (F.remaining (inner_of new_certificate.old)) result }
    ensures right { IfOk result (λ _. IsRight AtCycle (A.remaining (inner_of old.old)) × IsRight AtCycle (B.remaining (inner_of new.old))
        × IsRight AtService (C.remaining (inner_of old_service.old)) × IsRight AtService (D.remaining (inner_of new_service.old))
        × IsRight AtCertificate (E.remaining (inner_of old_certificate.old)) × IsRight AtCertificate (F.remaining (inner_of new_certificate.old))) }
    ensures faults { IsFirstFailure (input AtCycle (A.remaining (inner_of old.old)) (faults_of old.old) (faults_of old.new)
        ∷ input AtCycle (B.remaining (inner_of new.old)) (faults_of new.old) (faults_of new.new)
        ∷ input AtService (C.remaining (inner_of old_service.old)) (faults_of old_service.old) (faults_of old_service.new)
        ∷ input AtService (D.remaining (inner_of new_service.old)) (faults_of new_service.old) (faults_of new_service.new)
        ∷ input AtCertificate (E.remaining (inner_of old_certificate.old)) (faults_of old_certificate.old) (faults_of old_certificate.new)
        ∷ input AtCertificate (F.remaining (inner_of new_certificate.old)) (faults_of new_certificate.old) (faults_of new_certificate.new) ∷ []) (failed_at result) }
{
    let six = match read_six(
        alloc,
        old,
        new,
        old_service,
        new_service,
        old_certificate,
        new_certificate,
    ) {
        Ok(six) => six,
        Err(fault) => return Err(fault),
    };
    match judge.judge(alloc, &six) {
        Ok(told) => Ok(told),
        Err(_) => Err(FilesFault::NoMemory),
    }
}

/// Reads two packet files, two service definitions and two certificates, in this order, the old one of each kind first, judges the
/// splice, and writes the line of the verdict.
///
/// Nothing is written before everything is judged. After a `Write` fault exactly the first `written` bytes of the line went out; after any
/// other fault the writer is unchanged, whether or not the contents of the readers are known.
pub fn splice_files<J: SpliceJudge, A: Read, B: Read, C: Read, D: Read, E: Read, F: Read, W: Write>(
    alloc: Global,
    judge: &J,
    old: &mut Counted<A>,
    new: &mut Counted<B>,
    old_service: &mut Counted<C>,
    new_service: &mut Counted<D>,
    old_certificate: &mut Counted<E>,
    new_certificate: &mut Counted<F>,
    writer: &mut Counted<W>,
) -> Result<J::Verdict, FilesFault>
    ensures faults { IsFirstFailure (input AtCycle (A.remaining (inner_of old.old)) (faults_of old.old) (faults_of old.new)
        ∷ input AtCycle (B.remaining (inner_of new.old)) (faults_of new.old) (faults_of new.new)
        ∷ input AtService (C.remaining (inner_of old_service.old)) (faults_of old_service.old) (faults_of old_service.new)
        ∷ input AtService (D.remaining (inner_of new_service.old)) (faults_of new_service.old) (faults_of new_service.new)
        ∷ input AtCertificate (E.remaining (inner_of old_certificate.old)) (faults_of old_certificate.old) (faults_of old_certificate.new)
        ∷ input AtCertificate (F.remaining (inner_of new_certificate.old)) (faults_of new_certificate.old) (faults_of new_certificate.new)
        ∷ output (faults_of writer.old) (faults_of writer.new) ∷ []) (failed_at result) }
    ensures bytes { AnswersSix (J.says judge.now) (A.remaining (inner_of old.old)) (B.remaining (inner_of new.old)) (C.remaining (inner_of old_service.old))
        (D.remaining (inner_of new_service.old)) (E.remaining (inner_of old_certificate.old)) (F.remaining (inner_of new_certificate.old))
        (W.contents (inner_of writer.old)) (W.contents (inner_of writer.new)) result }
    ensures untouched { IsUntouched is_write result writer.old writer.new }
{
    let told = judge_six(
        alloc,
        judge,
        old,
        new,
        old_service,
        new_service,
        old_certificate,
        new_certificate,
    );
    write_told(told, writer)
}
