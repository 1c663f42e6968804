//! The verdict on a packet file, a service definition and a certificate, in a line.

ghost use Rattle.std.specs.Prelude.{◌∷◌, [], ℕ, List, IfSome, IfOk, string_bytes};
ghost use Rattle.ttx_source.specs.Services.{ServiceFields};
ghost use Rattle.ttx_certificate.specs.Certificates.{fields_of};
ghost use Rattle.ttx_certificate.specs.Entries.{CertificateFields};
ghost use Rattle.ttx_cycle.specs.Counters.{inner_of, faults_of};
ghost use Rattle.ttx_cycle.specs.Cycles.{slots_of};
ghost use Rattle.ttx_files.specs.Answers.{IsUntouched, is_write};
ghost use Rattle.ttx_files.specs.Devices.{AtCycle, AtService, AtCertificate, input, output, failed_at, IsRight, IsFirstFailure};
ghost use Rattle.ttx_files.specs.Judging.{JudgesFiles, AnswersFiles};

use crate::faults::FilesFault;
use crate::readers::{Inputs, read_inputs};
use crate::told::{Told, write_told};
use std::alloc::Global;
use std::io::{Read, Write};
use ttx_certificate::NoMemory;
use ttx_cycle::Counted;

/// Judges a cycle, the service that it carries, and a certificate. `says` is the verdict on them, with its line.
pub trait Judge {
    type Verdict: Drop;

    ghost says: { Self → List (List ℕ) → ServiceFields → CertificateFields → Self.Verdict → List ℕ → Type 0 };

    /// The verdict and its line.
    fn judge(&self, alloc: Global, inputs: &Inputs) -> Result<Told<Self::Verdict>, NoMemory>
        ensures { IfOk result (λ told. says self.now (slots_of inputs.now.cycle) inputs.now.service (fields_of inputs.now.certificate)
            told.verdict (string_bytes told.line)) };
}

// Reads the three files and judges them.
fn judge_files<J: Judge, A: Read, B: Read, C: Read>(
    alloc: Global,
    judge: &J,
    cycle: &mut Counted<A>,
    service: &mut Counted<B>,
    certificate: &mut Counted<C>,
) -> Result<Told<J::Verdict>, FilesFault>
    ensures bytes { IfSome (A.remaining (inner_of cycle.old)) (λ a.
        IfSome (B.remaining (inner_of service.old)) (λ b.
        IfSome (C.remaining (inner_of certificate.old)) (λ c. JudgesFiles (J.says judge.now) a b c result))) }
    ensures right { IfOk result (λ _. IsRight AtCycle (A.remaining (inner_of cycle.old)) × IsRight AtService (B.remaining (inner_of service.old))
        × IsRight AtCertificate (C.remaining (inner_of certificate.old))) }
    ensures faults { IsFirstFailure (input AtCycle (A.remaining (inner_of cycle.old)) (faults_of cycle.old) (faults_of cycle.new)
        ∷ input AtService (B.remaining (inner_of service.old)) (faults_of service.old) (faults_of service.new)
        ∷ input AtCertificate (C.remaining (inner_of certificate.old)) (faults_of certificate.old) (faults_of certificate.new) ∷ [])
        (failed_at result) }
{
    let inputs = match read_inputs(alloc, cycle, service, certificate) {
        Ok(inputs) => inputs,
        Err(fault) => return Err(fault),
    };
    match judge.judge(alloc, &inputs) {
        Ok(told) => Ok(told),
        Err(_) => Err(FilesFault::NoMemory),
    }
}

/// Reads a packet file, a service definition and a certificate, in this order, judges them, and writes the line of the verdict.
///
/// Nothing is written before everything is judged. After a `Write` fault exactly the first `written` bytes of the line went out; after any
/// other fault the writer is unchanged, whether or not the contents of the readers are known.
pub fn answer_files<J: Judge, A: Read, B: Read, C: Read, W: Write>(
    alloc: Global,
    judge: &J,
    cycle: &mut Counted<A>,
    service: &mut Counted<B>,
    certificate: &mut Counted<C>,
    writer: &mut Counted<W>,
) -> Result<J::Verdict, FilesFault>
    ensures bytes { IfSome (A.remaining (inner_of cycle.old)) (λ a.
        IfSome (B.remaining (inner_of service.old)) (λ b.
        IfSome (C.remaining (inner_of certificate.old)) (λ c.
        AnswersFiles (J.says judge.now) a b c (W.contents (inner_of writer.old)) (W.contents (inner_of writer.new)) result))) }
    ensures faults { IsFirstFailure (input AtCycle (A.remaining (inner_of cycle.old)) (faults_of cycle.old) (faults_of cycle.new)
        ∷ input AtService (B.remaining (inner_of service.old)) (faults_of service.old) (faults_of service.new)
        ∷ input AtCertificate (C.remaining (inner_of certificate.old)) (faults_of certificate.old) (faults_of certificate.new)
        ∷ output (faults_of writer.old) (faults_of writer.new) ∷ []) (failed_at result) }
    ensures untouched { IsUntouched is_write result writer.old writer.new }
{
    let told = judge_files(alloc, judge, cycle, service, certificate);
    write_told(told, writer)
}
