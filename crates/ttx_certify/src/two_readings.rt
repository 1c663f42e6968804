//! Certifies two readings of a packet file, without keeping its slots.

ghost use Rattle.std.specs.Prelude.{◌∷◌, [], IfOk, IfSome};
ghost use Rattle.ttx_cycle.specs.Counters.{inner_of, faults_of};
ghost use Rattle.ttx_certificate.specs.Certificates.{fields_of};
ghost use Rattle.ttx_files.specs.Answers.{IsUntouched, is_write};
ghost use Rattle.ttx_files.specs.Devices.{AtCycle, AtService, AtCertificate, input, output, failed_at, IsRight, IsFirstFailure};
ghost use Rattle.ttx_certify.specs.CertifyingPasses.{WalksFiles, JudgesPasses, AnswersPasses, CertifiesPasses};

use crate::certified_files::AtOnce;
use crate::verdict::Verdict;
use crate::walks::passes::Walk;
use crate::wordings::VerdictWording;
use std::alloc::Global;
use std::io::{Read, Write};
use ttx_cycle::Counted;
use ttx_files::{FilesFault, Texts, Told, read_slots, read_texts, write_told};

// The verdict on the second of two readings of a packet file, which are read slot by slot, the first one first.
fn walk_files<A: Read, B: Read>(
    alloc: Global,
    texts: &Texts,
    first: &mut Counted<A>,
    second: &mut Counted<B>,
) -> Result<Verdict, FilesFault>
    ensures bytes { IfSome (A.remaining (inner_of first.old)) (λ a.
        IfSome (B.remaining (inner_of second.old)) (λ b. WalksFiles a b texts.now.service (fields_of texts.now.certificate) result)) }
    ensures right { IfOk result (λ _. IsRight AtCycle (A.remaining (inner_of first.old)) × IsRight AtCycle (B.remaining (inner_of second.old))) }
    ensures faults { IsFirstFailure (input AtCycle (A.remaining (inner_of first.old)) (faults_of first.old) (faults_of first.new)
        ∷ input AtCycle (B.remaining (inner_of second.old)) (faults_of second.old) (faults_of second.new) ∷ []) (failed_at result) }
{
    let Ok(mut walk) = Walk::new(alloc, texts.service.pages(), &texts.certificate) else {
        return Err(FilesFault::NoMemory);
    };
    if let Err(fault) = read_slots(first, &mut walk) {
        return Err(fault);
    }
    let mut passed = walk.begin_second();
    match read_slots(second, &mut passed) {
        Ok(()) => Ok(passed.finish()),
        Err(fault) => Err(fault),
    }
}

// Reads the four inputs and judges them.
fn judge_passes<V: VerdictWording, A: Read, B: Read, C: Read, D: Read>(
    alloc: Global,
    wording: &V,
    first: &mut Counted<A>,
    second: &mut Counted<B>,
    service: &mut Counted<C>,
    certificate: &mut Counted<D>,
) -> Result<Told<Verdict>, FilesFault>
    ensures bytes { IfSome (A.remaining (inner_of first.old)) (λ a.
        IfSome (B.remaining (inner_of second.old)) (λ b.
        IfSome (C.remaining (inner_of service.old)) (λ c.
        IfSome (D.remaining (inner_of certificate.old)) (λ d. JudgesPasses (V.words wording.now) a b c d result)))) }
    ensures right { IfOk result (λ _. IsRight AtService (C.remaining (inner_of service.old)) × IsRight AtCertificate (D.remaining (inner_of certificate.old))
        × IsRight AtCycle (A.remaining (inner_of first.old)) × IsRight AtCycle (B.remaining (inner_of second.old))) }
    ensures faults { IsFirstFailure (input AtService (C.remaining (inner_of service.old)) (faults_of service.old) (faults_of service.new)
        ∷ input AtCertificate (D.remaining (inner_of certificate.old)) (faults_of certificate.old) (faults_of certificate.new)
        ∷ input AtCycle (A.remaining (inner_of first.old)) (faults_of first.old) (faults_of first.new)
        ∷ input AtCycle (B.remaining (inner_of second.old)) (faults_of second.old) (faults_of second.new) ∷ []) (failed_at result) }
{
    let texts = match read_texts(alloc, service, certificate) {
        Ok(texts) => texts,
        Err(fault) => return Err(fault),
    };
    let verdict = match walk_files(alloc, &texts, first, second) {
        Ok(verdict) => verdict,
        Err(fault) => return Err(fault),
    };
    let pages = texts.service.pages().len();
    match wording.text(alloc, &texts.certificate, pages, &verdict) {
        Ok(line) => Ok(Told { verdict, line }),
        Err(_) => Err(FilesFault::NoMemory),
    }
}

/// Reads a service definition, a certificate, and then a packet file twice, in this order, slot by slot. Certifies the pages of the
/// service for the second reading, and writes the verdict as it is worded.
///
/// Nothing is written before everything is judged. After a `Write` fault exactly the first `written` bytes of the text went out; after any
/// other fault the writer is unchanged, whether or not the contents of the readers are known. `Cycle` is the fault of the first faulty
/// packet file.
pub fn answer_passes<V: VerdictWording, A: Read, B: Read, C: Read, D: Read, W: Write>(
    alloc: Global,
    wording: &V,
    first: &mut Counted<A>,
    second: &mut Counted<B>,
    service: &mut Counted<C>,
    certificate: &mut Counted<D>,
    writer: &mut Counted<W>,
) -> Result<Verdict, FilesFault>
    ensures bytes { IfSome (A.remaining (inner_of first.old)) (λ a.
        IfSome (B.remaining (inner_of second.old)) (λ b.
        IfSome (C.remaining (inner_of service.old)) (λ c.
        IfSome (D.remaining (inner_of certificate.old)) (λ d.
        AnswersPasses (V.words wording.now) a b c d (W.contents (inner_of writer.old)) (W.contents (inner_of writer.new)) result)))) }
    ensures faults { IsFirstFailure (input AtService (C.remaining (inner_of service.old)) (faults_of service.old) (faults_of service.new)
        ∷ input AtCertificate (D.remaining (inner_of certificate.old)) (faults_of certificate.old) (faults_of certificate.new)
        ∷ input AtCycle (A.remaining (inner_of first.old)) (faults_of first.old) (faults_of first.new)
        ∷ input AtCycle (B.remaining (inner_of second.old)) (faults_of second.old) (faults_of second.new)
        ∷ output (faults_of writer.old) (faults_of writer.new) ∷ []) (failed_at result) }
    ensures untouched { IsUntouched is_write result writer.old writer.new }
{
    let told = judge_passes(alloc, wording, first, second, service, certificate);
    write_told(told, writer)
}

/// Reads a service definition, a certificate, and then a packet file twice, in this order, slot by slot. Certifies the pages of the
/// service for the second reading, and writes the line of the verdict. If the verdict is `Yes`, each page is seen in the second reading.
/// If both readings are equal, the verdict is that of `certify_files`.
///
/// Nothing is written before everything is judged. After a `Write` fault exactly the first `written` bytes of the line went out; after any
/// other fault the writer is unchanged, whether or not the contents of the readers are known. `Cycle` is the fault of the first faulty
/// packet file.
pub fn certify_passes<A: Read, B: Read, C: Read, D: Read, W: Write>(
    alloc: Global,
    first: &mut Counted<A>,
    second: &mut Counted<B>,
    service: &mut Counted<C>,
    certificate: &mut Counted<D>,
    writer: &mut Counted<W>,
) -> Result<Verdict, FilesFault>
    ensures bytes { IfSome (A.remaining (inner_of first.old)) (λ a.
        IfSome (B.remaining (inner_of second.old)) (λ b.
        IfSome (C.remaining (inner_of service.old)) (λ c.
        IfSome (D.remaining (inner_of certificate.old)) (λ d.
        CertifiesPasses a b c d (W.contents (inner_of writer.old)) (W.contents (inner_of writer.new)) result)))) }
    ensures faults { IsFirstFailure (input AtService (C.remaining (inner_of service.old)) (faults_of service.old) (faults_of service.new)
        ∷ input AtCertificate (D.remaining (inner_of certificate.old)) (faults_of certificate.old) (faults_of certificate.new)
        ∷ input AtCycle (A.remaining (inner_of first.old)) (faults_of first.old) (faults_of first.new)
        ∷ input AtCycle (B.remaining (inner_of second.old)) (faults_of second.old) (faults_of second.new)
        ∷ output (faults_of writer.old) (faults_of writer.new) ∷ []) (failed_at result) }
    ensures untouched { IsUntouched is_write result writer.old writer.new }
{
    answer_passes(alloc, &AtOnce, first, second, service, certificate, writer)
}
