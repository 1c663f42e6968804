//! Certifies files: a packet file, a service definition and a certificate.

ghost use Rattle.std.specs.Prelude.{◌∷◌, [], IfSome};
ghost use Rattle.ttx_cycle.specs.Counters.{inner_of, faults_of};
ghost use Rattle.ttx_files.specs.Answers.{IsUntouched, is_write};
ghost use Rattle.ttx_files.specs.Devices.{AtCycle, AtService, AtCertificate, input, output, failed_at, IsFirstFailure};
ghost use Rattle.ttx_certify.specs.CertifyingFiles.{CertifiesFiles, IsJudged};
ghost use Rattle.ttx_certify.specs.VerdictLines as rule;

use crate::certified_services::certify_service;
use crate::verdict::Verdict;
use crate::verdict_lines::verdict_line;
use crate::wordings::VerdictWording;
use std::alloc::Global;
use std::io::{Read, Write};
use ttx_cycle::Counted;
use ttx_files::{FilesFault, Inputs, Judge, Told, answer_files};
use ttx_witness::{Certificate, NoMemory};

/// Judges for receivers that show a page at once. The line is that of `certify_files`.
pub struct AtOnce;

impl VerdictWording for AtOnce {
    ghost words = { λ j. rule.verdict_line };

    fn text(
        &self,
        alloc: Global,
        certificate: &Certificate,
        pages: usize,
        verdict: &Verdict,
    ) -> Result<String, NoMemory> {
        verdict_line(alloc, certificate, pages, *verdict)
    }
}

impl Judge for AtOnce {
    type Verdict = Verdict;

    ghost says = { λ j. IsJudged };

    fn judge(&self, alloc: Global, inputs: &Inputs) -> Result<Told<Verdict>, NoMemory> {
        let (service, certificate) = (&inputs.service, &inputs.certificate);
        let Ok(verdict) = certify_service(alloc, &inputs.cycle, service, certificate) else {
            return Err(NoMemory);
        };
        match self.text(alloc, certificate, service.pages().len(), &verdict) {
            Ok(line) => Ok(Told { verdict, line }),
            Err(_) => Err(NoMemory),
        }
    }
}

/// Reads a packet file, a service definition and a certificate, in this order, certifies the pages of the service, and writes the line
/// of the verdict. If the verdict is `Yes`, each page is seen, as `certify` says.
///
/// Nothing is written before everything is judged. After a `Write` fault exactly the first `written` bytes of the line went out; after any
/// other fault the writer is unchanged, whether or not the contents of the readers are known.
pub fn certify_files<A: Read, B: Read, C: Read, W: Write>(
    alloc: Global,
    cycle: &mut Counted<A>,
    service: &mut Counted<B>,
    certificate: &mut Counted<C>,
    writer: &mut Counted<W>,
) -> Result<Verdict, FilesFault>
    ensures bytes { IfSome (A.remaining (inner_of cycle.old)) (λ a.
        IfSome (B.remaining (inner_of service.old)) (λ b.
        IfSome (C.remaining (inner_of certificate.old)) (λ c.
        CertifiesFiles a b c (W.contents (inner_of writer.old)) (W.contents (inner_of writer.new)) result))) }
    ensures faults { IsFirstFailure (input AtCycle (A.remaining (inner_of cycle.old)) (faults_of cycle.old) (faults_of cycle.new)
        ∷ input AtService (B.remaining (inner_of service.old)) (faults_of service.old) (faults_of service.new)
        ∷ input AtCertificate (C.remaining (inner_of certificate.old)) (faults_of certificate.old) (faults_of certificate.new)
        ∷ output (faults_of writer.old) (faults_of writer.new) ∷ []) (failed_at result) }
    ensures untouched { IsUntouched is_write result writer.old writer.new }
{
    answer_files(alloc, &AtOnce, cycle, service, certificate, writer)
}
