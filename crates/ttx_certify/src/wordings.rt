//! How verdicts are worded.

ghost use Rattle.std.specs.Prelude.{◌≡◌, ℕ, List, IfOk, string_bytes};
ghost use Rattle.ttx_certificate.specs.Certificates.{fields_of};
ghost use Rattle.ttx_certificate.specs.Entries.{CertificateFields};

use crate::verdict::Verdict;
use std::alloc::Global;
use ttx_witness::{Certificate, NoMemory};

/// How a verdict is worded.
pub trait VerdictWording {
    ghost use Rattle.ttx_certify.specs.declared.verdict.Verdict.{Verdict};

    ghost words: { Self → CertificateFields → ℕ → Verdict → List ℕ };

    /// The text of a verdict on `pages` pages.
    fn text(
        &self,
        alloc: Global,
        certificate: &Certificate,
        pages: usize,
        verdict: &Verdict,
    ) -> Result<String, NoMemory>
        ensures { IfOk result (λ text. string_bytes text ≡ words self.now (fields_of certificate.now) pages verdict.now) };
}
