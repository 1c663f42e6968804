//! Laws of the kinds.

ghost use Rattle.ttx_kinds.specs.Laws.{CertificatesAreRecognised};

/// Each text that is read as a certificate has the kind of certificates.
pub fn certificates_are_recognised()
    ensures { CertificatesAreRecognised }
{
    ttx_certificate::certificate_laws::accepted_texts_are_written();
}
