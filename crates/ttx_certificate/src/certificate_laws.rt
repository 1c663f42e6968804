//! Laws of certificates and of their texts.

ghost use Rattle.ttx_certificate.specs.CertificateLaws.{CertificatesKeepTheirRules, AcceptedTextsAreWritten, WrittenTextsAreRead};

use ttx_digits::laws::{
    ids_hold_no_separator, numbers_hold_no_separator, read_ids_are_written,
    read_numbers_are_written, written_ids_are_read, written_numbers_are_read,
};

/// Each certificate of the program is in the ranges and orders of certificates.
pub fn certificates_keep_their_rules()
    ensures { CertificatesKeepTheirRules }
{}

/// A text that is accepted is the text written for its certificate: each certificate has one text.
pub fn accepted_texts_are_written()
    ensures { AcceptedTextsAreWritten }
{
    read_ids_are_written();
    read_numbers_are_written();
}

/// The text written for a certificate is read back as the certificate.
pub fn written_texts_are_read()
    ensures { WrittenTextsAreRead }
{
    written_ids_are_read();
    written_numbers_are_read();
    ids_hold_no_separator();
    numbers_hold_no_separator();
}
