//! Laws of certificates that are found with a deadline. A call does nothing at run time, and gives the law to the caller's proof.

ghost use Rattle.ttx_deadline.specs.FoundLaws.{FoundIsCertified, FoundIsRead};

/// The verdict of `certify` on a certificate of `find_with` is the one that `find_with` gives; and after a yes the certificate meets each
/// requirement of a deadline that is at least the one that was asked for, and no other.
pub fn found_is_certified()
    ensures { FoundIsCertified }
{
    ttx_certify::verdict_laws::verdicts_are_one();
}

/// The text of a certificate of `find_with` is read as this certificate.
pub fn found_is_read()
    ensures { FoundIsRead }
{
    ttx_witness::certificate_laws::written_texts_are_read();
}
