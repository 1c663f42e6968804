//! Deadlines in slots.

ghost use Rattle.std.specs.Prelude.{◌≡◌};
ghost use Rattle.ttx_certificate.specs.Certificates.{certificate_of};
ghost use Rattle.ttx_certificate.specs.NamedStarts.{limit};

use crate::certificates::Certificate;

/// The deadline in slots.
pub fn limit(certificate: &Certificate) -> u32
    ensures { result ≡ limit (certificate_of certificate.now) }
{
    crate::certificate_laws::certificates_keep_their_rules();
    certificate.deadline() * u32::from(certificate.lines())
}
