//! The three files of a verdict.

use ttx_cycle::Counted;

/// Readers of a packet file, of the text of a service, and of the text of a certificate.
#[derive(Drop)]
pub struct Claim<A, B, C> {
    pub cycle: Counted<A>,
    pub service: Counted<B>,
    pub certificate: Counted<C>,
}
