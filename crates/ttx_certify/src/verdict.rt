//! The verdict of the certifier.

use ttx_witness::Reason;

/// Whether a cycle is accepted with a certificate; if not, the first reason.
#[derive(Clone, Copy)]
pub enum Verdict {
    Yes,
    No(Reason),
}
