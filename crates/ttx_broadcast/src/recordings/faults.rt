//! Why a replay ends before its time.

use ttx_air::AirFault;

/// Why a replay ends before its time.
#[derive(Drop)]
pub enum ReplayFault<'a> {
    /// No text has this digest, which the log names. Nothing is sent.
    Lost { digest: &'a str },
    /// The first text has no edition. The words say why, in one line. Nothing is sent.
    Refused(String),
    /// Memory ran out before the first slot. Nothing is sent.
    NoMemory,
    /// A write of packets failed; or the first edition does not go on the air, and nothing is sent.
    Air(AirFault),
}
