//! Why a broadcast ends before its time.

use ttx_cycle::{TextFault, WriteFault};

/// Why a broadcast ends before its time.
#[derive(Drop)]
pub enum BroadcastFault {
    /// The first text is not read. Nothing is sent.
    Unread(TextFault),
    /// The first text has no edition. The words say why, in one line. Nothing is sent.
    Refused(String),
    /// Memory ran out before the first slot. Nothing is sent.
    NoMemory,
    /// A write of packets failed.
    Write(WriteFault),
}
