//! Why an airing ends before its time.

use ttx_cycle::WriteFault;
use ttx_header::PageId;
use ttx_playout::StartFault;

/// Why an airing ends before its time.
#[derive(Clone, Copy)]
pub enum AirFault {
    /// The first edition is not put on the air. Nothing is sent.
    Start(StartFault),
    /// The header of this page at this slot of the first edition is not followed by one with another page number. Nothing is sent.
    NeverShown { page: PageId, slot: usize },
    /// In the first edition the next header of the magazine comes as late as `gap` slots after a header of a page. Nothing is sent.
    TooFar { gap: usize },
    /// A write of packets failed.
    Write(WriteFault),
}
