//! What a text is written from.

use crate::sent_page::SentPage;
use ttx_info::Info;

/// The lines of a field, C11, the packet 8/30 and the pages that a text is written from. It need not be a service: the lines may be out
/// of range.
#[derive(Drop)]
pub struct Draft {
    pub lines: u8,
    pub serial: bool,
    pub info: Option<Info>,
    pub pages: Vec<SentPage>,
}
