//! What a monitor makes of one slot of a feed.

use crate::breach::Breach;

/// What a monitor makes of one slot: by how many slots the feed has slipped there, if it has; how the slot breaks the rule, if it does; how
/// many of its bytes and bits are wrong; and the longest streak of wrong transmissions of a text byte since the feed slipped last.
#[derive(Clone, Copy)]
pub struct Event {
    pub shift: Option<usize>,
    pub breach: Option<Breach>,
    pub wrong: u8,
    pub bits: u16,
    pub streak: u8,
}
