//! The slots of a run: which slots of the cycle they are, and which rows of a page they send.

ghost use Rattle.std.specs.Prelude.{◌≡◌, ◌+◌, ◌%◌, ◌<◌, pos, length, MatchOption, ⊤, IsTrue, ◌↔◌};
ghost use Rattle.ttx_page.specs.Packets.{packet_of};
ghost use Rattle.ttx_page.specs.Streams.{repeated};
ghost use Rattle.ttx_cycle.specs.Cycles.{slots_of};
ghost use Rattle.ttx_counter.specs.Listening.{row_sent, HasOwner};

use ttx_cycle::Cycle;
use ttx_header::PageId;
use ttx_witness::{heads_page, mine_after, row_in};

/// The index in a cycle of `period` slots of slot `i` of a run that starts at `start`.
pub fn place(start: u32, i: u32, period: usize) -> usize
    requires { 0 < period }
    ensures value { result ≡ (start + i) % period }
    ensures inside { result < period }
{
    ((u64::from(start) + u64::from(i)) % period as u64) as usize
}

/// The row of the page that a slot sends, 0 for a header. `mine` says whether the latest header of the magazine is one of the page.
pub fn row_sent(page: PageId, slot: &[u8; 42], mine: bool) -> Option<u8>
    ensures row { result ≡ row_sent page (packet_of slot.now) mine }
    ensures few { MatchOption result ⊤ (λ r. r < 25) }
{
    ttx_packet::laws::rows_are_numbered();
    if heads_page(page, slot) {
        return Some(0);
    }
    match row_in(slot) {
        Some(at) => {
            if mine && at.mag == page.mag() {
                Some(at.number)
            } else {
                None
            }
        }
        None => None,
    }
}

/// Whether the latest header of the page's magazine before a slot is one of the page.
pub fn is_owned(cycle: &Cycle, page: PageId, start: u32) -> bool
    ensures { IsTrue result ↔ HasOwner (repeated (slots_of cycle.now)) page (pos start) }
{
    ttx_page::laws::cycles_repeat();
    let slots = cycle.slots();
    let mut mine = false;
    for i in 0..slots.len() {
        mine = mine_after(page, &slots[place(start, i as u32, slots.len())], mine);
    }
    mine
}
