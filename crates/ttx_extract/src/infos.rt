//! The packet 8/30 of a cycle.

ghost use Rattle.std.specs.Prelude.{◌≡◌, ◌↔◌, IsTrue};
ghost use Rattle.ttx_cycle.specs.Cycles.{slots_of};
ghost use Rattle.ttx_extract.specs.FirstPackets.{slot_info};
ghost use Rattle.ttx_extract.specs.FoundInfos.{TellsInfo};

use ttx_cycle::Cycle;
use ttx_info::{Info, read_info, write_info};
use ttx_packet::{Slot, slot_of};

/// A packet 8/30 and its slot.
#[derive(Clone, Copy)]
pub struct FoundInfo {
    pub info: Info,
    pub slot: u32,
}

// The packet 8/30 format 1 of a slot.
#[tactic(auto, unfolding(crate::specs::FirstPackets::slot_info))]
fn slot_info(bytes: &[u8; 42]) -> Option<Info>
    ensures { result ≡ slot_info bytes.now }
{
    match slot_of(bytes) {
        Slot::Info(_, bytes) => match read_info(bytes) {
            Ok(info) => Some(info),
            Err(_) => None,
        },
        Slot::Empty => None,
        Slot::Unreadable => None,
        Slot::Header(_, _) => None,
        Slot::Row(_, _) => None,
        Slot::Links(_, _) => None,
        Slot::Other(_) => None,
    }
}

/// The first packet 8/30 format 1.
pub fn first_info(cycle: &Cycle) -> Option<FoundInfo>
    ensures { TellsInfo (slots_of cycle.now) result }
{
    let slots = cycle.slots();
    for slot in 0..slots.len() {
        if let Some(info) = slot_info(&slots[slot]) {
            return Some(FoundInfo {
                info,
                slot: slot as u32,
            });
        }
    }
    None
}

/// Whether two packets 8/30 have the same contents.
pub fn same_info(a: &Info, b: &Info) -> bool
    ensures { IsTrue result ↔ (a.now ≡ b.now) }
{
    ttx_info::laws::written_infos_are_read();
    ttx_info::laws::initial_page_is_a_target(a);
    ttx_info::laws::initial_page_is_a_target(b);
    // the ranges of both
    let _designations = (a.designation(), b.designation());
    write_info(a) == write_info(b)
}
