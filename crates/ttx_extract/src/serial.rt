//! Whether the magazines of a cycle are sent one after another.

ghost use Rattle.std.specs.Prelude.{◌≡◌};
ghost use Rattle.ttx_cycle.specs.Cycles.{slots_of};
ghost use Rattle.ttx_page.specs.Packets.{packet_of};
ghost use Rattle.ttx_extract.specs.FirstPackets.{header_serial, first_serial};

use ttx_cycle::Cycle;
use ttx_witness::header_in;

// C11 of the header in a slot.
fn header_serial(slot: &[u8; 42]) -> Option<bool>
    ensures { result ≡ header_serial (packet_of slot.now) }
{
    ttx_cycle::arrays::is_slot(slot);
    match header_in(slot) {
        Some(header) => Some(header.control().is_serial()),
        None => None,
    }
}

/// C11 of the first header, which says that magazines are sent one after another; clear if there is no header.
pub fn first_serial(cycle: &Cycle) -> bool
    ensures { result ≡ first_serial (slots_of cycle.now) }
{
    let slots = cycle.slots();
    for slot in 0..slots.len() {
        if let Some(is_serial) = header_serial(&slots[slot]) {
            return is_serial;
        }
    }
    false
}
