//! The next header of a magazine or of a selection in a cycle, and the next one that may end a page.

ghost use Rattle.std.specs.Prelude.{◌≡◌, ◌<◌, ◌≤◌, length, pos, true};
ghost use Rattle.ttx_page.specs.Packets.{packet_of};
ghost use Rattle.ttx_page.specs.Streams.{repeated, heads_matched};
ghost use Rattle.ttx_subpages.specs.Distances.{may_end, seeks, IsDistance};

use ttx_late::heads;
use ttx_page::Selection;
use ttx_witness::header_in;

// Headers that are looked for.
#[derive(Clone, Copy)]
pub(crate) enum Sought {
    // Those of a magazine.
    Magazine(u8),
    // Those that may end a page of a magazine.
    Ending(u8),
    // Those that a selection matches.
    Matched(Selection),
}

// Whether the slot is a header that may end a page of the magazine.
fn may_end(mag: u8, slot: &[u8; 42]) -> bool
    ensures { result ≡ may_end mag (packet_of slot.now) }
{
    ttx_cycle::arrays::is_slot(slot);
    match header_in(slot) {
        Some(header) => header.id().mag() == mag || header.control().is_serial(),
        None => false,
    }
}

// Whether the slot is a header that the selection matches.
pub(crate) fn heads_matched(selection: &Selection, slot: &[u8; 42]) -> bool
    ensures { result ≡ heads_matched selection.now (packet_of slot.now) }
{
    ttx_cycle::arrays::is_slot(slot);
    match header_in(slot) {
        Some(header) => selection.matches(header.id()),
        None => false,
    }
}

// Whether the slot is such a header.
pub(crate) fn seeks(sought: &Sought, slot: &[u8; 42]) -> bool
    ensures { result ≡ seeks sought.now (packet_of slot.now) }
{
    match sought {
        Sought::Magazine(mag) => heads(*mag, slot),
        Sought::Ending(mag) => may_end(*mag, slot),
        Sought::Matched(selection) => heads_matched(selection, slot),
    }
}

// How many slots after such a header in slot `at`, of this period or of the next, the next one comes.
pub(crate) fn distance(slots: &[[u8; 42]], at: usize, sought: &Sought) -> usize
    requires near { at ≤ 131072 }
    requires some { 0 < length slots.now }
    requires most { length slots.now ≤ 65536 }
    requires here { seeks sought.now (packet_of (repeated slots.now (pos at))) ≡ true }
    ensures is { IsDistance (repeated slots.now) sought.now at result }
    ensures most { result ≤ length slots.now }
{
    for step in 0..slots.len() {
        if seeks(sought, &slots[(at + 1 + step) % slots.len()]) {
            return step + 1;
        }
    }
    slots.len()
}
