//! Which magazine each slot of a cycle concerns, so that a receiver need not read the slots of others.

ghost use Rattle.std.specs.Prelude.{◌≡◌, ◌<◌, [], IfOk, map, length, slice_index_or, true, false};
ghost use Rattle.ttx_header.specs.Headers.{is_header, id_of};
ghost use Rattle.ttx_page.specs.Pages.{selected_mag};
ghost use Rattle.ttx_page.specs.declared.class.Class.TheVariants.{Any};
ghost use Rattle.ttx_cycle.specs.Cycles.{slots_of};
ghost use Rattle.ttx_receiver.specs.Tuning.{stepped};
ghost use Rattle.ttx_counter.specs.Magazines.{magazine_of};

use std::alloc::Global;
use ttx_cycle::Cycle;
use ttx_header::read_header;
use ttx_packet::slots::{Slot, slot_of};
use ttx_page::Selection;
use ttx_receiver::{Eager, Receiver};
use ttx_witness::NoMemory;

/// A cycle, and for each of its slots the magazine if it is a header, a row or an X/27/0, otherwise 0.
#[derive(Clone, Copy)]
pub struct Sorted<'a> {
    pub cycle: &'a Cycle,
    pub magazines: &'a [u8],
    ghost sorted: { magazines.now ≡ map magazine_of (slots_of cycle.now) },
}

fn header_magazine(bytes: &[u8; 42]) -> u8
    requires { is_header bytes.now ≡ true }
    ensures { result ≡ (id_of bytes.now).mag }
{
    match read_header(bytes) {
        Some(header) => header.id().mag(),
        None => 0,
    }
}

// The magazine of a header, a row or an X/27/0; 0 for any other slot.
fn magazine_of(slot: &[u8; 42]) -> u8
    ensures { result ≡ magazine_of slot.now }
{
    ttx_header::laws::headers_have_fields();
    match slot_of(slot) {
        Slot::Header(_, bytes) => header_magazine(bytes),
        Slot::Row(at, _) => at.mag,
        Slot::Links(at, _) => at.mag,
        Slot::Empty => 0,
        Slot::Unreadable => 0,
        Slot::Info(_, _) => 0,
        Slot::Other(_) => 0,
    }
}

/// The magazine that each slot of a cycle concerns. `Err` if memory runs out.
pub fn magazines_of(alloc: Global, cycle: &Cycle) -> Result<Vec<u8>, NoMemory>
    ensures { IfOk result (λ magazines. magazines.items ≡ map magazine_of (slots_of cycle.now)) }
{
    let slots = cycle.slots();
    let mut magazines = Vec::new(alloc);
    for slot in slots {
        if magazines.push(magazine_of(slot)).is_err() {
            return Err(NoMemory);
        }
    }
    Ok(magazines)
}

/// The magazine to which a receiver is set.
pub fn selected(selection: &Selection) -> u8
    ensures { result ≡ selected_mag selection.now }
{
    match selection {
        Selection::Exact(id) => id.mag(),
        Selection::AnySub(mag, _) => *mag,
    }
}

/// The magazine of the slot at an index.
pub fn magazine_at(sorted: &Sorted<'_>, at: usize) -> u8
    requires { at < length (slots_of sorted.now.cycle.now) }
    ensures { result ≡ magazine_of (slice_index_or (slots_of sorted.now.cycle.now) at []) }
{
    sorted.magazines[at]
}

/// Gives the receiver the slot at an index. A slot of another magazine has the same effect as an empty one.
pub fn hear_at(receiver: &mut Eager, sorted: &Sorted<'_>, at: usize)
    requires { at < length (slots_of sorted.now.cycle.now) }
    ensures value { receiver.new ≡ stepped Any false receiver.old (slice_index_or (slots_of sorted.now.cycle.now) at []) }
    ensures selection { receiver.new.selection ≡ receiver.old.selection }
    ensures lines { receiver.new.lines ≡ receiver.old.lines }
{
    if magazine_at(sorted, at) == selected(&receiver.selection()) {
        receiver.step(Some(&sorted.cycle.slots()[at]));
    } else {
        receiver.step(None);
    }
}
