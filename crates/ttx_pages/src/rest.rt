//! What belongs to no page.

ghost use Rattle.std.specs.Prelude.{◌≡◌, ◌++◌, ◌∷◌, [], OnOk, codes, count_by, string_bytes};
ghost use Rattle.std.specs.Fmt.{decimal};
ghost use Rattle.ttx_pages.specs.Listing.{is_info, is_other_packet, is_empty_slot, is_unreadable, is_corrected, others_text, unread_text};
ghost use Rattle.ttx_pages.specs.Listing.{corrected_text, slots_text};

use std::alloc::AllocError;
use ttx_packet::{Slot, clean, slot_of};

fn is_info(slot: &[u8; 42]) -> bool
    ensures { result ≡ is_info slot.now }
{
    match slot_of(slot) {
        Slot::Info(_, _) => true,
        _ => false,
    }
}

fn is_other_packet(slot: &[u8; 42]) -> bool
    ensures { result ≡ is_other_packet slot.now }
{
    match slot_of(slot) {
        Slot::Other(_) => true,
        _ => false,
    }
}

fn is_empty_slot(slot: &[u8; 42]) -> bool
    ensures { result ≡ is_empty_slot slot.now }
{
    match slot_of(slot) {
        Slot::Empty => true,
        _ => false,
    }
}

fn is_unreadable(slot: &[u8; 42]) -> bool
    ensures { result ≡ is_unreadable slot.now }
{
    match slot_of(slot) {
        Slot::Unreadable => true,
        _ => false,
    }
}

fn is_corrected(slot: &[u8; 42]) -> bool
    ensures { result ≡ is_corrected slot.now }
{
    !is_unreadable(slot) && !clean(slot)
}

/// How many packets 8/30 there are.
pub(crate) fn infos(slots: &[[u8; 42]]) -> usize
    ensures { result ≡ count_by is_info slots.now }
{
    slots.iter().filter(|slot| is_info(slot)).count()
}

/// How many other packets there are.
pub(crate) fn others(slots: &[[u8; 42]]) -> usize
    ensures { result ≡ count_by is_other_packet slots.now }
{
    slots.iter().filter(|slot| is_other_packet(slot)).count()
}

/// How many empty slots there are.
pub(crate) fn blanks(slots: &[[u8; 42]]) -> usize
    ensures { result ≡ count_by is_empty_slot slots.now }
{
    slots.iter().filter(|slot| is_empty_slot(slot)).count()
}

/// How many slots that cannot be read there are.
pub(crate) fn unreadables(slots: &[[u8; 42]]) -> usize
    ensures { result ≡ count_by is_unreadable slots.now }
{
    slots.iter().filter(|slot| is_unreadable(slot)).count()
}

/// How many packets that have to be corrected there are.
pub(crate) fn correcteds(slots: &[[u8; 42]]) -> usize
    ensures { result ≡ count_by is_corrected slots.now }
{
    slots.iter().filter(|slot| is_corrected(slot)).count()
}

/// Appends how many packets 8/30 and other packets there are.
#[tactic(auto, unfolding(crate::specs::Listing::others_text))]
pub(crate) fn push_others(text: &mut String, slots: &[[u8; 42]]) -> Result<(), AllocError>
    ensures { OnOk result (string_bytes text.new ≡ string_bytes text.old ++ others_text slots.now) }
{
    let info = infos(slots);
    let other = others(slots);
    write!(text, " info {info} other {other}")
}

// Appends how many slots are empty, and how many are unreadable.
#[tactic(auto, unfolding(crate::specs::Listing::unread_text))]
fn push_unread(text: &mut String, slots: &[[u8; 42]]) -> Result<(), AllocError>
    ensures { OnOk result (string_bytes text.new ≡ string_bytes text.old ++ unread_text slots.now) }
{
    let empty = blanks(slots);
    let unreadable = unreadables(slots);
    write!(text, " empty {empty} unreadable {unreadable}")
}

// Appends how many packets are corrected.
#[tactic(auto, unfolding(crate::specs::Listing::corrected_text))]
fn push_corrected(text: &mut String, slots: &[[u8; 42]]) -> Result<(), AllocError>
    ensures { OnOk result (string_bytes text.new ≡ string_bytes text.old ++ corrected_text slots.now) }
{
    let corrected = correcteds(slots);
    write!(text, " corrected {corrected}")
}

/// Appends how many slots are empty, unreadable and corrected, and ends the line.
pub(crate) fn push_slots(text: &mut String, slots: &[[u8; 42]]) -> Result<(), AllocError>
    ensures { OnOk result (string_bytes text.new ≡ string_bytes text.old ++ slots_text slots.now) }
{
    push_unread(text, slots)?;
    push_corrected(text, slots)?;
    text.push('\n')
}
