//! How long a subpage stays, and how long a viewer waits for it.

ghost use Rattle.std.specs.Prelude.{◌≡◌, ◌+◌, ◌<◌, ◌≤◌, [], MatchOption, length, pos, slice_index_or, true};
ghost use Rattle.ttx_page.specs.Packets.{packet_of};
ghost use Rattle.ttx_page.specs.Pages.{selected_mag};
ghost use Rattle.ttx_page.specs.declared.selection.Selection.TheVariants.{AnySub};
ghost use Rattle.ttx_page.specs.Streams.{heads_matched, repeated};
ghost use Rattle.ttx_cycle.specs.Cycles.{slots_of};
ghost use Rattle.ttx_late.specs.LateReceivers.{selected_number};
ghost use Rattle.ttx_subpages.specs.Stays.{HasNone, IsStayAfter, StayBelow, lesser_of, IsLeastStay, IntervalBelow, IsGreatestInterval};

use crate::sought::{Sought, distance, heads_matched};
use ttx_cycle::Cycle;
use ttx_page::Selection;

// The magazine that the selection listens to.
fn magazine_of(selection: &Selection) -> u8
    ensures { result ≡ selected_mag selection.now }
{
    match selection {
        Selection::Exact(page) => page.mag(),
        Selection::AnySub(mag, _) => *mag,
    }
}

// Any subpage of the number that the selection listens to.
fn number_of(selection: &Selection) -> Selection
    ensures { result ≡ AnySub (selected_mag selection.now) (selected_number selection.now) }
{
    match selection {
        Selection::Exact(page) => Selection::AnySub(page.mag(), page.page()),
        Selection::AnySub(mag, number) => Selection::AnySub(*mag, *number),
    }
}

// From where the block under the header in slot `at` ends to where the next block of the number may end, in slots.
fn stay_after(slots: &[[u8; 42]], at: usize, selection: &Selection) -> usize
    requires at { at < length slots.now }
    requires most { length slots.now ≤ 65536 }
    requires here { heads_matched selection.now (packet_of (slice_index_or slots.now at [])) ≡ true }
    ensures { IsStayAfter (repeated slots.now) selection.now (pos at) result }
{
    let mag = magazine_of(selection);
    let end = distance(slots, at, &Sought::Magazine(mag));
    let next = distance(slots, at, &Sought::Matched(number_of(selection)));
    let next_end = distance(slots, at + next, &Sought::Ending(mag));
    next + next_end - end
}

// The lesser of two numbers, of which one may be missing.
fn lesser(least: Option<usize>, stay: usize) -> usize
    ensures { result ≡ lesser_of least stay }
{
    match least {
        Some(before) => { if before < stay { before } else { stay } }
        None => stay,
    }
}

// The lesser of `least` and the stay after the header in slot `at`, if the selection matches it.
fn shortened(
    slots: &[[u8; 42]],
    at: usize,
    selection: &Selection,
    least: Option<usize>,
) -> Option<usize>
    requires at { at < length slots.now }
    requires most { length slots.now ≤ 65536 }
    ensures { StayBelow (repeated slots.now) selection.now at least → StayBelow (repeated slots.now) selection.now (at + 1) result }
{
    if !heads_matched(selection, &slots[at]) {
        return least;
    }
    Some(lesser(least, stay_after(slots, at, selection)))
}

/// The least slots for which a receiver that shows a page where it ends, set to the number, shows a subpage that the selection matches:
/// from the end of its block, at the next header of the magazine, to where the next block of the number may end, at the next header of
/// the magazine or, in serial transmission, of any. `None` if the cycle has no header that the selection matches.
pub fn least_stay(cycle: &Cycle, selection: Selection) -> Option<usize>
    ensures { MatchOption result (HasNone (repeated (slots_of cycle.now)) selection) (IsLeastStay (repeated (slots_of cycle.now)) selection) }
{
    ttx_page::laws::each_slot_turns();
    ttx_page::laws::streams_move();
    let slots = cycle.slots();
    let mut least = None;
    for at in 0..slots.len() {
        least = shortened(slots, at, &selection, least);
    }
    least
}

// The greater of `most` and the distance from the header in slot `at` to the next that the selection matches, if it matches this one.
fn lengthened(slots: &[[u8; 42]], at: usize, selection: &Selection, most: usize) -> usize
    requires at { at < length slots.now }
    requires most { length slots.now ≤ 65536 }
    ensures { IntervalBelow (repeated slots.now) selection.now at most → IntervalBelow (repeated slots.now) selection.now (at + 1) result }
{
    if !heads_matched(selection, &slots[at]) {
        return most;
    }
    let interval = distance(slots, at, &Sought::Matched(*selection));
    if interval < most {
        return most;
    }
    interval
}

/// The most slots from a header that the selection matches to the next one; 0 if the cycle has none. In that many slots and those of a
/// block, a receiver that shows a page where it ends, set to the number, shows the subpage once.
pub fn greatest_interval(cycle: &Cycle, selection: Selection) -> usize
    ensures { IsGreatestInterval (repeated (slots_of cycle.now)) selection result }
{
    ttx_page::laws::each_slot_turns();
    let slots = cycle.slots();
    let mut most = 0;
    for at in 0..slots.len() {
        most = lengthened(slots, at, &selection, most);
    }
    most
}
