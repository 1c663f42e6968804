//! Decides whether the pages of a cycle are followed by other page numbers, and how soon.

ghost use Rattle.std.specs.Prelude.{◌≡◌, ◌↔◌, ◌<◌, ◌≤◌, ℕ, pos, IsTrue, MatchOption, Some, length, map, slice_get, slice_index_or, [], true};
ghost use Rattle.ttx_page.specs.Packets.{packet_of};
ghost use Rattle.ttx_page.specs.Streams.{repeated, heads, heads_page};
ghost use Rattle.ttx_page.specs.Views.{page_of};
ghost use Rattle.ttx_page.specs.Pages as definitions;
ghost use Rattle.ttx_cycle.specs.Cycles.{slots_of};
ghost use Rattle.ttx_page.specs.Followers.{heads_another, IsFollowed, IsFollowedByAnother};
ghost use Rattle.ttx_late.specs.Followed.{id_in, HeadsAt, AllAreFollowed, IsFollowedIn, IsGap, IsGreatestGap, TellsUnfollowed};
ghost use Rattle.ttx_late.specs.Followed.{IsFirstUnshown, IsListed, IsUnfollowedAt, IsWidened};

use crate::Unshown;
use ttx_cycle::Cycle;
use ttx_header::{PageId, read_header};
use ttx_page::Page;

// The id in a page header; `None` for other packets.
fn id_in(slot: &[u8; 42]) -> Option<PageId>
    ensures { result ≡ id_in (packet_of slot.now) }
{
    ttx_cycle::arrays::is_slot(slot);
    ttx_header::laws::headers_have_fields();
    ttx_header::laws::headers_are_headers();
    match read_header(slot) {
        Some(header) => Some(header.id()),
        None => None,
    }
}

/// Whether the slot is a header of the magazine.
pub fn heads(mag: u8, slot: &[u8; 42]) -> bool
    ensures { result ≡ heads mag (packet_of slot.now) }
{
    match id_in(slot) {
        Some(id) => id.mag() == mag,
        None => false,
    }
}

/// Whether the slot is a header of the page's magazine with another page number.
pub fn heads_another(page: PageId, slot: &[u8; 42]) -> bool
    ensures { result ≡ heads_another page (packet_of slot.now) }
{
    match id_in(slot) {
        Some(id) => id.mag() == page.mag() && id.page() != page.page(),
        None => false,
    }
}

// The slot at this place of the stream that repeats the slots.
fn slot_at(slots: &[[u8; 42]], at: usize) -> &[u8; 42]
    requires some { 0 < length slots.now }
    ensures { result.now ≡ repeated slots.now (pos at) }
{
    &slots[at % slots.len()]
}

// The number of slots from the page's header at slot `at` to the next header of its magazine, if that has another page number. The
// slots read for one header of a magazine are not read again for the next.
fn follower(slots: &[[u8; 42]], at: usize, page: PageId) -> Option<usize>
    requires at { at < length slots.now }
    requires most { length slots.now ≤ 65536 }
    requires here { HeadsAt (repeated slots.now) page at }
    ensures { MatchOption result (IsFollowed (repeated slots.now) page (pos at) → ⊥)
        (λ distance. IsFollowedIn (repeated slots.now) page at distance) }
{
    ttx_page::laws::cycles_repeat();
    for distance in 1..slots.len() + 1 {
        let slot = slot_at(slots, at + distance);
        if heads(page.mag(), slot) {
            if heads_another(page, slot) {
                return Some(distance);
            }
            return None;
        }
    }
    None
}

// The page whose header is in slot `at`, if it is not followed by another page number.
fn unfollowed_at(slots: &[[u8; 42]], at: usize) -> Option<PageId>
    requires at { at < length slots.now }
    requires most { length slots.now ≤ 65536 }
    ensures { TellsUnfollowed (repeated slots.now) at result }
{
    match id_in(slot_at(slots, at)) {
        Some(page) => match follower(slots, at, page) {
            Some(_) => None,
            None => Some(page),
        },
        None => None,
    }
}

// Whether the slot is a header of the page.
fn heads_page(page: PageId, slot: &[u8; 42]) -> bool
    ensures { result ≡ heads_page page (packet_of slot.now) }
{
    match id_in(slot) {
        Some(id) => page == id,
        None => false,
    }
}

// The larger of `gap` and the slots from the page's header in slot `at`, if it is one, to the next header of its magazine; `None` if
// that has the page's own number.
fn widened_for(slots: &[[u8; 42]], page: PageId, at: usize, gap: usize) -> Option<usize>
    requires at { at < length slots.now }
    requires most { length slots.now ≤ 65536 }
    ensures { MatchOption result (IsUnfollowedAt (repeated slots.now) page at) (IsWidened (repeated slots.now) (λ id. id ≡ page) at gap) }
{
    if !heads_page(page, slot_at(slots, at)) {
        return Some(gap);
    }
    match follower(slots, at, page) {
        Some(distance) => {
            if distance <= gap {
                return Some(gap);
            }
            Some(distance)
        }
        None => None,
    }
}

/// The most slots from a header of the page to the next header of its magazine; `None` if one of these has the page's own number.
/// Receivers that show a page late show it at most this many slots after the deadline.
pub fn gap_after(cycle: &Cycle, page: PageId) -> Option<usize>
    ensures { MatchOption result (IsFollowedByAnother (repeated (slots_of cycle.now)) page → ⊥) (IsGap (repeated (slots_of cycle.now)) page) }
{
    ttx_page::laws::each_slot_turns();
    ttx_page::laws::streams_move();
    let slots = cycle.slots();
    let mut gap = 0;
    for at in 0..slots.len() {
        match widened_for(slots, page, at, gap) {
            Some(more) => gap = more,
            None => return None,
        }
    }
    Some(gap)
}

/// The index of a page with this id; `None` if there is none.
pub fn place_of(pages: &[Page], id: PageId) -> Option<usize>
    ensures { MatchOption result ((n : ℕ) (p : definitions.Page) → slice_get (map page_of pages.now) n ≡ Some p → p.id ≡ id → ⊥)
        (λ n. (p : definitions.Page) × (slice_get (map page_of pages.now) n ≡ Some p) × (p.id ≡ id)) }
{
    for index in 0..pages.len() {
        if pages[index].id() == id {
            return Some(index);
        }
    }
    None
}

/// The first slot with a header of one of the pages that is not followed by another page number; `None` if every header is followed.
/// Reads each slot at most ten times, and looks a page up only for a header that is not followed.
pub fn first_unshown(cycle: &Cycle, pages: &[Page]) -> Option<Unshown>
    ensures { MatchOption result (AllAreFollowed (slots_of cycle.now) (map page_of pages.now))
        (IsFirstUnshown (slots_of cycle.now) (map page_of pages.now)) }
{
    ttx_page::laws::each_slot_turns();
    ttx_page::laws::streams_move();
    let slots = cycle.slots();
    for at in 0..slots.len() {
        if let Some(id) = unfollowed_at(slots, at) {
            if let Some(page) = place_of(pages, id) {
                return Some(Unshown { page, slot: at });
            }
        }
    }
    None
}

// The larger of `gap` and the slots from the header in slot `at` to the next header of its magazine, if the header is of a listed page.
fn widened(slots: &[[u8; 42]], pages: &[Page], at: usize, gap: usize) -> usize
    requires at { at < length slots.now }
    requires most { length slots.now ≤ 65536 }
    requires followed { AllAreFollowed slots.now (map page_of pages.now) }
    ensures { IsWidened (repeated slots.now) (IsListed (map page_of pages.now)) at gap result }
{
    match id_in(slot_at(slots, at)) {
        Some(id) => match follower(slots, at, id) {
            Some(distance) => {
                if distance <= gap {
                    return gap;
                }
                match place_of(pages, id) {
                    Some(_) => distance,
                    None => gap,
                }
            }
            None => gap,
        },
        None => gap,
    }
}

/// The most slots from a header of one of the pages to the next header of its magazine. Each of these has another page number.
pub fn greatest_gap(cycle: &Cycle, pages: &[Page]) -> usize
    requires { AllAreFollowed (slots_of cycle.now) (map page_of pages.now) }
    ensures { IsGreatestGap (slots_of cycle.now) (map page_of pages.now) result }
{
    ttx_page::laws::each_slot_turns();
    ttx_page::laws::streams_move();
    let slots = cycle.slots();
    let mut gap = 0;
    for at in 0..slots.len() {
        gap = widened(slots, pages, at, gap);
    }
    gap
}
