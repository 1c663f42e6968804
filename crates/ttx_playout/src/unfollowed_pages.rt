//! Decides whether pages are followed by other page numbers, in an edition and across a change.

ghost use Rattle.std.specs.Prelude.{◌↔◌, ◌<◌, IsTrue, MatchOption, map};
ghost use Rattle.ttx_page.specs.Streams.{joined};
ghost use Rattle.ttx_page.specs.Views.{page_of};
ghost use Rattle.ttx_cycle.specs.Cycles.{slots_of};
ghost use Rattle.ttx_late.specs.Followed.{AreFollowedWithin};
ghost use Rattle.ttx_playout.specs.LateSchedules.{IsFollowedAcross, AllAreFollowedAcross};
ghost use Rattle.ttx_playout.specs.LateChanges.{TellsFirstHeader, EndsInTime, IsFirstUnfollowed, IsUnshown, IsFollowedChange};
ghost use Rattle.ttx_playout.specs.Takeovers.{edition_of};

use crate::edition::Edition;
use crate::late_change::LateChange;
use ttx_cycle::Cycle;
use ttx_header::PageId;
use ttx_late::{first_unshown, greatest_gap, heads, heads_another};
use ttx_page::Page;
use ttx_proof::latest_header;
use ttx_witness::heads_page;

// The first header of the magazine in the cycle.
fn first_header(new: &Cycle, mag: u8) -> Option<usize>
    ensures { TellsFirstHeader (slots_of new.now) mag result }
{
    let slots = new.slots();
    for at in 0..slots.len() {
        if heads(mag, &slots[at]) {
            return Some(at);
        }
    }
    None
}

// Whether the first header of the page's magazine in the new cycle has another page number and comes at most `gap` slots after the page's last
// header, which is `back` slots before the end of the old cycle.
fn ends_in_time(new: &Cycle, page: PageId, back: usize, gap: usize) -> bool
    requires { back < 65536 }
    ensures { IsTrue result ↔ EndsInTime (slots_of new.now) page back gap }
{
    match first_header(new, page.mag()) {
        Some(at) => {
            if !heads_another(page, &new.slots()[at]) {
                return false;
            }
            at + back < gap
        }
        None => false,
    }
}

/// Whether the page is followed across the change from one cycle to another: if the last header of its magazine before the change is one of
/// the page, the next one has another page number and comes at most `gap` slots later.
pub fn is_followed_across(old: &Cycle, new: &Cycle, page: PageId, gap: usize) -> bool
    ensures { IsTrue result ↔ IsFollowedAcross (joined (slots_of old.now) (slots_of new.now)) page gap }
{
    ttx_page::laws::each_slot_turns();
    let slots = old.slots();
    match latest_header(old, page.mag()) {
        Some(back) => {
            if !heads_page(page, &slots[slots.len() - 1 - back]) {
                return true;
            }
            ends_in_time(new, page, back, gap)
        }
        None => true,
    }
}

/// The first page of the old list that is not followed across the change, as `is_followed_across` says.
pub fn first_unfollowed(old: &Cycle, new: &Cycle, pages: &[Page], gap: usize) -> Option<PageId>
    ensures { MatchOption result (AllAreFollowedAcross (slots_of old.now) (slots_of new.now) (map page_of pages.now) gap)
        (IsFirstUnfollowed (slots_of old.now) (slots_of new.now) (map page_of pages.now) gap) }
{
    for index in 0..pages.len() {
        let page = pages[index].id();
        if !is_followed_across(old, new, page, gap) {
            return Some(page);
        }
    }
    None
}

// The first reason why a page of the cycle is not followed in time within it.
fn unshown_in(cycle: &Cycle, pages: &[Page], gap: usize) -> Option<LateChange>
    ensures { MatchOption result (AreFollowedWithin (slots_of cycle.now) (map page_of pages.now) gap)
        (IsUnshown (slots_of cycle.now) (map page_of pages.now) gap) }
{
    if let Some(unshown) = first_unshown(cycle, pages) {
        let page = pages[unshown.page].id();
        let slot = unshown.slot;
        return Some(LateChange::NeverShown { page, slot });
    }
    let greatest = greatest_gap(cycle, pages);
    if greatest > gap {
        return Some(LateChange::TooFar { gap: greatest });
    }
    None
}

/// Whether a next edition, and the change to it, serve receivers that show pages late, and if not, the first reason.
pub fn followed_change(old: &Edition, new: &Edition, gap: usize) -> LateChange
    ensures { IsFollowedChange (edition_of old.now) (edition_of new.now) gap result }
{
    if let Some(unshown) = unshown_in(&new.cycle, new.service.pages(), gap) {
        return unshown;
    }
    match first_unfollowed(&old.cycle, &new.cycle, old.service.pages(), gap) {
        Some(page) => LateChange::Unfollowed { page },
        None => LateChange::Yes,
    }
}
