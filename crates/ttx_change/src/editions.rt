//! What a change from one cycle to the next leaves open.

ghost use Rattle.std.specs.Prelude.{map};
ghost use Rattle.ttx_cycle.specs.Cycles.{slots_of};
ghost use Rattle.ttx_page.specs.Views.{page_of};
ghost use Rattle.ttx_playout.specs.Schedules.{change};
ghost use Rattle.ttx_playout.specs.Takeovers.{edition_of};
ghost use Rattle.ttx_proof.specs.Splices.{Splice};
ghost use Rattle.ttx_change.specs.LateSplices.{TellsOpen};

use crate::verdict::LateSplice;
use ttx_cycle::Cycle;
use ttx_page::Page;
use ttx_playout::{Edition, first_unfollowed};
use ttx_proof::{first_amid, first_stored};

// What the old cycle, which carries these pages, leaves open at the change; Yes if nothing.
pub(crate) fn open_at(old: &Cycle, new: &Cycle, pages: &[Page]) -> LateSplice
    ensures { (c : Splice) → TellsOpen (record c { old = slots_of old.now; new = slots_of new.now; old_pages = map page_of pages.now }) result }
{
    if let Some(amid) = first_amid(old, pages) {
        return LateSplice::Amid {
            page: amid.page,
            slot: amid.slot,
        };
    }
    if let Some(stored) = first_stored(old, new, pages) {
        return LateSplice::Stored {
            page: stored.page,
            slot: stored.slot,
        };
    }
    let most = old.slots().len() + new.slots().len();
    match first_unfollowed(old, new, pages, most) {
        Some(page) => LateSplice::Unfollowed { page },
        None => LateSplice::Yes,
    }
}

/// What an edition leaves open if the next one takes over at the end of a period, for receivers that show a page only where it ends; Yes if
/// nothing. It is what the law `schedules_are_whole` asks of each change, apart from the verdict on it.
pub fn open_between(current: &Edition, next: &Edition) -> LateSplice
    ensures { TellsOpen (change (edition_of current.now) (edition_of next.now)) result }
{
    open_at(&current.cycle, &next.cycle, current.service.pages())
}
