//! Judges a change to a next edition, as the air does.

ghost use Rattle.std.specs.Prelude.{◌↔◌, IsTrue, IfOk, map};
ghost use Rattle.ttx_cycle.specs.Cycles.{slots_of};
ghost use Rattle.ttx_page.specs.Views.{page_of};
ghost use Rattle.ttx_late.specs.Followed.{AreFollowedWithin};
ghost use Rattle.ttx_air.specs.Judgements.{IsJudgement};
ghost use Rattle.ttx_playout.specs.LateChanges.{IsFollowedChange};
ghost use Rattle.ttx_playout.specs.Takeovers.{edition_of, IsChangeVerdict};
ghost use Rattle.ttx_playout.specs.declared.late_change.LateChange.TheVariants.{Yes};
ghost use Rattle.ttx_proof.specs.declared.verdict.SpliceVerdict.TheVariants as splice;
ghost use Rattle.ttx_press.specs.Successors.{Leaves, MayFollow, EndsBetweenPages};

use std::alloc::Global;
use ttx_air::Receivers;
use ttx_change::{LateSplice, open_between};
use ttx_cycle::Cycle;
use ttx_late::{first_unshown, greatest_gap};
use ttx_page::Page;
use ttx_playout::{Edition, first_unfollowed};
use ttx_proof::{SpliceVerdict, first_amid, splice};
use ttx_witness::NoMemory;

/// What the edition on the air leaves open at a change, for the receivers that have to be served; Yes if nothing.
pub(crate) fn left_open(receivers: Receivers, on_air: &Edition, next: &Edition) -> LateSplice
    ensures { Leaves receivers (edition_of on_air.now) (edition_of next.now) result }
{
    match receivers {
        Receivers::AtOnce => LateSplice::Yes,
        Receivers::Late { gap: _ } => open_between(on_air, next),
    }
}

/// The splice's verdict on a change. `Err` if memory runs out.
pub(crate) fn spliced(
    alloc: Global,
    on_air: &Edition,
    next: &Edition,
) -> Result<SpliceVerdict, NoMemory>
    ensures { IfOk result (IsChangeVerdict (edition_of on_air.now) (edition_of next.now)) }
{
    splice(
        alloc,
        &on_air.cycle,
        &next.cycle,
        on_air.service.pages(),
        next.service.pages(),
        &on_air.certificate,
        &next.certificate,
    )
}

// Whether the splice accepts the change.
fn is_accepted(alloc: Global, on_air: &Edition, next: &Edition) -> Result<bool, NoMemory>
    ensures { IfOk result (λ yes. IsTrue yes ↔ IsChangeVerdict (edition_of on_air.now) (edition_of next.now) splice.Yes) }
{
    match spliced(alloc, on_air, next) {
        Ok(SpliceVerdict::Yes) => Ok(true),
        Ok(SpliceVerdict::No(_)) => Ok(false),
        Err(fault) => Err(fault),
    }
}

// Whether each page is followed by another page number, at most so many slots later.
fn are_followed(cycle: &Cycle, pages: &[Page], gap: usize) -> bool
    ensures { IsTrue result ↔ AreFollowedWithin (slots_of cycle.now) (map page_of pages.now) gap }
{
    match first_unshown(cycle, pages) {
        Some(_) => false,
        None => greatest_gap(cycle, pages) <= gap,
    }
}

// Whether this holds in the next edition, and the pages of the edition on the air are followed across the change.
fn is_followed(on_air: &Edition, next: &Edition, gap: usize) -> bool
    ensures { IsTrue result ↔ IsFollowedChange (edition_of on_air.now) (edition_of next.now) gap Yes }
{
    if !are_followed(&next.cycle, next.service.pages(), gap) {
        return false;
    }
    match first_unfollowed(&on_air.cycle, &next.cycle, on_air.service.pages(), gap) {
        Some(_) => false,
        None => true,
    }
}

// Whether the change is accepted for the receivers that have to be served.
fn is_judged_yes(
    alloc: Global,
    receivers: Receivers,
    on_air: &Edition,
    next: &Edition,
) -> Result<bool, NoMemory>
    ensures { IfOk result (λ yes. IsTrue yes ↔ IsJudgement receivers (edition_of on_air.now) (edition_of next.now) Yes) }
{
    if let Receivers::Late { gap } = receivers {
        if !is_followed(on_air, next, gap) {
            return Ok(false);
        }
    }
    is_accepted(alloc, on_air, next)
}

/// Whether the cycle ends between two pages, for late receivers: then another edition can follow this one.
pub(crate) fn ends_between_pages(receivers: Receivers, edition: &Edition) -> bool
    ensures { IsTrue result ↔ EndsBetweenPages receivers (edition_of edition.now) }
{
    match receivers {
        Receivers::AtOnce => true,
        Receivers::Late { gap: _ } => {
            match first_amid(&edition.cycle, edition.service.pages()) {
                Some(_) => false,
                None => true,
            }
        }
    }
}

/// Whether an edition may follow the one on the air: the change is accepted for the receivers that have to be served, and leaves nothing
/// open. `Err` if memory runs out.
pub(crate) fn may_follow(
    alloc: Global,
    receivers: Receivers,
    on_air: &Edition,
    next: &Edition,
) -> Result<bool, NoMemory>
    ensures { IfOk result (λ may. IsTrue may ↔ MayFollow receivers (edition_of on_air.now) (edition_of next.now)) }
{
    match left_open(receivers, on_air, next) {
        LateSplice::Yes => is_judged_yes(alloc, receivers, on_air, next),
        _ => Ok(false),
    }
}
