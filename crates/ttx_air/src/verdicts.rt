//! Judges editions for the receivers that have to be served.

ghost use Rattle.std.specs.Prelude.{◌≡◌, IfOk, MatchOption};
ghost use Rattle.ttx_late.specs.Followed.{AreFollowedWithin};
ghost use Rattle.ttx_playout.specs.Takeovers.{current_of, edition_of};
ghost use Rattle.ttx_air.specs.Judgements.{is_yes, IsJudgement, IsUnserved};
ghost use Rattle.ttx_air.specs.declared.airtime.Receivers.TheVariants.{Late};

use crate::airtime::Receivers;
use crate::faults::AirFault;
use std::alloc::Global;
use ttx_late::{first_unshown, greatest_gap};
use ttx_playout::{Edition, LateChange, OnAir};
use ttx_proof::SpliceVerdict;
use ttx_witness::NoMemory;

// Whether the next edition takes over.
pub(crate) fn is_yes(verdict: &LateChange) -> bool
    ensures { result ≡ is_yes verdict.now }
{
    matches!(verdict, LateChange::Yes)
}

// The verdict on a change to the next edition.
pub(crate) fn judged(
    alloc: Global,
    on_air: &OnAir,
    next: &Edition,
    receivers: Receivers,
) -> Result<LateChange, NoMemory>
    ensures { IfOk result (IsJudgement receivers (current_of on_air.now) (edition_of next.now)) }
{
    match receivers {
        Receivers::AtOnce => match on_air.judge(alloc, next)? {
            SpliceVerdict::Yes => Ok(LateChange::Yes),
            SpliceVerdict::No(reason) => Ok(LateChange::No(reason)),
        },
        Receivers::Late { gap } => on_air.judge_late(alloc, next, gap),
    }
}

// The first reason why receivers that show a page late are not served by an edition.
pub(crate) fn unserved(edition: &Edition, gap: usize) -> Option<AirFault>
    ensures { MatchOption result (AreFollowedWithin (edition_of edition.now).cycle (edition_of edition.now).pages gap)
        (IsUnserved (Late gap) (edition_of edition.now)) }
{
    let pages = edition.service.pages();
    if let Some(unshown) = first_unshown(&edition.cycle, pages) {
        let page = pages[unshown.page].id();
        let slot = unshown.slot;
        return Some(AirFault::NeverShown { page, slot });
    }
    let greatest = greatest_gap(&edition.cycle, pages);
    if greatest > gap {
        return Some(AirFault::TooFar { gap: greatest });
    }
    None
}
