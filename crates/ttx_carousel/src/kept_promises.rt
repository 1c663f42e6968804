//! Whether a cycle keeps what is promised of a service.

ghost use Rattle.std.specs.Prelude.{◌≡◌, ◌≤◌, MatchOption, OnOk, IfOk, map, []};
ghost use Rattle.std.specs.List.{list_any};
ghost use Rattle.ttx_cycle.specs.Cycles.{slots_of};
ghost use Rattle.ttx_page.specs.Streams.{repeated};
ghost use Rattle.ttx_page.specs.Views.{page_of};
ghost use Rattle.ttx_page.specs.declared.selection.Selection.TheVariants.{AnySub};
ghost use Rattle.ttx_source.specs.PromiseViews.{promise_view};
ghost use Rattle.ttx_subpages.specs.NumberReports.{IsStayOrNone};
ghost use Rattle.ttx_carousel.specs.Carousels.{IsStayKeptFor, AreStaysKept};
ghost use Rattle.ttx_carousel.specs.Judging.{IsShort, is_same_number, told_with, AreShort, IsShownOrMissed, IsShownLate, IsJudged};
ghost use Rattle.ttx_carousel.specs.Waiting.{told_of, AllHaveFields, IsFirstWithout, IsInTime, IsLateIn, AreInTime, IsFirstLateIn};

use crate::faults::{Missed, ShortStay};
use std::alloc::{AllocError, Global};
use ttx_cycle::Cycle;
use ttx_header::PageId;
use ttx_late::first_unshown;
use ttx_page::{Page, Selection};
use ttx_promise::{LatePage, PromisedWait, Viewers, promised_waits};
use ttx_source::{Promise, Service};
use ttx_subpages::least_stay;
use ttx_witness::{NoMemory, Wait};

// How many slots each page of this page's number stays; 0 if none is sent.
fn stay_slots(cycle: &Cycle, page: PageId) -> usize
    ensures { IsStayOrNone (repeated (slots_of cycle.now)) (AnySub page.mag page.page) result }
{
    match least_stay(cycle, Selection::AnySub(page.mag(), page.page())) {
        Some(slots) => slots,
        None => 0,
    }
}

// Whether two pages have one number.
fn is_same_number(one: &ShortStay, other: &ShortStay) -> bool
    ensures { result ≡ is_same_number one.now other.now }
{
    one.number.mag() == other.number.mag() && one.number.page() == other.number.page()
}

// The number of a promised page, if it stays too short.
fn short_of(cycle: &Cycle, service: &Service, stay: Promise) -> Option<ShortStay>
    ensures { MatchOption result (IsStayKeptFor (slots_of cycle.now) service.now (promise_view stay))
        (IsShort (slots_of cycle.now) service.now (promise_view stay)) }
{
    let pages = service.pages();
    let index = stay.page;
    if index >= pages.len() {
        return None;
    }
    let number = pages[index].id();
    let slots = stay_slots(cycle, number);
    let lines = usize::from(service.lines());
    if slots < stay.fields as usize * lines {
        Some(ShortStay {
            number,
            fields: slots / lines,
            promise: stay.fields,
        })
    } else {
        None
    }
}

// Whether a number is reported already.
fn is_told(told: &[ShortStay], short: &ShortStay) -> bool
    ensures { result ≡ list_any (is_same_number short.now) told.now }
{
    told.iter().any(|other| is_same_number(short, other))
}

// Adds a number, unless it is reported already.
fn tell(told: &mut Vec<ShortStay>, short: ShortStay) -> Result<(), AllocError>
    ensures { OnOk result (told.new.items ≡ told_with told.old.items short) }
{
    if is_told(told, &short) {
        return Ok(());
    }
    told.push(short)?;
    Ok(())
}

/// The numbers that stay too short, in the order of the promises, each once: by its first promise that is not kept. `fields` of a promise
/// are the fields for which each page of the page's number is to stay, for receivers that show a page where it ends.
pub fn short_stays(
    alloc: Global,
    cycle: &Cycle,
    service: &Service,
    stays: &[Promise],
) -> Result<Vec<ShortStay>, AllocError>
    ensures are { IfOk result (λ numbers. AreShort (map promise_view stays.now) service.now (slots_of cycle.now) numbers.items) }
    ensures none { IfOk result (λ numbers. numbers.items ≡ [] → AreStaysKept (map promise_view stays.now) service.now (slots_of cycle.now)) }
{
    let mut told = Vec::new(alloc);
    for stay in stays {
        if let Some(short) = short_of(cycle, service, *stay) {
            tell(&mut told, short)?;
        }
    }
    Ok(told)
}

// The first page for which there is no deadline.
fn first_unseen(all: &[PromisedWait]) -> Option<PageId>
    ensures { MatchOption result (AllHaveFields (map told_of all.now)) (IsFirstWithout (map told_of all.now)) }
{
    for one in all {
        match one.told.wait {
            Wait::Fields { fields: _, item: _ } => {}
            Wait::Faulty { reason: _ } => return Some(one.told.page),
            Wait::Unsure { item: _, losses: _ } => return Some(one.told.page),
        }
    }
    None
}

// The page of a promise, if it comes too late.
fn late_of(all: &[PromisedWait], promise: Promise) -> Option<LatePage>
    ensures { MatchOption result (IsInTime (map told_of all.now) (promise_view promise)) (IsLateIn (map told_of all.now) (promise_view promise)) }
{
    let one = all.get(promise.page)?;
    match one.told.wait {
        Wait::Fields { fields, item: _ } if fields > promise.fields => Some(LatePage {
            page: one.told.page,
            fields,
            promise: promise.fields,
        }),
        _ => None,
    }
}

// The page of the first promise that comes too late.
fn first_late(all: &[PromisedWait], promises: &[Promise]) -> Option<LatePage>
    ensures { MatchOption result (AreInTime (map told_of all.now) (map promise_view promises.now))
        (IsFirstLateIn (map told_of all.now) (map promise_view promises.now)) }
{
    for promise in promises {
        if let Some(late) = late_of(all, *promise) {
            return Some(late);
        }
    }
    None
}

// The first page that receivers that show pages late never show.
fn unshown(cycle: &Cycle, pages: &[Page]) -> Option<Missed>
    ensures { IsShownOrMissed (slots_of cycle.now) (map page_of pages.now) result }
{
    match first_unshown(cycle, pages) {
        Some(unshown) => Some(Missed::NeverShown {
            page: pages[unshown.page].id(),
            slot: unshown.slot,
        }),
        None => None,
    }
}

// The same if there are to be such receivers.
fn never_shown(cycle: &Cycle, pages: &[Page], late: bool) -> Option<Missed>
    ensures { IsShownLate late (slots_of cycle.now) (map page_of pages.now) result }
{
    if late { unshown(cycle, pages) } else { None }
}

/// What a cycle does not keep of what is promised of a service, apart from its stays; `None` if it keeps all of it: each page alone is accepted
/// with some certificate, each promised page with a deadline of at most its promise, and for receivers that show a page late each page is
/// followed by another page number.
pub fn judge(
    alloc: Global,
    cycle: &Cycle,
    service: &Service,
    viewers: Viewers,
    promises: &[Promise],
) -> Result<Option<Missed>, NoMemory>
    requires some_repeats { 1 ≤ viewers.repeat }
    requires few_repeats { viewers.repeat ≤ 8 }
    ensures { IfOk result (IsJudged viewers (map promise_view promises.now) service.now (slots_of cycle.now)) }
{
    let class = viewers.receivers.class;
    let all = promised_waits(alloc, cycle, service, class, viewers.repeat, promises)?;
    if let Some(page) = first_unseen(&all) {
        return Ok(Some(Missed::Unseen { page }));
    }
    if let Some(late) = first_late(&all, promises) {
        return Ok(Some(Missed::Late { late }));
    }
    Ok(never_shown(cycle, service.pages(), viewers.receivers.late))
}
