//! The longest wait for each item of each page of a list.

ghost use Rattle.std.specs.Prelude.{◌≡◌, ◌≢◌, ◌≤◌, IfOk, map, true};
ghost use Rattle.std.specs.List.{AllPairs};
ghost use Rattle.ttx_page.specs.Pages as definitions;
ghost use Rattle.ttx_page.specs.Views.{page_of, ids_of};
ghost use Rattle.ttx_cycle.specs.Cycles.{slots_of};
ghost use Rattle.ttx_witness.specs.search.Surveys.{surveyed_page};
ghost use Rattle.ttx_witness.specs.wait_times.ItemWaits.{AreItemWaits};
ghost use Rattle.ttx_witness.specs.wait_times.SurveyedWaits.{IsItemWaitIn, AreItemsToldIn, AreItemWaitsIn};

use crate::runs::ring::{Ring, empty_ring};
use crate::search::start_names::limit_seen;
use crate::search::survey::{Survey, SurveyedPage, surveyed_at};
use crate::sent::collection::collect;
use crate::sent::page_items::item_of;
use crate::wait_times::page_waits::{fields_for, losses_of};
use crate::wait_times::wait::{ItemWait, OwnWait};
use std::alloc::Global;
use ttx_certificate::NoMemory;
use ttx_cycle::Cycle;
use ttx_page::{Class, Item, Page, needed};

// How long a viewer waits for the item of the page.
fn item_wait(
    alloc: Global,
    ring: &mut Ring,
    surveyed: &SurveyedPage,
    item: &Item,
) -> Result<OwnWait, NoMemory>
    requires seen { definitions.needed (surveyed_page surveyed.now) item.now ≡ true }
    ensures { IfOk result (λ wait. IsItemWaitIn surveyed.now item.now wait) }
{
    ttx_page::laws::pages_keep_their_rules();
    ttx_page::laws::pages_have_six_links();
    ttx_page::laws::blank_is_tested();
    ttx_page::laws::each_slot_turns();
    crate::laws::cycle_laws::sure_starts_are_found();
    crate::laws::cycle_laws::least_limit_is_found();
    let survey = surveyed.survey;
    match limit_seen(alloc, ring, surveyed, item)? {
        Some(slots) => Ok(OwnWait::Least {
            fields: fields_for(slots, survey.lines),
        }),
        None => Ok(OwnWait::Never {
            losses: losses_of(survey.collected.sent(surveyed.index, *item), survey.lines),
        }),
    }
}

// How long a viewer waits for each item of the page, in the order of the items.
fn items_told(alloc: Global, surveyed: &SurveyedPage) -> Result<Vec<ItemWait>, NoMemory>
    ensures { IfOk result (λ told. AreItemsToldIn surveyed.now 26 told.items) }
{
    let mut ring = empty_ring(alloc, usize::from(surveyed.survey.repeat))?;
    let mut told = Vec::new(alloc);
    for number in 0..26u8 {
        let item = item_of(number);
        if needed(surveyed.page, item) {
            let wait = item_wait(alloc, &mut ring, surveyed, &item)?;
            if told.push(ItemWait { item, wait }).is_err() {
                return Err(NoMemory);
            }
        }
    }
    Ok(told)
}

// How long a viewer waits for each item of each page of the survey.
fn item_waits_in(alloc: Global, survey: &Survey) -> Result<Vec<Vec<ItemWait>>, NoMemory>
    ensures { IfOk result (λ all. AreItemWaitsIn survey.now (map (λ told. told.items) all.items)) }
{
    let mut all = Vec::new(alloc);
    for index in 0..survey.pages.len() {
        let told = items_told(alloc, &surveyed_at(&*survey, index))?;
        if all.push(told).is_err() {
            return Err(NoMemory);
        }
    }
    Ok(all)
}

/// How long a viewer waits for each item of each page, page by page and item by item: the least deadline in fields with which some
/// certificate covers the item, or what happens to its transmissions if there is none. `repeat` is 1 to 8, `lines` (slots in a
/// field) 1 to 32. `Err` if memory runs out.
pub fn item_waits(
    alloc: Global,
    cycle: &Cycle,
    pages: &[Page],
    class: Class,
    repeat: u8,
    lines: u8,
) -> Result<Vec<Vec<ItemWait>>, NoMemory>
    requires some_repeats { 1 ≤ repeat }
    requires few_repeats { repeat ≤ 8 }
    requires some_lines { 1 ≤ lines }
    requires few_lines { lines ≤ 32 }
    requires distinct { AllPairs (λ a b. a ≢ b) (ids_of pages.now) }
    ensures { IfOk result (λ all. AreItemWaits (slots_of cycle.now) (map page_of pages.now) class repeat lines (map (λ told. told.items) all.items)) }
{
    let collected = collect(alloc, cycle, pages, lines)?;
    let survey = Survey {
        cycle,
        pages,
        class,
        repeat,
        lines,
        collected,
    };
    item_waits_in(alloc, &survey)
}
