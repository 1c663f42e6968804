//! The longest wait for each page of a list.

ghost use Rattle.std.specs.Prelude.{◌≡◌, ◌≢◌, ◌≤◌, ◌<◌, ◌*◌, ℕ, IfOk, List, map, length, filter, Some, int_lt, ◌+ℤ◌, pos};
ghost use Rattle.std.specs.List.{AllPairs};
ghost use Rattle.ttx_page.specs.Pages as definitions;
ghost use Rattle.ttx_page.specs.Views.{page_of, ids_of};
ghost use Rattle.ttx_cycle.specs.Cycles.{slots_of};
ghost use Rattle.ttx_witness.specs.sent.ItemTransmissions.{sent_in};
ghost use Rattle.ttx_witness.specs.search.Finding.{IsLeastField};
ghost use Rattle.ttx_witness.specs.search.Surveys.{AreOthersIn};
ghost use Rattle.ttx_witness.specs.wait_times.PageWaits.{is_near, is_cut, AreLosses, AreWaits};
ghost use Rattle.ttx_witness.specs.wait_times.SurveyedWaits.{IsWaitByLimitsIn, IsWaitIn, AreWaitsIn};

use crate::faults::other_subpages::OtherSubpages;
use crate::runs::ring::empty_ring;
use crate::runs::transmissions::Transmission;
use crate::search::start_names::limit_seen;
use crate::search::survey::{Survey, SurveyedPage, surveyed_at};
use crate::sent::collection::collect;
use crate::sent::page_items::item_of;
use crate::wait_times::wait::{Losses, PageWait, Wait};
use std::alloc::Global;
use ttx_certificate::NoMemory;
use ttx_cycle::Cycle;
use ttx_page::{Class, Item, Page, needed};

// Whether the transmission comes more than `lines` slots after its header.
fn is_far(t: Transmission, lines: u8) -> bool
    ensures { result ≡ int_lt (t.owner +ℤ pos lines) t.slot }
{
    i64::from(t.owner) + i64::from(lines) < i64::from(t.slot)
}

// How many transmissions are near their header.
fn near_ones(sent: &[Transmission], lines: u8) -> usize
    ensures { result ≡ length (filter (is_near lines) sent.now) }
{
    let mut count = 0;
    for i in 0..sent.len() {
        if !is_far(sent[i], lines) {
            count += 1;
        }
    }
    count
}

// How many transmissions are not near, and cut off.
fn cut_ones(sent: &[Transmission], lines: u8) -> usize
    ensures { result ≡ length (filter (is_cut lines) sent.now) }
{
    let mut count = 0;
    for i in 0..sent.len() {
        if is_far(sent[i], lines) && !sent[i].sure {
            count += 1;
        }
    }
    count
}

/// What happens to the transmissions of the item.
pub(crate) fn losses_of(sent: &[Transmission], lines: u8) -> Losses
    ensures { (cycle : List (List ℕ)) (p : definitions.Page) (item : Item) → sent.now ≡ sent_in cycle p.id lines item →
        AreLosses cycle p.id lines item result }
{
    Losses {
        sent: sent.len(),
        near: near_ones(sent, lines),
        cut: cut_ones(sent, lines),
    }
}

/// The least number of fields, at least 1, in which `slots` slots are sent.
pub(crate) fn fields_for(slots: u64, lines: u8) -> u32
    requires some { 1 ≤ lines }
    requires small { slots ≤ 655360 }
    ensures { IsLeastField slots lines (Some result) }
{
    slots.div_ceil(u64::from(lines)).max(1) as u32
}

// The first item of the page that needs the most fields; or the first that has no sure run.
fn longest_item(alloc: Global, surveyed: &SurveyedPage) -> Result<Wait, NoMemory>
    ensures { IfOk result (λ wait. IsWaitByLimitsIn surveyed.now wait) }
{
    let survey = surveyed.survey;
    let mut ring = empty_ring(alloc, usize::from(survey.repeat))?;
    let mut fields = 0;
    let mut longest = Item::Links;
    for number in 0..26u8 {
        let item = item_of(number);
        if needed(surveyed.page, item) {
            let Some(slots) = limit_seen(alloc, &mut ring, surveyed, &item)? else {
                let losses = losses_of(survey.collected.sent(surveyed.index, item), survey.lines);
                return Ok(Wait::Unsure { item, losses });
            };
            let own = fields_for(slots, survey.lines);
            if own > fields {
                fields = own;
                longest = item;
            }
        }
    }
    Ok(Wait::Fields {
        fields,
        item: longest,
    })
}

// How long a viewer waits for the page.
fn page_wait(
    alloc: Global,
    surveyed: &SurveyedPage,
    others: &OtherSubpages,
) -> Result<Wait, NoMemory>
    ensures { IfOk result (λ wait. AreOthersIn surveyed.now.survey.now others.now → IsWaitIn surveyed.now wait) }
{
    ttx_page::laws::pages_keep_their_rules();
    ttx_page::laws::pages_have_six_links();
    ttx_page::laws::blank_is_tested();
    ttx_page::laws::each_slot_turns();
    crate::laws::cycle_laws::sure_starts_are_found();
    crate::laws::cycle_laws::least_limit_is_found();
    crate::laws::fault_laws::steady_has_no_fault();
    match surveyed.fault(others) {
        Some(reason) => Ok(Wait::Faulty { reason }),
        None => longest_item(alloc, surveyed),
    }
}

// How long a viewer waits for each page of the survey.
fn waits_in(
    alloc: Global,
    survey: &Survey,
    others: &OtherSubpages,
) -> Result<Vec<PageWait>, NoMemory>
    ensures { IfOk result (λ waits. AreOthersIn survey.now others.now → AreWaitsIn survey.now waits.items) }
{
    let mut waits = Vec::new(alloc);
    for index in 0..survey.pages.len() {
        let surveyed = surveyed_at(&*survey, index);
        let wait = page_wait(alloc, &surveyed, others)?;
        let page = surveyed.page.id();
        if waits.push(PageWait { page, wait }).is_err() {
            return Err(NoMemory);
        }
    }
    Ok(waits)
}

/// How long a viewer waits for each page of the list: the least deadline in fields with which the page alone is accepted, and the
/// first item that needs it; if there is none, the reason. `repeat` is 1 to 8, `lines` (slots in a field) 1 to 32. `Err` if memory
/// runs out.
pub fn waits(
    alloc: Global,
    cycle: &Cycle,
    pages: &[Page],
    class: Class,
    repeat: u8,
    lines: u8,
) -> Result<Vec<PageWait>, NoMemory>
    requires some_repeats { 1 ≤ repeat }
    requires few_repeats { repeat ≤ 8 }
    requires some_lines { 1 ≤ lines }
    requires few_lines { lines ≤ 32 }
    requires distinct { AllPairs (λ a b. a ≢ b) (ids_of pages.now) }
    ensures { IfOk result (λ waits. AreWaits (slots_of cycle.now) (map page_of pages.now) class repeat lines waits.items) }
{
    let collected = collect(alloc, cycle, pages, lines)?;
    let others = OtherSubpages::of(alloc, cycle, pages)?;
    let survey = Survey {
        cycle,
        pages,
        class,
        repeat,
        lines,
        collected,
    };
    waits_in(alloc, &survey, &others)
}
