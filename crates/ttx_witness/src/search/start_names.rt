//! Names the starts of sure runs for the items of pages.

ghost use Rattle.std.specs.Prelude.{◌≡◌, ◌-ℤ◌, ◌≤◌, ◌<◌, ◌+◌, ◌*◌, ℕ, IfOk, OnOk, length, Some, true};
ghost use Rattle.ttx_page.specs.Views.{page_of};
ghost use Rattle.ttx_page.specs.declared.item.Item.TheVariants.{Head as TheHead};
ghost use Rattle.ttx_certificate.specs.Entries.{are_slots, is_page_id, rises};
ghost use Rattle.ttx_witness.specs.runs.SureStarts.{above_zero, width};
ghost use Rattle.ttx_witness.specs.search.Finding.{is_due, limit_of, wider, AddsEntry};
ghost use Rattle.ttx_witness.specs.search.Surveys.{survey_slots, surveyed_page, surveyed_starts, surveyed_spread, surveyed_least, surveyed_named};
ghost use Rattle.ttx_witness.specs.search.Surveys.{surveyed_limit, AreNamedIn};

use crate::runs::one_item::search_item;
use crate::runs::ring::Ring;
use crate::runs::sure_starts::{Spread, SureRuns};
use crate::search::survey::SurveyedPage;
use crate::sent::page_items::{item_of, run_length};
use std::alloc::Global;
use ttx_certificate::{Entry, NoMemory, Starts};
use ttx_header::PageId;
use ttx_page::{Class, Item, Page, is_blank, needed};

// Whether the certificate has to name starts for this item.
fn is_due(class: Class, page: &Page, item: &Item) -> bool
    ensures { result ≡ is_due class (page_of page.now) item.now }
{
    match class {
        Class::Any => needed(page, *item),
        Class::Clearing => needed(page, *item) && !is_blank(page, *item),
    }
}

// The slots from an owner to the end of a run; 0 if the run ends before the owner.
fn distance(owner: i64, end: i64) -> u64
    ensures { result ≡ above_zero (end -ℤ owner) }
{
    if end < owner { 0 } else { end.abs_diff(owner) }
}

// The least limit, in slots, within which the sure runs follow one another round the cycle.
fn width(period: u32, spread: Spread) -> u64
    ensures { result ≡ width period spread }
{
    let end = i64::from(spread.first_end) + i64::from(period);
    u64::from(spread.widest).max(distance(i64::from(spread.previous), end))
}

// The same, or `None` if there is no sure run.
fn limit_of(period: u32, spread: Option<Spread>) -> Option<u64>
    ensures { result ≡ limit_of period spread }
{
    match spread {
        Some(spread) => Some(width(period, spread)),
        None => None,
    }
}

// The least limit that is enough for both. `None` if one of them has none.
fn wider(a: Option<u64>, b: Option<u64>) -> Option<u64>
    ensures { result ≡ wider a b }
{
    match (a, b) {
        (Some(a), Some(b)) => Some(a.max(b)),
        _ => None,
    }
}

// Appends an entry with the starts of the item, unless there are none.
fn add_entry(
    entries: &mut Vec<Entry>,
    page: PageId,
    item: Item,
    starts: Starts,
) -> Result<(), NoMemory>
    requires page { is_page_id page ≡ true }
    requires slots { are_slots starts.items ≡ true }
    requires rising { rises starts.items ≡ true }
    ensures { OnOk result (AddsEntry entries.old.items entries.new.items page item starts.items) }
{
    if starts.is_empty() {
        return Ok(());
    }
    if entries.push(Entry::of(page, item, starts)).is_err() {
        return Err(NoMemory);
    }
    Ok(())
}

// The starts of the sure runs of an item, and how far apart these runs are.
fn search_for(
    alloc: Global,
    ring: &mut Ring,
    surveyed: &SurveyedPage,
    item: &Item,
    repeat: u8,
) -> Result<SureRuns, NoMemory>
    requires some { 1 ≤ repeat }
    requires few { repeat ≤ 8 }
    ensures starts { IfOk result (λ s. s.starts.items ≡ surveyed_starts surveyed.now repeat item.now) }
    ensures spread { IfOk result (λ s. s.spread ≡ surveyed_spread surveyed.now repeat item.now) }
    ensures slots { IfOk result (λ s. are_slots s.starts.items ≡ true) }
    ensures rising { IfOk result (λ s. rises s.starts.items ≡ true) }
    ensures small { IfOk result (λ s. (limit : ℕ) → limit_of (length (survey_slots surveyed.now.survey.now)) s.spread ≡ Some limit → limit ≤ 655360) }
{
    let survey = surveyed.survey;
    let period = survey.cycle.slots().len() as u32;
    search_item(
        alloc,
        ring,
        survey.collected.sent(surveyed.index, *item),
        run_length(repeat, item),
        period,
    )
}

// Names the starts of the sure runs of an item, and returns the least limit within which they follow one another.
fn name_item(
    alloc: Global,
    ring: &mut Ring,
    surveyed: &SurveyedPage,
    entries: &mut Vec<Entry>,
    item: &Item,
) -> Result<Option<u64>, NoMemory>
    ensures entries { OnOk result (AddsEntry entries.old.items entries.new.items (surveyed_page surveyed.now).id item.now
        (surveyed_starts surveyed.now surveyed.now.survey.now.repeat item.now)) }
    ensures least { IfOk result (λ least. least ≡ surveyed_least surveyed.now surveyed.now.survey.now.repeat item.now) }
{
    ttx_page::laws::pages_keep_their_rules();
    let period = surveyed.survey.cycle.slots().len() as u32;
    let SureRuns { starts, spread } = search_for(
        alloc,
        ring,
        surveyed,
        item,
        surveyed.survey.repeat,
    )?;
    add_entry(entries, surveyed.page.id(), *item, starts)?;
    Ok(limit_of(period, spread))
}

// The least limit within which the sure runs of an item follow one another.
fn item_limit(
    alloc: Global,
    ring: &mut Ring,
    surveyed: &SurveyedPage,
    item: &Item,
    repeat: u8,
) -> Result<Option<u64>, NoMemory>
    requires some { 1 ≤ repeat }
    requires few { repeat ≤ 8 }
    ensures least { IfOk result (λ least. least ≡ surveyed_least surveyed.now repeat item.now) }
    ensures small { IfOk result (λ least. (limit : ℕ) → least ≡ Some limit → limit ≤ 655360) }
{
    let period = surveyed.survey.cycle.slots().len() as u32;
    let SureRuns { starts: _, spread } = search_for(alloc, ring, surveyed, item, repeat)?;
    Ok(limit_of(period, spread))
}

// The least limit within which the headers of the page follow one another.
fn header_limit(
    alloc: Global,
    ring: &mut Ring,
    surveyed: &SurveyedPage,
) -> Result<Option<u64>, NoMemory>
    ensures least { IfOk result (λ least. least ≡ surveyed_least surveyed.now 1 TheHead) }
    ensures small { IfOk result (λ least. (limit : ℕ) → least ≡ Some limit → limit ≤ 655360) }
{
    let head = Item::Head;
    item_limit(alloc, ring, surveyed, &head, 1)
}

/// The least limit for an item that a viewer sees. A receiver that holds the item already needs only the next header of the page.
pub(crate) fn limit_seen(
    alloc: Global,
    ring: &mut Ring,
    surveyed: &SurveyedPage,
    item: &Item,
) -> Result<Option<u64>, NoMemory>
    ensures least { IfOk result (λ least. least ≡ surveyed_limit surveyed.now item.now) }
    ensures small { IfOk result (λ least. (limit : ℕ) → least ≡ Some limit → limit ≤ 655360) }
{
    if is_due(surveyed.survey.class, surveyed.page, item) {
        item_limit(alloc, ring, surveyed, item, surveyed.survey.repeat)
    } else {
        header_limit(alloc, ring, surveyed)
    }
}

// Names the starts of an item that a viewer sees, if it is due, and returns its least limit. A receiver that holds the item already
// needs only the next header of the page.
fn name_seen(
    alloc: Global,
    ring: &mut Ring,
    surveyed: &SurveyedPage,
    entries: &mut Vec<Entry>,
    item: &Item,
) -> Result<Option<u64>, NoMemory>
    ensures entries { OnOk result (AddsEntry entries.old.items entries.new.items (surveyed_page surveyed.now).id item.now
        (surveyed_named surveyed.now item.now)) }
    ensures least { IfOk result (λ least. least ≡ surveyed_limit surveyed.now item.now) }
{
    if !is_due(surveyed.survey.class, surveyed.page, item) {
        return header_limit(alloc, ring, surveyed);
    }
    name_item(alloc, ring, surveyed, entries, item)
}

/// Names the starts of the items of a page. `least` is the least limit that is enough for the pages before it. Returns the least
/// limit that is enough for this page too.
pub(crate) fn name_page(
    alloc: Global,
    ring: &mut Ring,
    surveyed: &SurveyedPage,
    entries: &mut Vec<Entry>,
    least: Option<u64>,
) -> Result<Option<u64>, NoMemory>
    ensures { IfOk result (λ new_least. AreNamedIn surveyed.now.survey.now (26 * surveyed.now.index) entries.old.items least →
        AreNamedIn surveyed.now.survey.now (26 * (surveyed.now.index + 1)) entries.new.items new_least) }
{
    let mut least = least;
    for number in 0..26u8 {
        let item = item_of(number);
        if needed(surveyed.page, item) {
            let limit = name_seen(alloc, ring, surveyed, entries, &item)?;
            least = wider(least, limit);
        }
    }
    Ok(least)
}
