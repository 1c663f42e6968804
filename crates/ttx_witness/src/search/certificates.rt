//! Searches for the certificate with the least deadline.

ghost use Rattle.std.specs.Prelude.{◌≡◌, ◌≢◌, [], ◌≤◌, ◌<◌, ◌*◌, ◌↔◌, ℕ, IfOk, OnOk, IsTrue, List, map, length, Some, true, false};
ghost use Rattle.std.specs.List.{AllPairs};
ghost use Rattle.std.specs.List.Sorted.{IsPermutation};
ghost use Rattle.ttx_page.specs.Pages as definitions;
ghost use Rattle.ttx_page.specs.Views.{page_of, ids_of};
ghost use Rattle.ttx_page.specs.declared.class.Class.TheVariants.{Any};
ghost use Rattle.ttx_cycle.specs.Cycles.{slots_of};
ghost use Rattle.ttx_certificate.specs.Entries.{entry_places, rises};
ghost use Rattle.ttx_certificate.specs.EntryViews.{entries_of};
ghost use Rattle.ttx_certificate.specs.Certificates.{certificate_of};
ghost use Rattle.ttx_witness.specs.search.Finding.{same_place, IsLeastField, IsDeadline, IsSentUnchanged, IsFoundFor};
ghost use Rattle.ttx_witness.specs.search.Surveys.{survey_slots, survey_pages, AreNamedIn, AreOthersIn, AreFaultsIn};

use crate::faults::bad_slots::bad_slot;
use crate::faults::other_subpages::OtherSubpages;
use crate::faults::reason::PageFault;
use crate::runs::ring::empty_ring;
use crate::search::start_names::name_page;
use crate::search::survey::{Survey, surveyed_at};
use crate::sent::collection::collect;
use std::alloc::Global;
use ttx_certificate::{Certificate, Entry, NoMemory};
use ttx_cycle::Cycle;
use ttx_page::{Class, Page};

/// The result of a search.
#[derive(Drop)]
pub struct Found {
    /// Names every start of a sure run. Has the largest deadline, 1,000,000 fields, if there is no `deadline`.
    pub certificate: Certificate,
    /// The least deadline, in fields, with which the cycle is accepted; `None` if there is none.
    pub deadline: Option<u32>,
}

// The least number of fields, from 1 to 1,000,000, in which `slots` slots are sent. `None` if it is larger.
fn least_field(slots: u64, lines: u8) -> Option<u32>
    requires some { 1 ≤ lines }
    ensures { IsLeastField slots lines result }
{
    let fields = slots.div_ceil(u64::from(lines)).max(1);
    if fields <= 1_000_000 {
        Some(fields as u32)
    } else {
        None
    }
}

// Whether no slot is bad and no page has a fault.
fn is_sent_unchanged(survey: &Survey, faults: &[PageFault]) -> bool
    ensures { AreFaultsIn survey.now faults.now → IsTrue result ↔ IsSentUnchanged (survey_slots survey.now) (survey_pages survey.now) }
{
    crate::laws::fault_laws::steady_has_no_fault();
    if bad_slot(survey.cycle).is_some() {
        return false;
    }
    for index in 0..faults.len() {
        if faults[index].reason.is_some() {
            return false;
        }
    }
    true
}

// Appends the entries of all pages, and returns the least limit in slots that is enough for all of them.
fn name_pages(
    alloc: Global,
    survey: &Survey,
    entries: &mut Vec<Entry>,
) -> Result<Option<u64>, NoMemory>
    requires none { entries.old.items ≡ [] }
    ensures { IfOk result (λ least. AreNamedIn survey.now (26 * length survey.now.pages.now) entries.new.items least) }
{
    let mut ring = empty_ring(alloc, usize::from(survey.repeat))?;
    let mut least = Some(0);
    for index in 0..survey.pages.len() {
        let surveyed = surveyed_at(&*survey, index);
        least = name_page(alloc, &mut ring, &surveyed, entries, least)?;
    }
    Ok(least)
}

// Sorts the entries by magazine, and keeps those of a magazine in their order.
fn sort_magazines(entries: &mut Vec<Entry>) -> Result<(), NoMemory>
    ensures { IsPermutation entries.old.items entries.new.items }
{
    match entries.sort_by_cached_key(|entry| entry.page().mag()) {
        Ok(()) => Ok(()),
        Err(_) => Err(NoMemory),
    }
}

// Sorts the entries into the order of certificates. The order is strict if no two entries are of the same item.
fn sort_places(entries: &mut Vec<Entry>) -> Result<(), NoMemory>
    requires apart { AllPairs (λ a b. same_place a b ≡ false) entries.old.items }
    ensures same { IsPermutation entries.old.items entries.new.items }
    ensures rising { OnOk result (rises (entry_places (entries_of entries.new.items)) ≡ true) }
{
    match entries.sort_by_key(|entry| entry.place()) {
        Ok(()) => Ok(()),
        Err(_) => Err(NoMemory),
    }
}

// The same. Pages are mostly listed by number, magazine by magazine or one of each in turn: by magazine they are in order already, and
// sorting what is in order is one pass.
fn sort_entries(entries: &mut Vec<Entry>) -> Result<(), NoMemory>
    requires apart { AllPairs (λ a b. same_place a b ≡ false) entries.old.items }
    ensures same { IsPermutation entries.old.items entries.new.items }
    ensures rising { OnOk result (rises (entry_places (entries_of entries.new.items)) ≡ true) }
{
    sort_magazines(entries)?;
    sort_places(entries)
}

// The deadline in fields, if all is sent unchanged and some limit is enough.
fn deadline_of(unchanged: bool, lines: u8, least: Option<u64>) -> Option<u32>
    requires some { 1 ≤ lines }
    ensures { (cycle : List (List ℕ)) (pages : List definitions.Page) → IsTrue unchanged ↔ IsSentUnchanged cycle pages →
        IsDeadline cycle pages lines least result }
{
    if !unchanged {
        return None;
    }
    match least {
        Some(slots) => least_field(slots, lines),
        None => None,
    }
}

/// For each page of the survey the first reason why it is not sent unchanged. `Err` if memory runs out.
pub fn faults_in(
    alloc: Global,
    survey: &Survey,
    others: &OtherSubpages,
) -> Result<Vec<PageFault>, NoMemory>
    ensures { IfOk result (λ faults. AreOthersIn survey.now others.now → AreFaultsIn survey.now faults.items) }
{
    let mut faults = Vec::new(alloc);
    for index in 0..survey.pages.len() {
        let reason = surveyed_at(&*survey, index).fault(others);
        if faults.push(PageFault { reason }).is_err() {
            return Err(NoMemory);
        }
    }
    Ok(faults)
}

/// The certificate that `find_for` finds for the cycle, the pages and the numbers of the survey, whose transmissions are collected.
/// `faults` are the first reasons why each page is not sent unchanged, as `faults_in` gives them. `Err` if memory runs out.
pub fn find_in(alloc: Global, survey: &Survey, faults: &[PageFault]) -> Result<Found, NoMemory>
    requires { AreFaultsIn survey.now faults.now }
    ensures { IfOk result (λ found. IsFoundFor (survey_slots survey.now) (survey_pages survey.now) survey.now.repeat survey.now.lines
        survey.now.class (certificate_of found.certificate) found.deadline) }
{
    ttx_page::laws::pages_keep_their_rules();
    ttx_page::laws::pages_have_six_links();
    ttx_page::laws::blank_is_tested();
    ttx_page::laws::each_slot_turns();
    crate::laws::cycle_laws::sure_starts_are_found();
    crate::laws::cycle_laws::least_limit_is_found();
    let mut entries = Vec::new(alloc);
    let least = name_pages(alloc, survey, &mut entries)?;
    sort_entries(&mut entries)?;
    let (lines, repeat) = (survey.lines, survey.repeat);
    let unchanged = is_sent_unchanged(survey, faults);
    let deadline = deadline_of(unchanged, lines, least);
    let fields = deadline.unwrap_or(1_000_000);
    Ok(Found {
        certificate: Certificate::of(lines, repeat, fields, entries, survey.class),
        deadline,
    })
}

/// Finds the certificate that names every start of a sure run of every item that a viewer sees and that a receiver of the class does
/// not hold already, with the least deadline in fields with which the cycle is accepted. `repeat` is 1 to 8, `lines` (slots in a
/// field) 1 to 32. `Err` if memory runs out.
pub fn find_for(
    alloc: Global,
    cycle: &Cycle,
    pages: &[Page],
    repeat: u8,
    lines: u8,
    class: Class,
) -> Result<Found, NoMemory>
    requires some_repeats { 1 ≤ repeat }
    requires few_repeats { repeat ≤ 8 }
    requires some_lines { 1 ≤ lines }
    requires few_lines { lines ≤ 32 }
    requires distinct { AllPairs (λ a b. a ≢ b) (ids_of pages.now) }
    ensures { IfOk result (λ found.
        IsFoundFor (slots_of cycle.now) (map page_of pages.now) repeat lines class (certificate_of found.certificate) found.deadline) }
{
    let collected = collect(alloc, cycle, pages, lines)?;
    let survey = Survey {
        cycle,
        pages,
        class,
        repeat,
        lines,
        collected,
    };
    let others = OtherSubpages::of(alloc, cycle, pages)?;
    let faults = faults_in(alloc, &survey, &others)?;
    find_in(alloc, &survey, &faults)
}

/// The certificate that `find_for` finds for receivers of class any. `repeat` is 1 to 8, `lines` 1 to 32.
pub fn find(
    alloc: Global,
    cycle: &Cycle,
    pages: &[Page],
    repeat: u8,
    lines: u8,
) -> Result<Found, NoMemory>
    requires some_repeats { 1 ≤ repeat }
    requires few_repeats { repeat ≤ 8 }
    requires some_lines { 1 ≤ lines }
    requires few_lines { lines ≤ 32 }
    requires distinct { AllPairs (λ a b. a ≢ b) (ids_of pages.now) }
    ensures { IfOk result (λ found.
        IsFoundFor (slots_of cycle.now) (map page_of pages.now) repeat lines Any (certificate_of found.certificate) found.deadline) }
{
    find_for(alloc, cycle, pages, repeat, lines, Class::Any)
}
