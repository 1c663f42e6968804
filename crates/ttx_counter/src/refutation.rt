//! Searches for a counter-run that refutes certificates.

ghost use Rattle.std.specs.Prelude.{◌≡◌, ◌≢◌, ◌↔◌, IfOk, Some, None, false, true, is_some, map};
ghost use Rattle.std.specs.List.{AllPairs};
ghost use Rattle.ttx_cycle.specs.Cycles.{slots_of};
ghost use Rattle.ttx_page.specs.Memories.{IsMemory};
ghost use Rattle.ttx_page.specs.Views.{page_of, ids_of};
ghost use Rattle.ttx_page.specs.declared.class.Class.TheVariants.{Any};
ghost use Rattle.ttx_page.specs.declared.item.Item.TheVariants as items;
ghost use Rattle.ttx_receiver.specs.Starving.{wrong_memory};
ghost use Rattle.ttx_certificate.specs.Certificates.{certificate_of};
ghost use Rattle.ttx_witness.specs.sent.Collected.{IsItem};
ghost use Rattle.ttx_witness.specs.Coverage as coverage;
ghost use Rattle.ttx_witness.specs.search.Finding.{CanBeAccepted, IsSentUnchanged};
ghost use Rattle.ttx_certify.specs.Verdicts.{IsClean};
ghost use Rattle.ttx_counter.specs.Claims.{claimed_slots, claimed_pages, claimed_numbers, IsPrepared, IsSentSteadily};
ghost use Rattle.ttx_counter.specs.Claims.{TellsSent, TellsItems, TellsAny, TellsRun};
ghost use Rattle.ttx_counter.specs.Counters.{counter_run_of};
ghost use Rattle.ttx_counter.specs.Refutations.{is_absent, TellsPages, TellsAllPlainly, TellsCounter, TellsFirst};
ghost use Rattle.ttx_counter.specs.Sources.{plain_counter};

use crate::claim::{Claim, ClaimedPage, page_at};
use crate::counter::Counter;
use crate::former::wrong_memory_of;
use crate::magazines::magazines_of;
use crate::plain_counters::{PlainRun, plain_counter, refute_plainly};
use crate::starvation::{StarvedPage, counter_for};
use crate::starvation_start::{SentItem, limit, starving_start};
use std::alloc::Global;
use ttx_cycle::Cycle;
use ttx_page::{Class, Item, Page, needed};
use ttx_witness::{
    Certificate, NoMemory, OtherSubpages, Reason, Survey, bad_slot, collect, faults_in, find_in,
    item_of,
};

// Whether the fault is that the page has no header.
fn is_absent(fault: Option<Reason>) -> bool
    ensures { result ≡ is_absent fault }
{
    matches!(fault, Some(Reason::NoHeader { .. }))
}

// A counter-run of a page that has no header: a link that is not the page's stays.
fn absent_counter(alloc: Global, page: &Page, index: u32, certificate: &Certificate) -> Counter
    ensures run { counter_run_of result ≡ plain_counter index false (wrong_memory (page_of page.now) items.Links)
        (certificate_of certificate.now).lines
        (certificate_of certificate.now).repeat (certificate_of certificate.now).deadline (coverage.limit (certificate_of certificate.now)) }
    ensures former { IsMemory (wrong_memory (page_of page.now) items.Links) }
{
    ttx_page::laws::memories_keep_their_rules();
    let run = PlainRun {
        page: index,
        any_sub: false,
        former: wrong_memory_of(page, &Item::Links),
        slots: limit(certificate),
    };
    plain_counter(alloc, run, certificate)
}

// The slot from which on a receiver is starved of the item. `None` if there is none, or if no viewer sees the item.
fn start_for(page: &ClaimedPage<'_>, item: &Item) -> Option<u32>
    requires prepared { IsPrepared page.now.claim.now }
    requires item { IsItem item.now }
    ensures { TellsSent page.now item.now result }
{
    ttx_witness::certificate_laws::certificates_keep_their_rules();
    let (claim, own) = (page.claim, page.page);
    if !needed(own, *item) {
        return None;
    }
    let starts = claim.found.starts(own.id(), *item);
    let sent = claim.survey.collected.sent(page.index as usize, *item);
    let sent_item = SentItem { item, starts, sent };
    starving_start(claim.survey.cycle, own, claim.certificate, &sent_item)
}

// The counter-run of a receiver that is starved of the item from slot `start` on.
fn starved_counter(
    alloc: Global,
    page: &ClaimedPage<'_>,
    item: &Item,
    start: u32,
) -> Result<Counter, NoMemory>
    requires clean { IsClean (claimed_slots page.now.claim.now) }
    requires steady { IsSentSteadily page.now }
    requires starved { TellsSent page.now item.now (Some start) }
    ensures { IfOk result (λ c. TellsItems page.now (Some c)) }
{
    crate::completeness::starved_is_not_covered();
    crate::completeness::starving_is_counter_run();
    ttx_page::laws::pages_keep_their_rules();
    ttx_witness::certificate_laws::certificates_keep_their_rules();
    let starved = StarvedPage {
        index: page.index,
        page: page.page,
        item,
        start,
    };
    let claim = page.claim;
    counter_for(alloc, claim.survey.cycle, &starved, claim.certificate)
}

// A counter-run of a steady page of a clean cycle, from the first item that does not come in time.
fn starve_page(alloc: Global, page: &ClaimedPage<'_>) -> Result<Option<Counter>, NoMemory>
    requires prepared { IsPrepared page.now.claim.now }
    requires clean { IsClean (claimed_slots page.now.claim.now) }
    requires steady { IsSentSteadily page.now }
    ensures { IfOk result (TellsItems page.now) }
{
    for number in 0..26u8 {
        let item = item_of(number);
        let start = start_for(page, &item);
        if let Some(start) = start {
            let counter = starved_counter(alloc, page, &item, start)?;
            return Ok(Some(counter));
        }
    }
    Ok(None)
}

// A counter-run of a page without a header, or of a steady page of a clean cycle that no certificate of class any with these
// numbers covers.
fn refute_page(alloc: Global, page: &ClaimedPage<'_>) -> Result<Option<Counter>, NoMemory>
    requires { IsPrepared page.now.claim.now }
    ensures { IfOk result (TellsAny page.now) }
{
    crate::completeness::fullest_names_all();
    crate::laws::absent_pages_are_wrong();
    crate::laws::plain_runs_are_counter_runs();
    ttx_witness::certificate_laws::certificates_keep_their_rules();
    ttx_witness::fault_laws::steady_has_no_fault();
    let fault = page.fault();
    if is_absent(fault) {
        let certificate = page.claim.certificate;
        return Ok(Some(absent_counter(alloc, page.page, page.index, certificate)));
    }
    let clean = page.claim.clean;
    if !clean || fault.is_some() {
        return Ok(None);
    }
    starve_page(alloc, page)
}

// The counter-run of the first page that has one.
fn refute_pages<'a>(alloc: Global, claim: &'a Claim<'a>) -> Result<Option<Counter>, NoMemory>
    requires { IsPrepared claim.now }
    ensures { IfOk result (TellsPages counter_run_of (claimed_slots claim.now) (claimed_pages claim.now) (claimed_numbers claim.now)) }
{
    let pages = claim.survey.pages;
    for index in 0..pages.len() as u32 {
        let page = page_at(pages, index);
        let counter = refute_page(alloc, &ClaimedPage { claim, page, index })?;
        if counter.is_some() {
            return Ok(counter);
        }
    }
    Ok(None)
}

// A counter-run of a receiver set to the page's number, when there is none for its id. If the cycle has no other subpage of this
// number, both receivers do the same, and the run is not repeated.
fn refute_by_number(alloc: Global, page: &ClaimedPage<'_>) -> Option<Counter>
    requires prepared { IsPrepared page.now.claim.now }
    requires exactly { TellsRun page.now false None }
    ensures { TellsRun page.now true result }
{
    match page.claim.others.first(page.page.id()) {
        Some(_) => refute_plainly(alloc, page, true),
        None => None,
    }
}

// A counter-run of the first page of which a plain run ends wrong, with the receiver set to its id or to its number.
fn refute_all_plainly<'a>(alloc: Global, claim: &'a Claim<'a>) -> Option<Counter>
    requires { IsPrepared claim.now }
    ensures { TellsAllPlainly counter_run_of (claimed_slots claim.now) (claimed_pages claim.now) (claimed_numbers claim.now) result }
{
    let pages = claim.survey.pages;
    for index in 0..pages.len() as u32 {
        let page = page_at(pages, index);
        let own = ClaimedPage { claim, page, index };
        let exactly = refute_plainly(alloc, &own, false);
        if exactly.is_some() {
            return exactly;
        }
        let by_number = refute_by_number(alloc, &own);
        if by_number.is_some() {
            return by_number;
        }
    }
    None
}

// The counter-run of the first page that is not sent well; if there is none, of the first of which a plain run ends wrong.
fn refute_claim<'a>(alloc: Global, claim: &'a Claim<'a>) -> Result<Option<Counter>, NoMemory>
    requires { IsPrepared claim.now }
    ensures tells { IfOk result (TellsCounter counter_run_of (claimed_slots claim.now) (claimed_pages claim.now) (claimed_numbers claim.now)) }
    ensures first { IfOk result (TellsFirst counter_run_of (claimed_slots claim.now) (claimed_pages claim.now) (claimed_numbers claim.now)) }
{
    let counter = refute_pages(alloc, claim)?;
    if counter.is_some() {
        return Ok(counter);
    }
    Ok(refute_all_plainly(alloc, claim))
}

/// Searches for a counter-run that refutes all certificates of class any with these lines, repeat count and deadline: `check_counter`
/// accepts it, so no such certificate is accepted. `Err` if memory runs out.
///
/// There is one if a page has no header; if a plain run of a page ends wrong; and if, in a clean cycle, no such certificate covers some
/// steady page. If all pages are sent unchanged in clean slots, there is one if and only if no such certificate is accepted.
///
/// It concerns the first page that has no header, or is steady in a clean cycle and not covered. If there is no such page, it concerns
/// the first page of which a plain run ends wrong.
pub fn refute(
    alloc: Global,
    cycle: &Cycle,
    pages: &[Page],
    certificate: &Certificate,
) -> Result<Option<Counter>, NoMemory>
    requires any { (certificate_of certificate.now).class ≡ Any }
    requires distinct { AllPairs (λ a b. a ≢ b) (ids_of pages.now) }
    ensures tells { IfOk result (TellsCounter counter_run_of (slots_of cycle.now) (map page_of pages.now) (certificate_of certificate.now)) }
    ensures first { IfOk result (TellsFirst counter_run_of (slots_of cycle.now) (map page_of pages.now) (certificate_of certificate.now)) }
    ensures exact { IfOk result (λ c. IsSentUnchanged (slots_of cycle.now) (map page_of pages.now) →
        (is_some c ≡ true) ↔ (CanBeAccepted (slots_of cycle.now) (map page_of pages.now) Any (certificate_of certificate.now).lines
        (certificate_of certificate.now).repeat (certificate_of certificate.now).deadline → ⊥)) }
{
    crate::laws::refuted_is_not_accepted();
    crate::completeness::fullest_names_all();
    ttx_page::laws::pages_keep_their_rules();
    ttx_witness::certificate_laws::certificates_keep_their_rules();
    ttx_witness::cycle_laws::further_starts_cover();
    ttx_witness::judging_laws::pages_are_few();
    let (lines, repeat) = (certificate.lines(), certificate.repeat());
    let collected = collect(alloc, cycle, pages, lines)?;
    let survey = Survey {
        cycle,
        pages,
        class: Class::Any,
        repeat,
        lines,
        collected,
    };
    let others = OtherSubpages::of(alloc, cycle, pages)?;
    let faults = faults_in(alloc, &survey, &others)?;
    let found = find_in(alloc, &survey, &faults)?;
    let magazines = magazines_of(alloc, cycle)?;
    let claim = Claim {
        survey: &survey,
        certificate,
        found: &found.certificate,
        others: &others,
        faults: &faults,
        magazines: &magazines,
        clean: bad_slot(cycle).is_none(),
    };
    refute_claim(alloc, &claim)
}
