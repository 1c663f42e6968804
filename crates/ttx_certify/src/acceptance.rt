//! Decides whether a cycle is accepted with a certificate, by a walk over its slots, twice.

ghost use Rattle.std.specs.Prelude.{◌≡◌, ◌≢◌, IfOk, [], map};
ghost use Rattle.std.specs.List.{AllPairs};
ghost use Rattle.ttx_cycle.specs.Cycles.{slots_of};
ghost use Rattle.ttx_page.specs.Views.{page_of, ids_of};
ghost use Rattle.ttx_certificate.specs.Certificates.{certificate_of};
ghost use Rattle.ttx_certify.specs.AllReasons.{AreReasons};
ghost use Rattle.ttx_certify.specs.Verdicts.{IsVerdict, Means};
ghost use Rattle.ttx_certify.specs.walks.Passing.{Starts, Stands, walk_pages, walk_certificate, second_pages, second_certificate};

use crate::all_reasons::AllReasons;
use crate::verdict::Verdict;
use crate::walks::passes::{Second, Walk};
use std::alloc::Global;
use ttx_cycle::Cycle;
use ttx_page::Page;
use ttx_witness::{Certificate, NoMemory};

// The first pass over the cycle.
fn first_pass(walk: &mut Walk, cycle: &Cycle)
    ensures stands { Starts walk.old [] → Starts walk.new (slots_of cycle.now) }
    ensures pages { walk_pages walk.new ≡ walk_pages walk.old }
    ensures certificate { walk_certificate walk.new ≡ walk_certificate walk.old }
{
    let slots = cycle.slots();
    for i in 0..slots.len() {
        let _ = walk.first(&slots[i]);
    }
}

// The second pass over the cycle.
fn second_pass(second: &mut Second, cycle: &Cycle)
    ensures stands { Stands second.old (slots_of cycle.now) [] → Stands second.new (slots_of cycle.now) (slots_of cycle.now) }
    ensures pages { second_pages second.new ≡ second_pages second.old }
    ensures certificate { second_certificate second.new ≡ second_certificate second.old }
{
    let slots = cycle.slots();
    for i in 0..slots.len() {
        second.second(&slots[i]);
    }
}

// A walk that has taken the slots of the cycle in both passes.
fn walk_twice<'a>(
    alloc: Global,
    cycle: &Cycle,
    pages: &'a [Page],
    certificate: &'a Certificate,
) -> Result<Second<'a>, NoMemory>
    requires distinct { AllPairs (λ a b. a ≢ b) (ids_of pages.now) }
    ensures stands { IfOk result (λ second. Stands second (slots_of cycle.now) (slots_of cycle.now)) }
    ensures pages { IfOk result (λ second. second_pages second ≡ map page_of pages.entry.now) }
    ensures certificate { IfOk result (λ second. second_certificate second ≡ certificate_of certificate.entry.now) }
{
    let mut walk = Walk::new(alloc, pages, certificate)?;
    first_pass(&mut walk, cycle);
    let mut second = walk.begin_second();
    second_pass(&mut second, cycle);
    Ok(second)
}

/// Decides whether the cycle is accepted with the certificate for all pages, whose ids are distinct. If not, names the first reason: a bad
/// slot first of all, then page by page in the order of the list, the smallest number, and the smallest slot or item and start.
///
/// If the verdict is `Yes`, each page is seen: a receiver that is tuned to it, at any slot and with any former memory, shows it by the
/// deadline and ever after, under each reception within the error rule, ignoring the header clock.
pub fn certify(
    alloc: Global,
    cycle: &Cycle,
    pages: &[Page],
    certificate: &Certificate,
) -> Result<Verdict, NoMemory>
    requires distinct { AllPairs (λ a b. a ≢ b) (ids_of pages.now) }
    ensures exact { IfOk result (IsVerdict (slots_of cycle.now) (map page_of pages.now) (certificate_of certificate.now)) }
    ensures seen { IfOk result (Means (slots_of cycle.now) (map page_of pages.now) (certificate_of certificate.now)) }
{
    let second = walk_twice(alloc, cycle, pages, certificate)?;
    Ok(second.finish())
}

/// The verdict of `certify`, and for each page of the list its first reason: the smallest number, and the smallest slot or item and start.
/// A page has one exactly if some reason is true of it. A bad slot is no reason of a page.
pub fn certify_all(
    alloc: Global,
    cycle: &Cycle,
    pages: &[Page],
    certificate: &Certificate,
) -> Result<AllReasons, NoMemory>
    requires distinct { AllPairs (λ a b. a ≢ b) (ids_of pages.now) }
    ensures exact { IfOk result (λ all.
        IsVerdict (slots_of cycle.now) (map page_of pages.now) (certificate_of certificate.now) all.verdict) }
    ensures seen { IfOk result (λ all. Means (slots_of cycle.now) (map page_of pages.now) (certificate_of certificate.now) all.verdict) }
    ensures reasons { IfOk result (λ all.
        AreReasons (slots_of cycle.now) (map page_of pages.now) (certificate_of certificate.now) all.pages.items) }
{
    let second = walk_twice(alloc, cycle, pages, certificate)?;
    second.finish_all(alloc)
}
