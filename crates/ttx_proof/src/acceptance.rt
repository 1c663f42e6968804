//! Decides whether a splice is accepted.

ghost use Rattle.std.specs.Prelude.{◌≡◌, ◌≢◌, ◌↔◌, IsTrue, IfOk};
ghost use Rattle.std.specs.List.{AllPairs};
ghost use Rattle.ttx_page.specs.declared.class.Class.TheVariants.{Any};
ghost use Rattle.ttx_certificate.specs.Certificates.{certificate_of};
ghost use Rattle.ttx_witness.specs.sent.Collected.{IsIndex};
ghost use Rattle.ttx_page.specs.Views.{ids_of};
ghost use Rattle.ttx_proof.specs.Splices.{NumbersAgree};
ghost use Rattle.ttx_proof.specs.Splicing.{splice_of, splice_between, AreKnown};
ghost use Rattle.ttx_proof.specs.Verdicts.{IsSpliceVerdict, SpliceMeans};

use crate::first_seam::find_seam;
use crate::lates::find_late;
use crate::sides::{Side, Sides};
use crate::verdict::{SpliceReason, SpliceVerdict};
use std::alloc::Global;
use ttx_certify::{Verdict, certify};
use ttx_cycle::Cycle;
use ttx_page::{Class, Page};
use ttx_witness::{Certificate, NoMemory, PageIndex, index_of};

// Whether the class is any: receivers need not clear pages.
fn is_any(certificate: &Certificate) -> bool
    ensures { IsTrue result ↔ ((certificate_of certificate.now).class ≡ Any) }
{
    match certificate.class() {
        Class::Any => true,
        Class::Clearing => false,
    }
}

// Whether lines, repeat count and deadline are equal, and both classes are any.
fn numbers_agree(old: &Certificate, new: &Certificate) -> bool
    ensures { IsTrue result ↔ NumbersAgree (certificate_of old.now) (certificate_of new.now) }
{
    old.lines() == new.lines()
        && old.repeat() == new.repeat()
        && old.deadline() == new.deadline()
        && is_any(old)
        && is_any(new)
}

// The first seam, otherwise the first late item, if both cycles are accepted and the numbers agree. The index is that of the old
// pages.
fn found_verdict(alloc: Global, sides: &Sides, index: &PageIndex) -> Result<SpliceVerdict, NoMemory>
    requires { IsIndex (ids_of sides.now.old.pages.now) index.now }
    ensures { IfOk result (λ verdict. AreKnown (splice_between sides.now) → IsSpliceVerdict (splice_between sides.now) verdict) }
{
    if let Some(reason) = find_seam(sides, index) {
        return Ok(SpliceVerdict::No(reason));
    }
    match find_late(alloc, sides, index)? {
        Some(reason) => Ok(SpliceVerdict::No(reason)),
        None => Ok(SpliceVerdict::Yes),
    }
}

// The same, with the index built here.
fn joined_verdict(alloc: Global, sides: &Sides) -> Result<SpliceVerdict, NoMemory>
    ensures { IfOk result (λ verdict. AreKnown (splice_between sides.now) → IsSpliceVerdict (splice_between sides.now) verdict) }
{
    let index = index_of(alloc, sides.old.pages)?;
    found_verdict(alloc, sides, &index)
}

/// Decides whether the splice is accepted: the old cycle repeats, and then, from the end of a period on, the new one. The ids in each of
/// the two lists of pages are distinct. If it is not accepted, names the first reason: the old cycle, the new cycle, the numbers of the
/// certificates, the first common page with a seam, the first with an item that is not bridged; pages in the order of the new list, then
/// the smallest slot or item.
///
/// If the verdict is `Yes`, the joined stream is seen: each common page by the deadline after tuning, through the change and ever after;
/// each other new page by the deadline after tuning or after the change, whichever is later.
pub fn splice<'a>(
    alloc: Global,
    old: &'a Cycle,
    new: &'a Cycle,
    old_pages: &'a [Page],
    new_pages: &'a [Page],
    old_certificate: &'a Certificate,
    new_certificate: &'a Certificate,
) -> Result<SpliceVerdict, NoMemory>
    requires old_distinct { AllPairs (λ a b. a ≢ b) (ids_of old_pages.now) }
    requires new_distinct { AllPairs (λ a b. a ≢ b) (ids_of new_pages.now) }
    ensures exact { IfOk result (IsSpliceVerdict
        (splice_of old.now new.now old_pages.now new_pages.now old_certificate.now new_certificate.now)) }
    ensures seen { IfOk result (SpliceMeans (splice_of old.now new.now old_pages.now new_pages.now old_certificate.now new_certificate.now)) }
{
    crate::laws::verdicts_mean();
    ttx_page::laws::pages_keep_their_rules();
    ttx_witness::certificate_laws::certificates_keep_their_rules();
    if let Verdict::No(reason) = certify(alloc, old, old_pages, old_certificate)? {
        return Ok(SpliceVerdict::No(SpliceReason::Old(reason)));
    }
    if let Verdict::No(reason) = certify(alloc, new, new_pages, new_certificate)? {
        return Ok(SpliceVerdict::No(SpliceReason::New(reason)));
    }
    if !numbers_agree(old_certificate, new_certificate) {
        return Ok(SpliceVerdict::No(SpliceReason::Numbers));
    }
    let old = Side {
        cycle: old,
        pages: old_pages,
        certificate: old_certificate,
    };
    let new = Side {
        cycle: new,
        pages: new_pages,
        certificate: new_certificate,
    };
    joined_verdict(alloc, &Sides { old, new })
}
