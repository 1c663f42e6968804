//! The first true reason of a page, among those that concern named starts.

ghost use Rattle.std.specs.Prelude.{◌≡◌, ◌<◌, ℕ, List, Some, None, length, slice_get};
ghost use Rattle.ttx_page.specs.declared.class.Class.TheVariants.{Clearing};
ghost use Rattle.ttx_page.specs.Pages as definitions;
ghost use Rattle.ttx_page.specs.Steady.{HasHeader};
ghost use Rattle.ttx_page.specs.Streams.{repeated};
ghost use Rattle.ttx_witness.specs.faults.Faults.{IsWitnessFault};
ghost use Rattle.ttx_witness.specs.laws.JudgingLaws.{IsHeaderAnswer};
ghost use Rattle.ttx_certify.specs.walks.Passing.{IsEnded, ended_pages, ended_certificate};
ghost use Rattle.ttx_certify.specs.ItemReasons.{reason_number, told_first, judged_page, judged_certificate, IsReasonAt, IsReasonBelow, IsReadyAt};

use crate::item_reasons::JudgedPage;
use crate::walks::page_results::EndedWalk;
use ttx_page::Class;
use ttx_witness::{Reason, item_of};

// The number of a reason.
fn number(reason: &Reason) -> u8
    ensures { result ≡ reason_number reason.now }
{
    match *reason {
        Reason::BadSlot { .. } => 1,
        Reason::NoHeader { .. } => 2,
        Reason::OtherSubpage { .. } => 3,
        Reason::Erased { .. } => 4,
        Reason::HeadDiffers { .. } => 5,
        Reason::RowDiffers { .. } => 6,
        Reason::LinksDiffer { .. } => 7,
        Reason::NoWitness { .. } => 8,
        Reason::WitnessBad { .. } => 9,
        Reason::Late { .. } => 10,
        Reason::Unsteady => 11,
        Reason::LateBlank { .. } => 12,
    }
}

// The first of two reasons: the one with the smaller number, and the earlier one if the numbers are equal.
fn told_first(earlier: &Option<Reason>, next: &Option<Reason>) -> Option<Reason>
    ensures { result ≡ told_first earlier.now next.now }
{
    let Some(reason) = next else {
        return *earlier;
    };
    let Some(before) = earlier else {
        return *next;
    };
    if number(reason) < number(before) {
        *next
    } else {
        *earlier
    }
}

// The first header of the page at `index` that the next one follows too late. Computed only for receivers that surely clear.
fn late_header(ended: &EndedWalk, index: usize) -> Option<u32>
    ensures { (y : List (List ℕ)) (p : definitions.Page) → IsEnded ended.now y → slice_get (ended_pages ended.now) index ≡ Some p →
        HasHeader (repeated y) p.id → (ended_certificate ended.now).class ≡ Clearing → IsHeaderAnswer y p (ended_certificate ended.now) result }
{
    match ended.certificate.class() {
        Class::Any => None,
        Class::Clearing => ended.late_header(index),
    }
}

// The first true reason of the item with this number, of the page at `index`, and the place in the certificate where the search for the
// next item begins. `near` is that place for this item; it does not change the reason.
fn reason_at(
    ended: &EndedWalk,
    index: usize,
    judged: &JudgedPage,
    number: u8,
    near: usize,
) -> (usize, Option<Reason>)
    requires number { number < 26 }
    ensures { (y : List (List ℕ)) → IsReadyAt ended.now index judged.now y →
        IsReasonAt y (judged_page judged.now) (judged_certificate judged.now) number result.1 }
{
    let item = item_of(number);
    let Some((next, starts)) = judged.starts(&item, near) else {
        return (near, None);
    };
    let progress = ended.progress(index, number, starts);
    (next, judged.item_reason(&item, starts, progress))
}

// The first true reason of the items of the page at `index`.
fn first_reason(ended: &EndedWalk, index: usize, judged: &JudgedPage) -> Option<Reason>
    requires { index < length ended.now.pages.now }
    ensures { (y : List (List ℕ)) → IsReadyAt ended.now index judged.now y →
        IsReasonBelow y (judged_page judged.now) (judged_certificate judged.now) 26 result }
{
    let mut first = None;
    let mut near = 0;
    for number in 0..26u8 {
        let (next, reason) = reason_at(ended, index, judged, number, near);
        near = next;
        first = told_first(&first, &reason);
    }
    first
}

/// The first true reason that concerns named starts, of the page at `index`, which has a header.
pub fn witness_fault(ended: &EndedWalk, index: usize) -> Option<Reason>
    requires { index < length ended.now.pages.now }
    ensures { (y : List (List ℕ)) (p : definitions.Page) → IsEnded ended.now y → slice_get (ended_pages ended.now) index ≡ Some p →
        HasHeader (repeated y) p.id → IsWitnessFault y p (ended_certificate ended.now) result }
{
    let page = &ended.pages[index];
    let judged = JudgedPage {
        page,
        certificate: ended.certificate,
        period: ended.period,
        late_header: late_header(ended, index),
    };
    first_reason(ended, index, &judged)
}
