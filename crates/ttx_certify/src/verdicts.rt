//! The verdict on a list of slots, after two passes over it.

ghost use Rattle.std.specs.Prelude.{◌≡◌, ◌<◌, ℕ, List, Some, None, MatchOption, length, slice_get};
ghost use Rattle.ttx_page.specs.Pages as definitions;
ghost use Rattle.ttx_witness.specs.faults.Faults.{IsFault};
ghost use Rattle.ttx_certify.specs.walks.Passing.{IsEnded, ended_pages, ended_certificate};
ghost use Rattle.ttx_certify.specs.Verdicts.{IsFirstFault, IsVerdict};

use crate::page_reasons::witness_fault;
use crate::verdict::Verdict;
use crate::walks::page_results::EndedWalk;
use ttx_witness::Reason;

/// The first fault of the page at `index`.
pub fn fault_at(ended: &EndedWalk, index: usize) -> Option<Reason>
    requires { index < length ended.now.pages.now }
    ensures { (y : List (List ℕ)) (p : definitions.Page) → IsEnded ended.now y → slice_get (ended_pages ended.now) index ≡ Some p →
        IsFault y (ended_pages ended.now) p (ended_certificate ended.now) result }
{
    if let Some(reason) = ended.page_fault(index) {
        return Some(reason);
    }
    witness_fault(ended, index)
}

// The first fault of the first page that has one.
fn first_fault(ended: &EndedWalk) -> Option<Reason>
    ensures { (y : List (List ℕ)) → IsEnded ended.now y →
        MatchOption result ((n : ℕ) (p : definitions.Page) → slice_get (ended_pages ended.now) n ≡ Some p →
        IsFault y (ended_pages ended.now) p (ended_certificate ended.now) None)
        (λ reason. IsFirstFault y (ended_pages ended.now) (ended_certificate ended.now) reason) }
{
    for index in 0..ended.pages.len() {
        if let Some(reason) = fault_at(ended, index) {
            return Some(reason);
        }
    }
    None
}

/// The verdict on a list that ended with the owners with which it began: a slot that is not clean first of all, then page by page in the
/// order of the list, the smallest number, and the smallest slot or item and start.
pub fn judge(ended: &EndedWalk) -> Verdict
    ensures { (y : List (List ℕ)) → IsEnded ended.now y → IsVerdict y (ended_pages ended.now) (ended_certificate ended.now) result }
{
    ttx_witness::certificate_laws::certificates_keep_their_rules();
    ttx_witness::cycle_laws::coverage_is_decided();
    ttx_witness::fault_laws::steady_has_no_fault();
    ttx_witness::judging_laws::items_are_judged();
    if let Some(slot) = ended.bad {
        return Verdict::No(Reason::BadSlot { slot });
    }
    match first_fault(ended) {
        Some(reason) => Verdict::No(reason),
        None => Verdict::Yes,
    }
}
