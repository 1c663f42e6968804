//! The verdict at the end of a walk.

use crate::all_reasons::{AllReasons, judge_all};
use crate::verdict::Verdict;
use crate::verdicts::judge;
use crate::walks::passes::Second;
use std::alloc::Global;
use ttx_witness::{NoMemory, Reason};

impl<'a> Second<'a> {
    ghost use Rattle.std.specs.Prelude.{ℕ, List, IfOk};
    ghost use Rattle.ttx_certify.specs.walks.Passing.{IsBorneOut, Stands, second_pages, second_certificate};
    ghost use Rattle.ttx_certify.specs.AllReasons.{AreReasons};
    ghost use Rattle.ttx_certify.specs.Verdicts.{Means};
    ghost use Rattle.ttx_certify.specs.Walking.{IsWalkVerdict};

    /// The verdict on the second list. `Unsteady` exactly if that list is empty, has more than 65,536 slots, or has another owner of some
    /// page's magazine before its slot 0 than the first list has. Otherwise the verdict on the second list; if both lists are equal and not
    /// empty, it is that of `certify`. If it is `Yes`, each page of the second list is seen. Allocates no memory.
    pub fn finish(self) -> Verdict
        ensures verdict { (x y : List (List ℕ)) → Stands self.entry x y →
            IsWalkVerdict x y (second_pages self.entry) (second_certificate self.entry) result }
        ensures seen { (x y : List (List ℕ)) → Stands self.entry x y → Means y (second_pages self.entry) (second_certificate self.entry) result }
    {
        crate::laws::accepted_is_seen();
        ttx_page::laws::pages_keep_their_rules();
        ttx_witness::certificate_laws::certificates_keep_their_rules();
        match self.end() {
            Some(ended) => judge(&ended),
            None => Verdict::No(Reason::Unsteady),
        }
    }

    /// The verdict of `finish`, and the first reason of each page for the second list; no reasons where the verdict is `Unsteady`.
    pub fn finish_all(self, alloc: Global) -> Result<AllReasons, NoMemory>
        ensures verdict { IfOk result (λ all. (x y : List (List ℕ)) → Stands self.entry x y →
            IsWalkVerdict x y (second_pages self.entry) (second_certificate self.entry) all.verdict) }
        ensures seen { IfOk result (λ all. (x y : List (List ℕ)) → Stands self.entry x y →
            Means y (second_pages self.entry) (second_certificate self.entry) all.verdict) }
        ensures reasons { IfOk result (λ all. (x y : List (List ℕ)) → Stands self.entry x y → IsBorneOut x y (second_pages self.entry) →
            AreReasons y (second_pages self.entry) (second_certificate self.entry) all.pages.items) }
    {
        crate::laws::accepted_is_seen();
        ttx_page::laws::pages_keep_their_rules();
        ttx_witness::certificate_laws::certificates_keep_their_rules();
        match self.end() {
            Some(ended) => judge_all(alloc, &ended),
            None => Ok(AllReasons {
                verdict: Verdict::No(Reason::Unsteady),
                pages: Vec::new(alloc),
            }),
        }
    }
}
