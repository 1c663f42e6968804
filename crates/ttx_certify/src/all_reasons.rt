//! The first reason of each page, beside the verdict.

ghost use Rattle.std.specs.Prelude.{ℕ, List, IfOk};
ghost use Rattle.ttx_certify.specs.walks.Passing.{IsEnded, ended_pages, ended_certificate};
ghost use Rattle.ttx_certify.specs.AllReasons.{AreReasons};
ghost use Rattle.ttx_certify.specs.Verdicts.{IsVerdict};

use crate::verdict::Verdict;
use crate::verdicts::{fault_at, judge};
use crate::walks::page_results::EndedWalk;
use std::alloc::Global;
use ttx_witness::{NoMemory, Reason};

/// The first reason of a page, if there is one.
#[derive(Clone, Copy)]
pub struct PageReason {
    pub reason: Option<Reason>,
}

/// The verdict, and the first reason of each page of the list, if it has one.
#[derive(Drop)]
pub struct AllReasons {
    pub verdict: Verdict,
    pub pages: Vec<PageReason>,
}

// The first reason of each page.
fn reasons_of(alloc: Global, ended: &EndedWalk) -> Result<Vec<PageReason>, NoMemory>
    ensures { IfOk result (λ told. (y : List (List ℕ)) → IsEnded ended.now y →
        AreReasons y (ended_pages ended.now) (ended_certificate ended.now) told.items) }
{
    ttx_witness::certificate_laws::certificates_keep_their_rules();
    crate::verdict_laws::reasons_are_true();
    let mut told = Vec::new(alloc);
    for index in 0..ended.pages.len() {
        let reason = fault_at(ended, index);
        if told.push(PageReason { reason }).is_err() {
            return Err(NoMemory);
        }
    }
    Ok(told)
}

/// The verdict of `judge`, and the first reason of each page.
pub fn judge_all(alloc: Global, ended: &EndedWalk) -> Result<AllReasons, NoMemory>
    ensures verdict { IfOk result (λ all. (y : List (List ℕ)) → IsEnded ended.now y →
        IsVerdict y (ended_pages ended.now) (ended_certificate ended.now) all.verdict) }
    ensures reasons { IfOk result (λ all. (y : List (List ℕ)) → IsEnded ended.now y →
        AreReasons y (ended_pages ended.now) (ended_certificate ended.now) all.pages.items) }
{
    let verdict = judge(ended);
    let pages = reasons_of(alloc, ended)?;
    Ok(AllReasons { verdict, pages })
}
