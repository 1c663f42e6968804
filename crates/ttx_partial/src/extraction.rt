//! The service text of what can be said.

ghost use Rattle.std.specs.Prelude.{◌≡◌, IfOk, IfErr};
ghost use Rattle.ttx_cycle.specs.Cycles.{slots_of};
ghost use Rattle.ttx_partial.specs.Asides.{aside};
ghost use Rattle.ttx_partial.specs.LeftOut.{AreLeft};
ghost use Rattle.ttx_partial.specs.Partials.{IsNoMemory, Steps, ExtractsLast, ExtractsPartly};

use crate::asides::{copied, set_aside};
use crate::left_out::{LeftOut, left_by};
use std::alloc::Global;
use ttx_cycle::Cycle;
use ttx_extract::{ExtractFault, Extracted, extract};
use ttx_header::PageId;

/// The service text of what a cycle sends, except the pages that are left out, each with its reason.
#[derive(Drop)]
pub struct Partial {
    pub extracted: Extracted,
    pub left: Vec<LeftOut>,
}

// What comes of one try.
#[derive(Drop)]
enum Step {
    Whole(Extracted),
    Without(LeftOut),
}

// The service text of a cycle, or a page that it does not have.
fn tried(alloc: Global, cycle: &Cycle, lines: u8) -> Result<Step, ExtractFault>
    ensures { Steps (slots_of cycle.now) lines result }
{
    match extract(alloc, cycle, lines) {
        Ok(extracted) => Ok(Step::Whole(extracted)),
        Err(fault) => match left_by(&fault) {
            Some(page) => Ok(Step::Without(page)),
            None => Err(fault),
        },
    }
}

// The cycle without a page's number.
fn without(alloc: Global, cycle: &Cycle, page: PageId) -> Result<Cycle, ExtractFault>
    ensures cycle { IfOk result (λ other. slots_of other ≡ aside page (slots_of cycle.now)) }
    ensures fault { IfErr result IsNoMemory }
{
    match set_aside(alloc, page, cycle) {
        Ok(other) => Ok(other),
        Err(_) => Err(ExtractFault::NoMemory),
    }
}

// The cycle itself.
fn whole(alloc: Global, cycle: &Cycle) -> Result<Cycle, ExtractFault>
    ensures cycle { IfOk result (λ other. slots_of other ≡ slots_of cycle.now) }
    ensures fault { IfErr result IsNoMemory }
{
    match copied(alloc, cycle) {
        Ok(other) => Ok(other),
        Err(_) => Err(ExtractFault::NoMemory),
    }
}

// The service text of what is left after all numbers were left out.
fn last(
    alloc: Global,
    cycle: &Cycle,
    lines: u8,
    left: Vec<LeftOut>,
) -> Result<Partial, ExtractFault>
    ensures { ExtractsLast (slots_of cycle.now) lines left.items result }
{
    match extract(alloc, cycle, lines) {
        Ok(extracted) => Ok(Partial { extracted, left }),
        Err(fault) => Err(fault),
    }
}

/// The text of the service that a cycle sends, with these lines of a field, as `extract` gives it, but without the pages that are not sent
/// unchanged. They are left out one after another, each with the fault that `extract` gives as long as it is there: the cycle goes on as if
/// each header of its number were a time-filling one. So all pages of one number are left out together.
///
/// An error is one that names no page: what `extract` gives for the cycle without the pages that were left out before.
pub fn extract_partly(alloc: Global, cycle: &Cycle, lines: u8) -> Result<Partial, ExtractFault>
    ensures { ExtractsPartly (slots_of cycle.now) lines result }
{
    let mut left = Vec::new(alloc);
    let mut rest = match whole(alloc, cycle) {
        Ok(rest) => rest,
        Err(fault) => return Err(fault),
    };
    for _ in 0..2040u32 {
        let page = match tried(alloc, &rest, lines) {
            Ok(Step::Whole(extracted)) => return Ok(Partial { extracted, left }),
            Ok(Step::Without(page)) => page,
            Err(fault) => return Err(fault),
        };
        let number = page.page;
        match left.push(page) {
            Ok(()) => (),
            Err(_) => return Err(ExtractFault::NoMemory),
        }
        rest = match without(alloc, &rest, number) {
            Ok(rest) => rest,
            Err(fault) => return Err(fault),
        };
    }
    last(alloc, &rest, lines, left)
}
