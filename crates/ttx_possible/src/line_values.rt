//! The values of `lines` with which a cycle brings pages to viewers.

ghost use Rattle.std.specs.Prelude.{◌≡◌, ◌≢◌, ◌≤◌, ◌<◌, ◌↔◌, IfOk, IsTrue, MatchOption, map};
ghost use Rattle.std.specs.List.{AllPairs};
ghost use Rattle.ttx_cycle.specs.Cycles.{slots_of};
ghost use Rattle.ttx_page.specs.Views.{page_of, ids_of};
ghost use Rattle.ttx_source.specs.Services.{pages_of};
ghost use Rattle.ttx_possible.specs.Values.{HasDeadline, NoneHas, IsFirst, IsLast, AreFirst};

use std::alloc::Global;
use ttx_cycle::Cycle;
use ttx_page::Page;
use ttx_source::Service;
use ttx_witness::{NoMemory, find};

/// Values of `lines` without a gap, `first` to `last`.
#[derive(Clone, Copy, Debug)]
pub struct Values {
    pub first: u8,
    pub last: u8,
}

// Whether the pages have a deadline with these lines of a field.
fn has_deadline(alloc: Global, cycle: &Cycle, pages: &[Page], lines: u8) -> Result<bool, NoMemory>
    requires some { 1 ≤ lines }
    requires few { lines ≤ 32 }
    requires distinct { AllPairs (λ a b. a ≢ b) (ids_of pages.now) }
    ensures { IfOk result (λ has. IsTrue has ↔ HasDeadline (slots_of cycle.now) (map page_of pages.now) lines) }
{
    ttx_witness::certificate_laws::certificates_keep_their_rules();
    let found = find(alloc, cycle, pages, 1, lines)?;
    Ok(found.deadline.is_some())
}

// The least value with a deadline.
fn first_value(alloc: Global, cycle: &Cycle, pages: &[Page]) -> Result<Option<u8>, NoMemory>
    requires distinct { AllPairs (λ a b. a ≢ b) (ids_of pages.now) }
    ensures { IfOk result (λ found. MatchOption found (NoneHas (slots_of cycle.now) (map page_of pages.now))
        (IsFirst (slots_of cycle.now) (map page_of pages.now))) }
{
    for lines in 1..33u8 {
        if has_deadline(alloc, cycle, pages, lines)? {
            return Ok(Some(lines));
        }
    }
    Ok(None)
}

// The last value up to which each one from `first` has a deadline.
fn last_value(alloc: Global, cycle: &Cycle, pages: &[Page], first: u8) -> Result<u8, NoMemory>
    requires distinct { AllPairs (λ a b. a ≢ b) (ids_of pages.now) }
    requires is_first { IsFirst (slots_of cycle.now) (map page_of pages.now) first }
    ensures { IfOk result (IsLast (slots_of cycle.now) (map page_of pages.now) first) }
{
    for lines in first + 1..33u8 {
        if !has_deadline(alloc, cycle, pages, lines)? {
            return Ok(lines - 1);
        }
    }
    Ok(32)
}

// The least value with a deadline, and those that follow it without a gap.
fn values_of(alloc: Global, cycle: &Cycle, pages: &[Page]) -> Result<Option<Values>, NoMemory>
    requires distinct { AllPairs (λ a b. a ≢ b) (ids_of pages.now) }
    ensures { IfOk result (λ found. MatchOption found (NoneHas (slots_of cycle.now) (map page_of pages.now))
        (AreFirst (slots_of cycle.now) (map page_of pages.now))) }
{
    let Some(first) = first_value(alloc, cycle, pages)? else {
        return Ok(None);
    };
    let last = last_value(alloc, cycle, pages, first)?;
    Ok(Some(Values { first, last }))
}

/// The least value of `lines`, 1 to 32, with which the pages of a service have a deadline, and those that follow it without a gap: with each of
/// them some certificate of class any with the repeat count 1 is accepted. `None` if with no value one is. The `lines` of the service itself are
/// of no account. `Err` if memory runs out.
pub fn first_values(
    alloc: Global,
    cycle: &Cycle,
    service: &Service,
) -> Result<Option<Values>, NoMemory>
    ensures { IfOk result (λ found. MatchOption found (NoneHas (slots_of cycle.now) (pages_of service.now))
        (AreFirst (slots_of cycle.now) (pages_of service.now))) }
{
    values_of(alloc, cycle, service.pages())
}
