//! The report on each number with several pages.

ghost use Rattle.std.specs.Prelude.{◌≡◌, ◌+◌, ◌++◌, ◌∷◌, ◌<◌, [], IfOk, OnOk, length, map};
ghost use Rattle.ttx_page.specs.Streams.{repeated};
ghost use Rattle.ttx_page.specs.Views.{page_of};
ghost use Rattle.ttx_page.specs.declared.selection.Selection.TheVariants.{AnySub};
ghost use Rattle.ttx_cycle.specs.Cycles.{slots_of};
ghost use Rattle.ttx_subpages.specs.Intervals.{IsIntervalOf};
ghost use Rattle.ttx_subpages.specs.NumberReports.{IsStayOrNone, AreReportsBelow, AreReports};

use crate::intervals::longest_interval;
use crate::numbers::{count_of, is_first};
use crate::stays::least_stay;
use std::alloc::Global;
use ttx_cycle::Cycle;
use ttx_header::PageId;
use ttx_page::{Page, Selection};
use ttx_witness::NoMemory;

/// A number with several pages: the first of its pages in the list, how many there are, for how many slots at least a receiver that shows
/// a page where it ends shows each of them, and after how many slots at most each comes again (`None` if one of them is not sent).
#[derive(Clone, Copy)]
pub struct NumberReport {
    pub first: PageId,
    pub pages: usize,
    pub stay: usize,
    pub interval: Option<usize>,
}

// The report on the number of the page with this id.
fn report(cycle: &Cycle, pages: &[Page], first: PageId, count: usize) -> NumberReport
    ensures id { result.first ≡ first }
    ensures pages { result.pages ≡ count }
    ensures stay { IsStayOrNone (repeated (slots_of cycle.now)) (AnySub first.mag first.page) result.stay }
    ensures interval { IsIntervalOf (repeated (slots_of cycle.now)) (map page_of pages.now) first.mag first.page result.interval }
{
    let (mag, number) = (first.mag(), first.page());
    let stay = match least_stay(cycle, Selection::AnySub(mag, number)) {
        Some(stay) => stay,
        None => 0,
    };
    NumberReport {
        first,
        pages: count,
        stay,
        interval: longest_interval(cycle, pages, mag, number),
    }
}

// Keeps the report on a number.
fn keep(reports: &mut Vec<NumberReport>, report: NumberReport) -> Result<(), NoMemory>
    ensures { OnOk result (reports.new.items ≡ reports.old.items ++ report ∷ []) }
{
    if reports.push(report).is_err() {
        return Err(NoMemory);
    }
    Ok(())
}

// Notes the number of the page at `index`, if it has several pages and this is the first.
fn note(
    reports: &mut Vec<NumberReport>,
    cycle: &Cycle,
    pages: &[Page],
    index: usize,
) -> Result<(), NoMemory>
    requires { index < length pages.now }
    ensures { OnOk result (AreReportsBelow (repeated (slots_of cycle.now)) (map page_of pages.now) index reports.old.items →
        AreReportsBelow (repeated (slots_of cycle.now)) (map page_of pages.now) (index + 1) reports.new.items) }
{
    let first = pages[index].id();
    if !is_first(pages, first) {
        return Ok(());
    }
    let count = count_of(pages, first.mag(), first.page());
    if count < 2 {
        return Ok(());
    }
    keep(reports, report(cycle, pages, first, count))?;
    Ok(())
}

/// The report on each number with several pages, in the order of its first page.
pub fn number_reports(
    alloc: Global,
    cycle: &Cycle,
    pages: &[Page],
) -> Result<Vec<NumberReport>, NoMemory>
    ensures { IfOk result (λ reports. AreReports (repeated (slots_of cycle.now)) (map page_of pages.now) reports.items) }
{
    let mut reports = Vec::new(alloc);
    for index in 0..pages.len() {
        note(&mut reports, cycle, pages, index)?;
    }
    Ok(reports)
}
