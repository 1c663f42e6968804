//! Reports on how long viewers of a service wait, with its promises.

ghost use Rattle.std.specs.Prelude.{◌≡◌, ◌++◌, ◌≤◌, IfOk, OnOk, map, string_bytes};
ghost use Rattle.ttx_cycle.specs.Cycles.{slots_of};
ghost use Rattle.ttx_promise.specs.PromisedLines.{all_lines, end_text, items_text};
ghost use Rattle.ttx_promise.specs.PromisedReports.{IsPromisedReport, IsPromisedItemReport, IsPromisedReportWith};
ghost use Rattle.ttx_source.specs.PromiseViews.{promise_view};

use crate::absent_pages::{other_pages, push_others};
use crate::promised_lines::{push_lines, push_lines_of_items};
use crate::waits_and_promises::{PromisedWait, some_late, with_promises};
use std::alloc::{AllocError, Global};
use ttx_cycle::Cycle;
use ttx_header::PageId;
use ttx_page::Class;
use ttx_source::{Promise, Service};
use ttx_wait::{Detail, deadline_of, greatest, push_all};
use ttx_witness::{ItemWait, NoMemory, bad_slot, item_waits, waits};

/// A report: its lines, the least deadline in fields for all pages, if there is one, and whether some page breaks its promise.
#[derive(Drop)]
pub struct PromisedReport {
    pub text: String,
    pub deadline: Option<u32>,
    pub late: bool,
}

/// For which receivers and which repeat count, 1 to 8, waits are reported, and what the report has lines for.
#[derive(Clone, Copy)]
pub struct Reported {
    pub class: Class,
    pub repeat: u8,
    pub detail: Detail,
}

// Appends the line of all pages, and that of the pages that aren't in the service.
fn push_end(
    text: &mut String,
    bad: Option<u32>,
    deadline: Option<u32>,
    others: &[PageId],
) -> Result<(), AllocError>
    ensures { OnOk result (string_bytes text.new ≡ string_bytes text.old ++ end_text bad deadline others.now) }
{
    text.push_str("all")?;
    push_all(text, bad, deadline)?;
    text.push('\n')?;
    push_others(text, others)
}

// The lines of a report.
fn lines(
    alloc: Global,
    all: &[PromisedWait],
    bad: Option<u32>,
    deadline: Option<u32>,
    others: &[PageId],
) -> Result<String, AllocError>
    ensures { IfOk result (λ text. string_bytes text ≡ all_lines all.now bad deadline others.now) }
{
    let mut text = String::new(alloc);
    push_lines(&mut text, all)?;
    push_end(&mut text, bad, deadline, others)?;
    Ok(text)
}

// The lines of pages with those of their items.
fn item_lines(
    alloc: Global,
    all: &[PromisedWait],
    items: &[Vec<ItemWait>],
) -> Result<String, AllocError>
    ensures { IfOk result (λ text. string_bytes text ≡ items_text all.now (map (λ told. told.items) items.now)) }
{
    let mut text = String::new(alloc);
    push_lines_of_items(&mut text, all, items)?;
    Ok(text)
}

/// How long a viewer of each page of a service waits, as lines of text. The line of a page with a promise ends with `F fields S s of G`
/// (G in fields), or with `F fields S s late: P s` if it comes too late. Pages without a promise, and all pages together, have the lines of
/// `wait`. If there are pages on the air that the service does not have, a last line names them. `repeat` is 1 to 8. `Err` if memory runs
/// out.
pub fn report_promises(
    alloc: Global,
    cycle: &Cycle,
    service: &Service,
    class: Class,
    repeat: u8,
    promises: &[Promise],
) -> Result<PromisedReport, NoMemory>
    requires some_repeats { 1 ≤ repeat }
    requires few_repeats { repeat ≤ 8 }
    ensures { IfOk result (λ report. IsPromisedReport (slots_of cycle.now) service.now class repeat (map promise_view promises.now)
        (string_bytes report.text) report.deadline report.late) }
{
    let pages = service.pages();
    let told = waits(alloc, cycle, pages, class, repeat, service.lines())?;
    let bad = bad_slot(cycle);
    let Ok(all) = with_promises(alloc, &told, promises) else {
        return Err(NoMemory);
    };
    let Ok(others) = other_pages(alloc, cycle.slots(), pages) else {
        return Err(NoMemory);
    };
    let Ok(text) = lines(alloc, &all, bad, greatest(&told), &others) else {
        return Err(NoMemory);
    };
    Ok(PromisedReport {
        text,
        deadline: deadline_of(bad, &told),
        late: some_late(&all),
    })
}

/// The same report with a line for each item of a page that is sent unchanged, under that of the page: how long a viewer waits for the item.
pub fn report_promised_items(
    alloc: Global,
    cycle: &Cycle,
    service: &Service,
    class: Class,
    repeat: u8,
    promises: &[Promise],
) -> Result<PromisedReport, NoMemory>
    requires some_repeats { 1 ≤ repeat }
    requires few_repeats { repeat ≤ 8 }
    ensures { IfOk result (λ report. IsPromisedItemReport (slots_of cycle.now) service.now class repeat (map promise_view promises.now)
        (string_bytes report.text) report.deadline report.late) }
{
    let pages = service.pages();
    let told = waits(alloc, cycle, pages, class, repeat, service.lines())?;
    let items = item_waits(alloc, cycle, pages, class, repeat, service.lines())?;
    let bad = bad_slot(cycle);
    let Ok(all) = with_promises(alloc, &told, promises) else {
        return Err(NoMemory);
    };
    let Ok(others) = other_pages(alloc, cycle.slots(), pages) else {
        return Err(NoMemory);
    };
    let Ok(mut text) = item_lines(alloc, &all, &items) else {
        return Err(NoMemory);
    };
    let Ok(()) = push_end(&mut text, bad, greatest(&told), &others) else {
        return Err(NoMemory);
    };
    Ok(PromisedReport {
        text,
        deadline: deadline_of(bad, &told),
        late: some_late(&all),
    })
}

/// The report with lines for the pages only, or also for their items.
pub fn report_promises_with(
    alloc: Global,
    cycle: &Cycle,
    service: &Service,
    promises: &[Promise],
    reported: Reported,
) -> Result<PromisedReport, NoMemory>
    requires some_repeats { 1 ≤ reported.repeat }
    requires few_repeats { reported.repeat ≤ 8 }
    ensures { IfOk result (λ report. IsPromisedReportWith reported.detail (slots_of cycle.now) service.now reported.class reported.repeat
        (map promise_view promises.now) (string_bytes report.text) report.deadline report.late) }
{
    let Reported {
        class,
        repeat,
        detail,
    } = reported;
    match detail {
        Detail::Pages => report_promises(alloc, cycle, service, class, repeat, promises),
        Detail::Items => report_promised_items(alloc, cycle, service, class, repeat, promises),
    }
}
