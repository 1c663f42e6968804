//! How long viewers see the subpages of a number, and how long they wait for each.

ghost use Rattle.std.specs.Prelude.{◌≡◌, ◌≤◌, ◌++◌, Some, IfOk, OnOk, string_bytes};
ghost use Rattle.ttx_cycle.specs.Cycles.{slots_of};
ghost use Rattle.ttx_subpages.specs.NumberWaits.{tenths, tenths_up};
ghost use Rattle.ttx_records.specs.Names.{line};
ghost use Rattle.ttx_records.specs.NumberWaits as rule;

use crate::numbers::number_text;
use std::alloc::{AllocError, Global};
use ttx_cycle::Cycle;
use ttx_json::{count, flag, push_object, word};
use ttx_source::Service;
use ttx_subpages::{NumberReport, number_reports};
use ttx_witness::NoMemory;

// Slots as tenths of a second, at 50 fields a second.
fn tenths(lines: u8, slots: usize) -> u128
    requires { 1 ≤ lines }
    ensures { result ≡ tenths lines slots }
{
    slots as u128 / (5 * u128::from(lines))
}

// The same rounded up.
fn tenths_up(lines: u8, slots: usize) -> u128
    requires { 1 ≤ lines }
    ensures { result ≡ tenths_up lines slots }
{
    (slots as u128 + 5 * u128::from(lines) - 1) / (5 * u128::from(lines))
}

// Tenths of a second as seconds.
fn seconds_text(alloc: Global, tenths: u128) -> Result<String, AllocError>
    ensures { IfOk result (λ text. string_bytes text ≡ rule.seconds_text tenths) }
{
    let mut text = String::new(alloc);
    let whole = tenths / 10;
    let rest = tenths % 10;
    write!(text, "{whole}.{rest}")?;
    Ok(text)
}

// Adds a number of which not all pages are sent.
#[tactic(auto, unfolding(crate::specs::Names::line))]
fn push_never(alloc: Global, text: &mut String, report: NumberReport) -> Result<(), AllocError>
    ensures { OnOk result (string_bytes text.new ≡ string_bytes text.old ++ line (rule.never_members report)) }
{
    let number = number_text(alloc, report.first)?;
    let members = [
        word("page_number", number.as_str()),
        count("subpages", report.pages as u64),
        flag("never", true),
    ];
    push_object(alloc, text, &members)
}

// Adds a number whose subpages come again within so many slots.
#[tactic(auto, unfolding(crate::specs::Names::line))]
fn push_again(
    alloc: Global,
    text: &mut String,
    lines: u8,
    report: NumberReport,
    interval: usize,
) -> Result<(), AllocError>
    requires { 1 ≤ lines }
    ensures { OnOk result (string_bytes text.new ≡ string_bytes text.old ++ line (rule.again_members lines report interval)) }
{
    let number = number_text(alloc, report.first)?;
    let each = seconds_text(alloc, tenths(lines, report.stay))?;
    let again = seconds_text(alloc, tenths_up(lines, interval))?;
    let members = [
        word("page_number", number.as_str()),
        count("subpages", report.pages as u64),
        word("each", each.as_str()),
        word("again", again.as_str()),
    ];
    push_object(alloc, text, &members)
}

// Adds a number.
#[tactic(auto, unfolding(crate::specs::NumberWaits::number_wait_record))]
fn push_one(
    alloc: Global,
    text: &mut String,
    lines: u8,
    report: NumberReport,
) -> Result<(), AllocError>
    requires { 1 ≤ lines }
    ensures { OnOk result (string_bytes text.new ≡ string_bytes text.old ++ rule.number_wait_record lines report) }
{
    match report.interval {
        None => push_never(alloc, text, report),
        Some(interval) => push_again(alloc, text, lines, report, interval),
    }
}

// Adds each number.
fn push_each(
    alloc: Global,
    text: &mut String,
    lines: u8,
    reports: &[NumberReport],
) -> Result<(), AllocError>
    requires { 1 ≤ lines }
    ensures { OnOk result (string_bytes text.new ≡ string_bytes text.old ++ rule.number_wait_records lines reports.now) }
{
    for report in reports {
        push_one(alloc, text, lines, *report)?;
    }
    Ok(())
}

/// An object for each number with several pages, with the names and values of the lines of `number_waits`, in their order: `page_number`,
/// `subpages`, and `each` and `again`, in seconds as a text with one decimal, or `never`, if a page of the number is not sent. `Err` if
/// memory runs out.
pub fn report_number_waits(
    alloc: Global,
    cycle: &Cycle,
    service: &Service,
) -> Result<String, NoMemory>
    ensures { IfOk result (λ text. rule.IsNumberWaitRecord (slots_of cycle.now) service.now (string_bytes text)) }
{
    let reports = number_reports(alloc, cycle, service.pages())?;
    let mut text = String::new(alloc);
    match push_each(alloc, &mut text, service.lines(), reports.as_slice()) {
        Ok(()) => Ok(text),
        Err(_) => Err(NoMemory),
    }
}
