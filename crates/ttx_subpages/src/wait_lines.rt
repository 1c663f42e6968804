//! The lines that say how long viewers see the subpages of a number, and how long they wait for each.

ghost use Rattle.std.specs.Prelude.{◌≡◌, ◌≤◌, ◌++◌, IfOk, OnOk, string_bytes};
ghost use Rattle.ttx_cycle.specs.Cycles.{slots_of};
ghost use Rattle.ttx_subpages.specs.NumberWaits.{in_tenth, tenths, tenths_up, tenths_text, amounts_text};
ghost use Rattle.ttx_subpages.specs.NumberWaits.{number_wait_line, number_waits_text, IsNumberWaits};

use crate::reports::{NumberReport, number_reports};
use std::alloc::{AllocError, Global};
use ttx_cycle::Cycle;
use ttx_numbers::push_number;
use ttx_source::Service;
use ttx_witness::NoMemory;

// The slots in a tenth of a second, at 50 fields a second.
fn in_tenth(lines: u8) -> u128
    ensures { result ≡ in_tenth lines }
{
    5 * u128::from(lines)
}

// Whole tenths of a second.
fn tenths(lines: u8, slots: usize) -> u128
    requires { 1 ≤ lines }
    ensures { result ≡ tenths lines slots }
{
    slots as u128 / in_tenth(lines)
}

// Tenths of a second, rounded up.
fn tenths_up(lines: u8, slots: usize) -> u128
    requires { 1 ≤ lines }
    ensures { result ≡ tenths_up lines slots }
{
    (slots as u128 + in_tenth(lines) - 1) / in_tenth(lines)
}

// Appends tenths of a second as seconds.
fn push_tenths(text: &mut String, tenths: u128) -> Result<(), AllocError>
    ensures { OnOk result (string_bytes text.new ≡ string_bytes text.old ++ tenths_text tenths) }
{
    let whole = tenths / 10;
    let rest = tenths % 10;
    write!(text, "{whole}.{rest} s")
}

// Appends how long each subpage of a number is shown, and when it comes again.
fn push_amounts(
    text: &mut String,
    lines: u8,
    stay: usize,
    interval: Option<usize>,
) -> Result<(), AllocError>
    requires { 1 ≤ lines }
    ensures { OnOk result (string_bytes text.new ≡ string_bytes text.old ++ amounts_text lines stay interval) }
{
    match interval {
        Some(interval) => {
            text.push_str("each at least ")?;
            push_tenths(text, tenths(lines, stay))?;
            text.push_str(", again within ")?;
            push_tenths(text, tenths_up(lines, interval))
        }
        None => text.push_str("not all sent"),
    }
}

// Appends the line of a number.
fn push_line(text: &mut String, lines: u8, report: NumberReport) -> Result<(), AllocError>
    requires { 1 ≤ lines }
    ensures { OnOk result (string_bytes text.new ≡ string_bytes text.old ++ number_wait_line lines report) }
{
    push_number(text, report.first)?;
    let pages = report.pages;
    write!(text, " {pages} subpages, ")?;
    push_amounts(text, lines, report.stay, report.interval)?;
    text.push('\n')
}

// Appends the line of each number.
fn push_lines(text: &mut String, lines: u8, reports: &[NumberReport]) -> Result<(), AllocError>
    requires { 1 ≤ lines }
    ensures { OnOk result (string_bytes text.new ≡ string_bytes text.old ++ number_waits_text lines reports.now) }
{
    for one in reports {
        push_line(text, lines, *one)?;
    }
    Ok(())
}

/// The lines of the numbers with several pages, in the order of their first pages: how many pages the number has, for how many seconds at
/// least a receiver that shows a page where it ends shows each of them, rounded down, and within how many seconds each comes again,
/// rounded up. If a page of the number is not sent, the line says so in place of the seconds. `Err` if memory runs out.
pub fn number_waits(alloc: Global, cycle: &Cycle, service: &Service) -> Result<String, NoMemory>
    ensures { IfOk result (λ text. IsNumberWaits (slots_of cycle.now) service.now (string_bytes text)) }
{
    let reports = number_reports(alloc, cycle, service.pages())?;
    let mut text = String::new(alloc);
    match push_lines(&mut text, service.lines(), reports.as_slice()) {
        Ok(()) => Ok(text),
        Err(_) => Err(NoMemory),
    }
}
