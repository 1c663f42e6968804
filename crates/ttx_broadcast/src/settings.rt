//! The first line of a log.

ghost use Rattle.std.specs.Prelude.{◌≡◌, ◌<◌, ◌++◌, OnOk, IfOk, string_bytes};
ghost use Rattle.ttx_send.specs.IsoTexts as iso;
ghost use Rattle.ttx_broadcast.specs.Settings as rule;

use crate::request::{ClockName, Request};
use std::alloc::{AllocError, Global};
use ttx_press::Demand;
use ttx_send::{Clock, Moment};

fn receivers_word(late: bool) -> &'static str
    ensures { result.now ≡ rule.receivers_word late }
{
    if late { " late" } else { " at-once" }
}

fn plan_word(spread: bool) -> &'static str
    ensures { result.now ≡ rule.plan_word spread }
{
    if spread { " spread" } else { " plain" }
}

// Appends what viewers are promised.
#[tactic(auto, unfolding(crate::specs::Settings::promise_words))]
fn push_promise(line: &mut String, demand: &Demand) -> Result<(), AllocError>
    ensures { OnOk result (string_bytes line.new ≡ string_bytes line.old ++ rule.promise_words demand.now) }
{
    let (within, repeat) = (demand.within, demand.repeat);
    write!(line, "air within {within} repeat {repeat}")?;
    line.push_str(receivers_word(demand.late))?;
    line.push_str(plan_word(demand.spread))
}

// Appends the lines of a field, and how many fields are sent.
#[tactic(auto, unfolding(crate::specs::Settings::size_words))]
fn push_size(line: &mut String, lines: u8, fields: u32) -> Result<(), AllocError>
    ensures { OnOk result (string_bytes line.new ≡ string_bytes line.old ++ rule.size_words lines fields) }
{
    write!(line, " lines {lines} fields {fields}")
}

// Appends a number below 100 in two digits.
fn push_two(line: &mut String, number: u32) -> Result<(), AllocError>
    requires { number < 100 }
    ensures { OnOk result (string_bytes line.new ≡ string_bytes line.old ++ iso.two_digits number) }
{
    line.push((b'0' + (number / 10) as u8) as char)?;
    line.push((b'0' + (number % 10) as u8) as char)
}

// Appends the time of day.
fn push_second(line: &mut String, second: u32) -> Result<(), AllocError>
    requires { second < 86400 }
    ensures { OnOk result (string_bytes line.new ≡ string_bytes line.old ++ rule.second_words second) }
{
    push_two(line, second / 3_600)?;
    push_two(line, second / 60 % 60)?;
    push_two(line, second % 60)
}

// Appends the moment of the first field.
#[tactic(auto, unfolding(crate::specs::Settings::date_words))]
fn push_date(line: &mut String, mjd: u32) -> Result<(), AllocError>
    ensures { OnOk result (string_bytes line.new ≡ string_bytes line.old ++ rule.date_words mjd) }
{
    write!(line, " at {mjd}/")
}

fn push_begin(line: &mut String, begin: &Moment) -> Result<(), AllocError>
    ensures { OnOk result (string_bytes line.new ≡ string_bytes line.old ++ rule.begin_words begin.now) }
{
    push_date(line, begin.mjd())?;
    push_second(line, begin.second())
}

// Appends the clock.
#[tactic(auto, unfolding(crate::specs::Settings::clock_words))]
fn push_clock(line: &mut String, clock: ClockName<'_>) -> Result<(), AllocError>
    ensures { OnOk result (string_bytes line.new ≡ string_bytes line.old ++ rule.clock_words clock.entry) }
{
    match clock {
        ClockName::Zone(name) => write!(line, " zone {name}"),
        ClockName::Ahead(seconds) => write!(line, " ahead {seconds}"),
    }
}

/// The first line of the log of a broadcast with so many lines in a field.
pub(crate) fn settings_text<C: Clock>(
    alloc: Global,
    request: &Request<'_, C>,
    lines: u8,
) -> Result<String, AllocError>
    ensures { IfOk result (λ line. string_bytes line ≡
        rule.settings_line request.now.demand lines request.now.fields (C.shows request.now.clock 0) request.now.name) }
{
    let mut line = String::new(alloc);
    push_promise(&mut line, &request.demand)?;
    push_size(&mut line, lines, request.fields)?;
    push_begin(&mut line, &request.clock.after(0))?;
    push_clock(&mut line, request.name)?;
    line.push('\n')?;
    Ok(line)
}
