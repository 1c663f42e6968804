//! The first line of a log, written.

ghost use Rattle.std.specs.Prelude.{◌≡◌, ◌<◌, ◌++◌, ◌∷◌, [], if◌then◌else◌, OnOk, IfOk, string_bytes};
ghost use Rattle.ttx_logbook.specs.LogTexts as rule;
ghost use Rattle.ttx_logbook.specs.Views.{promise_of, size_of, begin_of, clock_of, settings_of};

use crate::values::{Begin, ClockName, Promise, Settings, Size};
use std::alloc::{AllocError, Global};

// One of two words.
fn either(first: &'static str, second: &'static str, is_first: bool) -> &'static str
    ensures { result.now ≡ (if is_first then first.now else second.now) }
{
    if is_first { first } else { second }
}

// Appends what viewers are promised.
fn push_promise(line: &mut String, promise: &Promise) -> Result<(), AllocError>
    ensures { OnOk result (string_bytes line.new ≡ string_bytes line.old ++ rule.promise_text (promise_of promise.now) []) }
{
    let (within, repeat) = (promise.within, promise.repeat);
    write!(line, "air within {within} ")?;
    write!(line, "repeat {repeat} ")?;
    line.push_str(either("late ", "at-once ", promise.late))?;
    line.push_str(either("spread ", "plain ", promise.spread))
}

// Appends the lines of a field, and how many fields are sent.
fn push_size(line: &mut String, size: &Size) -> Result<(), AllocError>
    ensures { OnOk result (string_bytes line.new ≡ string_bytes line.old ++ rule.size_text (size_of size.now) []) }
{
    let (lines, fields) = (size.lines, size.fields);
    write!(line, "lines {lines} ")?;
    write!(line, "fields {fields} ")
}

// Appends a number below 100 in two digits.
fn push_two(line: &mut String, number: u32) -> Result<(), AllocError>
    requires { number < 100 }
    ensures { OnOk result (string_bytes line.new ≡ string_bytes line.old ++ rule.two_digits number []) }
{
    line.push((b'0' + (number / 10) as u8) as char)?;
    line.push((b'0' + (number % 10) as u8) as char)
}

// Appends the time of day.
fn push_second(line: &mut String, second: u32) -> Result<(), AllocError>
    requires { second < 86400 }
    ensures { OnOk result (string_bytes line.new ≡ string_bytes line.old ++ rule.second_text second) }
{
    push_two(line, second / 3_600)?;
    push_two(line, second / 60 % 60)?;
    push_two(line, second % 60)
}

// Appends the moment of the first field.
fn push_begin(line: &mut String, begin: &Begin) -> Result<(), AllocError>
    requires { begin.now.second < 86400 }
    ensures { OnOk result (string_bytes line.new ≡ string_bytes line.old ++ rule.begin_text (begin_of begin.now) []) }
{
    let mjd = begin.mjd;
    write!(line, "at {mjd}/")?;
    push_second(line, begin.second)?;
    line.push_str(" ")
}

// Appends the clock.
fn push_clock(line: &mut String, clock: ClockName<'_>) -> Result<(), AllocError>
    ensures { OnOk result (string_bytes line.new ≡ string_bytes line.old ++ rule.clock_text (clock_of clock.entry)) }
{
    match clock {
        ClockName::Zone(name) => write!(line, "zone {name}"),
        ClockName::Ahead(seconds) => write!(line, "ahead {seconds}"),
    }
}

/// The first line of a log, with its 0A. `Err` if memory runs out.
pub fn settings_line(alloc: Global, settings: &Settings<'_>) -> Result<String, AllocError>
    requires { settings.now.begin.second < 86400 }
    ensures { IfOk result (λ line. string_bytes line ≡ rule.settings_text (settings_of settings.now) ++ 10 ∷ []) }
{
    let mut line = String::new(alloc);
    push_promise(&mut line, &settings.promise)?;
    push_size(&mut line, &settings.size)?;
    push_begin(&mut line, &settings.begin)?;
    push_clock(&mut line, settings.clock)?;
    line.push('\n')?;
    Ok(line)
}
