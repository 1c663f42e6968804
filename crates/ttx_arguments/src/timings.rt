//! When a sending begins, and which clock its page headers show.

ghost use Rattle.std.specs.Prelude.{◌≡◌, option_map};
ghost use Rattle.clap.specs.Words.{rows_of, found_of};
ghost use Rattle.ttx_arguments.specs.Orders.{half_hours_given, clock_at};
ghost use Rattle.ttx_arguments.specs.Timings as rule;
ghost use Rattle.ttx_arguments.specs.Timings.{start_view, start_dated, start_named, clock_view};
ghost use Rattle.ttx_arguments.specs.declared.arguments.Argument.TheVariants as argument;

use crate::arguments::Argument;
use crate::moments::{is_dated, moment_of};
use crate::orders::{Clock, Start};
use crate::ranges::Offset;
use crate::values::given;
use clap::ArgMatches;

// The moment that a text of the form `MJD/HHMMSS` names.
fn dated<'a>(text: &'a str) -> Option<Start<'a>>
    ensures { option_map start_view result ≡ start_dated text.now }
{
    let moment = moment_of(text)?;
    Some(Start::Utc(moment))
}

/// The time of the first field, by the text of `--at`.
pub(crate) fn start_of<'a>(text: &'a str) -> Option<Start<'a>>
    ensures { option_map start_view result ≡ start_named text.now }
{
    if text == "now" {
        return Some(Start::Now);
    }
    if is_dated(text.as_bytes()) {
        return dated(text);
    }
    Some(Start::Named(text))
}

// The number below 1,000 that a text is, after an optional sign.
fn signed_numeral(text: &str) -> Option<i32>
    ensures { result ≡ rule.signed_numeral text.now }
{
    match text.parse::<i32>() {
        Ok(number) if number.unsigned_abs() < 1000 => Some(number),
        _ => None,
    }
}

// So many half hours, from -24 to 47.
fn half_hours(number: i32) -> Option<Offset>
    ensures { result ≡ rule.half_hours number }
{
    if -24 <= number && number <= 47 {
        Some(Offset::new(number as i8))
    } else {
        None
    }
}

// The half hours given to `--offset`.
fn given_offset(values: &ArgMatches<'_>) -> Option<Offset>
    ensures { result ≡ half_hours_given (rows_of (found_of values.now)) }
{
    match given(values, Argument::Offset) {
        Some(text) => half_hours(signed_numeral(text)?),
        None => None,
    }
}

/// The clock of `--offset` or `--zone`, or UTC without either. `None` with both.
pub(crate) fn clock_of<'a>(values: &ArgMatches<'a>) -> Option<Clock<'a>>
    ensures { option_map clock_view result ≡ clock_at (rows_of (found_of values.now)) }
{
    match (given_offset(values), given(values, Argument::Zone)) {
        (None, None) => Some(Clock::Ahead(Offset::new(0))),
        (Some(offset), None) => Some(Clock::Ahead(offset)),
        (None, Some(name)) => Some(Clock::Zone(name)),
        (Some(_), Some(_)) => None,
    }
}
