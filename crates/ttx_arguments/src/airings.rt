//! The order of `air`.

ghost use Rattle.std.specs.Prelude.{◌≡◌, option_map};
ghost use Rattle.clap.specs.Words.{rows_of, found_of};
ghost use Rattle.ttx_arguments.specs.Orders.{air_start_at, air_within, air_at, IsOrderOf};
ghost use Rattle.ttx_arguments.specs.Timings.{start_view};

use crate::arguments::Argument;
use crate::orders::{AirOrder, AirReplayOrder, Order, Start, Timing, WordsFault};
use crate::seconds::fields_of;
use crate::timings::{clock_of, start_of};
use crate::values::{given, given_number, is_set, repeat_of, text_of};
use clap::ArgMatches;

// When the air begins.
fn air_start<'a>(values: &ArgMatches<'a>) -> Option<Start<'a>>
    ensures { option_map start_view result ≡ air_start_at (rows_of (found_of values.now)) }
{
    match given(values, Argument::AirAt) {
        Some(text) => start_of(text),
        None => start_of("now"),
    }
}

// What `air` is asked for with these seconds.
fn air_within<'a>(values: &ArgMatches<'a>, seconds: &str) -> Result<Order<'a>, WordsFault>
    ensures { IsOrderOf result (air_within seconds.now (rows_of (found_of values.now))) }
{
    match (fields_of(seconds), air_start(values), clock_of(values)) {
        (None, _, _) => Err(WordsFault::Seconds),
        (Some(_), None, _) => Err(WordsFault::Time),
        (Some(_), Some(_), None) => Err(WordsFault::Clocks),
        (Some(within), Some(start), Some(clock)) => Ok(Order::Air(AirOrder {
            service: text_of(values, Argument::Watched),
            within,
            repeat: repeat_of(values),
            timing: Timing { start, clock },
            fields: given_number(values, Argument::AirFields),
            late: !is_set(values, Argument::AtOnce),
            spread: is_set(values, Argument::Spread),
            log: given(values, Argument::AirLog),
            force: is_set(values, Argument::Force),
        })),
    }
}

pub(crate) fn air_of<'a>(values: &ArgMatches<'a>) -> Result<Order<'a>, WordsFault>
    ensures { IsOrderOf result (air_at (rows_of (found_of values.now))) }
{
    match (
        given(values, Argument::AirReplay),
        given(values, Argument::AirWithin),
    ) {
        (Some(log), _) => Ok(Order::AirReplay(AirReplayOrder {
            log,
            texts: text_of(values, Argument::Watched),
            force: is_set(values, Argument::Force),
        })),
        (None, Some(seconds)) => air_within(values, seconds),
        (None, None) => Err(WordsFault::Within),
    }
}
