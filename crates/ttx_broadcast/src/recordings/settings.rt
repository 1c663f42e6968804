//! What is asked for again.

ghost use Rattle.std.specs.Prelude.{◌≡◌, ◌<◌};
ghost use Rattle.ttx_logbook.specs.Views.{promise_of, settings_of};
ghost use Rattle.ttx_broadcast.specs.Replays.{IsDemand, settings_with};

use ttx_logbook::{Begin, Promise, Settings, Size};
use ttx_press::Demand;
use ttx_send::Clock;

/// What was promised.
pub(crate) fn demand_of(promise: &Promise) -> Demand
    ensures { IsDemand (promise_of promise.now) result }
{
    Demand {
        within: promise.within,
        repeat: promise.repeat,
        late: promise.late,
        spread: promise.spread,
    }
}

/// The settings with the lines of the first certificate, and with the moment at which the clock begins.
pub(crate) fn settings_with<'a, C: Clock>(
    settings: &Settings<'a>,
    lines: u8,
    clock: &C,
) -> Settings<'a>
    ensures value { settings_of result ≡ settings_with (settings_of settings.now) lines (C.shows clock.now 0) }
    ensures range { result.begin.second < 86400 }
{
    let begin = clock.after(0);
    Settings {
        promise: settings.promise,
        size: Size {
            lines: u32::from(lines),
            fields: settings.size.fields,
        },
        begin: Begin {
            mjd: begin.mjd(),
            second: begin.second(),
        },
        clock: settings.clock,
    }
}
