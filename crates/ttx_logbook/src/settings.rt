//! The first line of a log.

ghost use Rattle.std.specs.Prelude.{◌≡◌, option_map};
ghost use Rattle.ttx_logbook.specs.Views.{settings_of};
ghost use Rattle.ttx_logbook.specs.SettingsReading as rule;

use crate::beginnings::{begin, clock};
use crate::promises::{promise, size};
use crate::values::Settings;

/// What an air was asked for, by the first line of its log.
#[tactic(auto, unfolding(crate::specs::SettingsReading::settings_in))]
pub(crate) fn settings<'a>(line: &'a str) -> Option<Settings<'a>>
    ensures { option_map settings_of result ≡ rule.settings_in line.now }
{
    let (promise, rest) = promise(line)?;
    let (size, rest) = size(rest)?;
    let (begin, rest) = begin(rest)?;
    let clock = clock(rest)?;
    Some(Settings {
        promise,
        size,
        begin,
        clock,
    })
}
