//! The first line of what is left of a log.

ghost use Rattle.std.specs.Prelude.{◌≡◌, ◌<◌, ◌++◌, ◌∷◌, MatchOption, length};
ghost use Rattle.ttx_logbook.specs.LogTexts.{settings_text, start_text, entry_text, IsSettings, IsStart, IsEntry};
ghost use Rattle.ttx_logbook.specs.Logs.{IsNoSettings, IsNoStart, IsNoEntry};
ghost use Rattle.ttx_logbook.specs.Views.{settings_of, start_of, entry_of};

use crate::cuts::cut;
use crate::entries::{entry, start};
use crate::settings::settings;
use crate::values::{Entry, Settings, Start};

/// What an air was asked for, and what follows the first line.
pub(crate) fn first_settings<'a>(text: &'a str) -> Option<(Settings<'a>, &'a str)>
    ensures { MatchOption result (IsNoSettings text.now)
        (λ p. IsSettings (settings_of p.0) × (text.now ≡ settings_text (settings_of p.0) ++ 10 ∷ p.1.now)) }
{
    let (line, rest) = cut(text, '\n')?;
    match settings(line) {
        Some(settings) => Some((settings, rest)),
        None => None,
    }
}

/// The first text, and what follows its line.
pub(crate) fn first_start<'a>(text: &'a str) -> Option<(Start<'a>, &'a str)>
    ensures { MatchOption result (IsNoStart text.now)
        (λ p. IsStart (start_of p.0) × (text.now ≡ start_text (start_of p.0) ++ 10 ∷ p.1.now)) }
{
    let (line, rest) = cut(text, '\n')?;
    match start(line) {
        Some(start) => Some((start, rest)),
        None => None,
    }
}

/// What happened, and what follows the line.
pub(crate) fn first_entry<'a>(text: &'a str) -> Option<(Entry<'a>, &'a str)>
    ensures { MatchOption result (IsNoEntry text.now)
        (λ p. IsEntry (entry_of p.0) × (text.now ≡ entry_text (entry_of p.0) ++ 10 ∷ p.1.now)) }
{
    let (line, rest) = cut(text, '\n')?;
    match entry(line) {
        Some(entry) => Some((entry, rest)),
        None => None,
    }
}
