//! The log in a text.

ghost use Rattle.std.specs.Prelude.{◌≡◌, map, IfOk, IfErr};
ghost use Rattle.ttx_logbook.specs.LogTexts.{AreEntries, lines_text, IsLog, log_text};
ghost use Rattle.ttx_logbook.specs.Logs.{log_of, IsUnread, AreUnread};
ghost use Rattle.ttx_logbook.specs.Views.{entry_of};

use crate::lines::{first_entry, first_settings, first_start};
use crate::log::{Log, LogFault};
use crate::values::Entry;
use std::alloc::Global;

// The lines from the third one on.
fn entries<'a>(alloc: Global, text: &'a str) -> Result<Vec<Entry<'a>>, LogFault>
    ensures read { IfOk result (λ v. AreEntries (map entry_of v.items) × (text.now ≡ lines_text (map entry_of v.items))) }
    ensures refused { IfErr result (AreUnread text.now) }
{
    let mut entries = Vec::new(alloc);
    let mut rest = text;
    while !rest.is_empty() {
        let Some((entry, more)) = first_entry(rest) else {
            return Err(LogFault::Line {
                line: 3 + entries.len(),
            });
        };
        if entries.push(entry).is_err() {
            return Err(LogFault::NoMemory);
        }
        rest = more;
    }
    Ok(entries)
}

/// The log whose text this is. Refused by the number of the first line, counted from 1, that is not understood.
pub fn read_log<'a>(alloc: Global, text: &'a str) -> Result<Log<'a>, LogFault>
    ensures read { IfOk result (λ l. IsLog (log_of l) × (text.now ≡ log_text (log_of l))) }
    ensures refused { IfErr result (IsUnread text.now) }
{
    let Some((settings, rest)) = first_settings(text) else {
        return Err(LogFault::Line { line: 1 });
    };
    let Some((start, rest)) = first_start(rest) else {
        return Err(LogFault::Line { line: 2 });
    };
    let later = entries(alloc, rest)?;
    Ok(Log {
        settings,
        start,
        later,
    })
}
