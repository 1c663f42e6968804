//! The lines of a log behind the first one.

ghost use Rattle.std.specs.Prelude.{◌≡◌, option_map};
ghost use Rattle.ttx_logbook.specs.Views.{event_of, start_of, entry_of};
ghost use Rattle.ttx_logbook.specs.EntryReading as rule;

use crate::cuts::{after, cut};
use crate::numbers::keyed_number;
use crate::values::{Entry, Event, Start};

// The digest of a text, and the words behind it.
#[tactic(auto, unfolding(crate::specs::EntryReading::marked))]
fn marked<'a>(text: &'a str) -> Option<(&'a str, &'a str)>
    ensures { option_map (λ p. (p.0.now, p.1.now)) result ≡ rule.marked text.now }
{
    let (digest, rest) = cut(text, ':')?;
    let words = after(rest, " ")?;
    Some((digest, words))
}

// The text that took over.
#[tactic(auto, unfolding(crate::specs::EntryReading::changed_in))]
fn changed<'a>(text: &'a str) -> Option<Event<'a>>
    ensures { option_map event_of result ≡ rule.changed_in text.now }
{
    let (digest, words) = marked(after(text, "changed ")?)?;
    Some(Event::Changed { digest, words })
}

// The text that was not taken.
#[tactic(auto, unfolding(crate::specs::EntryReading::kept_in))]
fn kept<'a>(text: &'a str) -> Option<Event<'a>>
    ensures { option_map event_of result ≡ rule.kept_in text.now }
{
    if let Some(words) = after(text, "kept: ") {
        return Some(Event::Unread { words });
    }
    let (digest, words) = marked(after(text, "kept ")?)?;
    Some(Event::Kept { digest, words })
}

// What happened.
#[tactic(auto, unfolding(crate::specs::EntryReading::event_in))]
fn event<'a>(text: &'a str) -> Option<Event<'a>>
    ensures { option_map event_of result ≡ rule.event_in text.now }
{
    if text == "end" {
        return Some(Event::End);
    }
    if let Some(event) = changed(text) {
        return Some(event);
    }
    kept(text)
}

// The first text, by the second line of a log.
#[tactic(auto, unfolding(crate::specs::EntryReading::start_in))]
pub(crate) fn start<'a>(line: &'a str) -> Option<Start<'a>>
    ensures { option_map start_of result ≡ rule.start_in line.now }
{
    let (field, rest) = keyed_number(line, "field ", ' ')?;
    let (time, rest) = cut(rest, ' ')?;
    let (digest, words) = marked(after(rest, "on air ")?)?;
    Some(Start {
        field,
        time,
        digest,
        words,
    })
}

/// What happened, by another line of a log.
#[tactic(auto, unfolding(crate::specs::EntryReading::entry_in))]
pub(crate) fn entry<'a>(line: &'a str) -> Option<Entry<'a>>
    ensures { option_map entry_of result ≡ rule.entry_in line.now }
{
    let (field, rest) = keyed_number(line, "field ", ' ')?;
    let (time, rest) = cut(rest, ' ')?;
    let event = event(rest)?;
    Some(Entry { field, time, event })
}
