//! What a log records, with the texts of an archive.

ghost use Rattle.std.specs.Prelude.{◌≡◌, IfOk, IfErr, map};
ghost use Rattle.ttx_logbook.specs.Views.{entry_of};
ghost use Rattle.ttx_archive.specs.Archives.{text_of, recorded_of, Recalls, IsRecalled, IsAdded, IsLostIn};

use crate::digests::find_text;
use crate::filed::FiledText;
use crate::recorded::{Recorded, Told};
use std::alloc::Global;
use ttx_logbook::{Entry, Event};

/// Why a log is not recalled.
#[derive(Drop)]
pub enum RecallFault<'a> {
    /// The archive has no text with this digest.
    Lost { digest: &'a str },
    /// Memory ran out.
    NoMemory,
}

// What a line records; `None` if nothing, at the end.
fn recorded<'a>(
    archive: &'a [FiledText],
    entry: Entry<'a>,
) -> Result<Option<Recorded<'a>>, RecallFault<'a>>
    ensures { IsRecalled (map text_of archive.now) (entry_of entry.entry) result }
{
    let told = match entry.event {
        Event::Changed { digest, words: _ } => match find_text(archive, digest) {
            Some(filed) => Told::Changed(filed),
            None => return Err(RecallFault::Lost { digest }),
        },
        Event::Kept { digest, words } => Told::Kept { digest, words },
        Event::Unread { words } => Told::Unread { words },
        Event::End => return Ok(None),
    };
    Ok(Some(Recorded {
        field: entry.field,
        told,
    }))
}

// Adds what a line records.
fn add<'a>(
    told: &mut Vec<Recorded<'a>>,
    archive: &'a [FiledText],
    entry: Entry<'a>,
) -> Result<(), RecallFault<'a>>
    ensures { IsAdded (map text_of archive.now) (entry_of entry.entry) told.old.items told.new.items result }
{
    let Some(recorded) = recorded(archive, entry)? else {
        return Ok(());
    };
    match told.push(recorded) {
        Ok(()) => Ok(()),
        Err(_) => Err(RecallFault::NoMemory),
    }
}

/// What these lines of a log record, with the texts that took over. Refused if the archive lacks one of them.
pub fn recall<'a>(
    alloc: Global,
    archive: &'a [FiledText],
    entries: &[Entry<'a>],
) -> Result<Vec<Recorded<'a>>, RecallFault<'a>>
    ensures recalled { IfOk result (λ v. Recalls (map text_of archive.now) (map entry_of entries.now) (map recorded_of v.items)) }
    ensures lost { IfErr result (IsLostIn (map text_of archive.now) (map entry_of entries.now)) }
{
    let mut told = Vec::new(alloc);
    for entry in entries {
        if let Err(fault) = add(&mut told, archive, *entry) {
            return Err(fault);
        }
    }
    Ok(told)
}
