//! The first text of a log, and its edition.

ghost use Rattle.std.specs.Prelude.{◌≡◌, map};
ghost use Rattle.ttx_air.specs.Newsrooms.{candidate_of};
ghost use Rattle.ttx_archive.specs.Archives.{text_of};
ghost use Rattle.ttx_logbook.specs.Views.{entry_of};
ghost use Rattle.ttx_broadcast.specs.Replays.{Finds, Records, Opens};

use crate::recordings::faults::ReplayFault;
use std::alloc::Global;
use ttx_air::PressFault;
use ttx_archive::{FiledText, RecallFault, Recorded, find_text, recall};
use ttx_logbook::Entry;
use ttx_press::{Demand, Opening, opened};

/// The first text.
pub(crate) fn first_text<'a>(
    archive: &'a [FiledText],
    digest: &'a str,
) -> Result<&'a FiledText, ReplayFault<'a>>
    ensures { Finds (map text_of archive.now) digest.entry.now result }
{
    match find_text(archive, digest) {
        Some(filed) => Ok(filed),
        None => Err(ReplayFault::Lost { digest }),
    }
}

/// What the log records.
pub(crate) fn records<'a>(
    alloc: Global,
    archive: &'a [FiledText],
    later: &[Entry<'a>],
) -> Result<Vec<Recorded<'a>>, ReplayFault<'a>>
    ensures { Records (map text_of archive.now) (map entry_of later.now) result }
{
    match recall(alloc, archive, later) {
        Ok(records) => Ok(records),
        Err(RecallFault::Lost { digest }) => Err(ReplayFault::Lost { digest }),
        Err(RecallFault::NoMemory) => Err(ReplayFault::NoMemory),
    }
}

/// The house and the edition of the first text.
pub(crate) fn first_opened<'a>(
    alloc: Global,
    demand: Demand,
    text: &[u8],
) -> Result<Opening, ReplayFault<'a>>
    ensures { Opens demand text.now result }
{
    match opened(alloc, demand, text) {
        Ok(opening) => Ok(opening),
        Err(PressFault::Refused(words)) => Err(ReplayFault::Refused(words)),
        Err(PressFault::NoMemory) => Err(ReplayFault::NoMemory),
    }
}
