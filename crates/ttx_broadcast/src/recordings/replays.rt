//! An air again.

ghost use Rattle.std.specs.Prelude.{◌≡◌, map};
ghost use Rattle.ttx_air.specs.Airings.{written_of, Logs};
ghost use Rattle.ttx_air.specs.Newsrooms.{candidate_of};
ghost use Rattle.ttx_archive.specs.Archives.{text_of};
ghost use Rattle.ttx_logbook.specs.Logs.{log_of};
ghost use Rattle.ttx_logbook.specs.Views.{settings_of};
ghost use Rattle.ttx_broadcast.specs.Replays.{outs_of, Sends, Replays};

use crate::recordings::faults::ReplayFault;
use crate::recordings::first_edition::{first_opened, first_text, records};
use crate::recordings::log_newsroom::LogNewsroom;
use crate::recordings::settings::{demand_of, settings_with};
use std::alloc::Global;
use std::io::Write;
use ttx_air::{Airtime, Outputs, air};
use ttx_archive::FiledText;
use ttx_cycle::{Counted, write_bytes};
use ttx_logbook::{Log, Settings, settings_line};
use ttx_press::{House, Opening};
use ttx_send::Clock;

// What was asked for, and the clock.
#[derive(Clone, Copy)]
struct Terms<'a, C> {
    settings: Settings<'a>,
    clock: C,
}

// Adds bytes to a log. If that fails, the air goes on.
fn note<L: Write>(log: &mut Counted<L>, line: &[u8])
    ensures { Logs (written_of L.contents log.old) (written_of L.contents log.new) line.now }
{
    if let Err(_) = write_bytes(log, line) {}
}

// Notes what is asked for, and puts the first edition on the air.
fn sent<'a, C: Clock, L: Write, W: Write>(
    alloc: Global,
    terms: Terms<'a, C>,
    opening: Opening,
    newsroom: &mut LogNewsroom<'a, House>,
    outputs: &mut Outputs<L, W>,
) -> Result<(), ReplayFault<'a>>
    ensures { Sends (settings_of terms.entry.settings) (C.shows terms.entry.clock) opening.house (candidate_of opening.first) newsroom.old newsroom.new
        (outs_of L.contents W.contents outputs.old) (outs_of L.contents W.contents outputs.new) result }
{
    ttx_witness::certificate_laws::certificates_keep_their_rules();
    let Opening { house, first } = opening;
    let lines = first.edition.certificate.lines();
    let settings = settings_with(&terms.settings, lines, &terms.clock);
    let Ok(line) = settings_line(alloc, &settings) else {
        return Err(ReplayFault::NoMemory);
    };
    note(&mut outputs.log, line.as_bytes());
    let airtime = Airtime {
        clock: terms.clock,
        fields: terms.settings.size.fields,
        receivers: house.receivers,
    };
    match air(alloc, first, &airtime, newsroom, outputs) {
        Ok(()) => Ok(()),
        Err(fault) => Err(ReplayFault::Air(fault)),
    }
}

/// Puts on the air again what a log says, by this clock, with the texts of an archive: the first text, and at the recorded fields those that took
/// over. What was kept off then is kept off again, with the same words.
///
/// The log of the replay begins with what was asked for, and goes on with the lines of the replay. If a text is lost, or the first one is
/// refused, nothing is written. If the replay's newsroom answers at the same ends of periods what the log records, the packets are the same
/// ones (`ttx_broadcast::laws::air_is_replayed`).
pub fn replay<'a, C: Clock, L: Write, W: Write>(
    alloc: Global,
    log: &Log<'a>,
    clock: &C,
    archive: &'a [FiledText],
    outputs: &mut Outputs<L, W>,
) -> Result<(), ReplayFault<'a>>
    ensures { Replays (map text_of archive.now) (log_of log.now) (C.shows clock.now) (outs_of L.contents W.contents outputs.old)
        (outs_of L.contents W.contents outputs.new) result }
{
    let filed = first_text(archive, log.start.digest)?;
    let records = records(alloc, archive, log.later.as_slice())?;
    let demand = demand_of(&log.settings.promise);
    let opening = first_opened(alloc, demand, filed.text.as_slice())?;
    let mut newsroom = LogNewsroom::new(opening.house, records);
    let terms = Terms {
        settings: log.settings,
        clock: *clock,
    };
    sent(alloc, terms, opening, &mut newsroom, outputs)
}
