//! The lines of the log.

ghost use Rattle.std.specs.Prelude.{◌≡◌, ◌+◌, ◌*◌, ◌/◌, ◌%◌, ◌==◌, ◌++◌, ◌∷◌, [], codes, if◌then◌else◌};
ghost use Rattle.ttx_playout.specs.Takeovers.{edition_of};
ghost use Rattle.ttx_air.specs.Airings.{written_of};
ghost use Rattle.ttx_send.specs.IsoTexts.{iso_text};
ghost use Rattle.ttx_air.specs.Entries.{Adds};
ghost use Rattle.ttx_air.specs.Ticks.{tick_of};
ghost use Rattle.ttx_air.specs.Newsrooms.{candidate_of};
ghost use Rattle.ttx_air.specs.LogLines.{pages_text, seconds_text, deadline_text, field_text, edition_text, change_text, first_line, changed_line, kept_line, end_line};

use crate::candidate::Candidate;
use crate::log::{put, put_number};
use crate::missing_pages;
use std::io::Write;
use ttx_cycle::Counted;
use ttx_playout::Edition;
use ttx_send::Moment;
use ttx_send::iso_texts::{clock_text, date_text, offset_text};

// The field before which something happens, its moment, and the log's count of faults at the start of the airing.
#[derive(Clone, Copy)]
pub(crate) struct Entry {
    pub(crate) started: u64,
    pub(crate) field: usize,
    pub(crate) moment: Moment,
}

fn put_time<L: Write>(log: &mut Counted<L>, started: u64, moment: &Moment)
    ensures { Adds started (written_of L.contents log.old) (written_of L.contents log.new) (iso_text moment.now) }
{
    put(log, started, &date_text(moment));
    put(log, started, b"T");
    put(log, started, &clock_text(moment));
    put(log, started, &offset_text(moment));
}

fn put_field<L: Write>(log: &mut Counted<L>, entry: &Entry)
    ensures { Adds entry.now.started (written_of L.contents log.old) (written_of L.contents log.new) (field_text (tick_of entry.now)) }
{
    put(log, entry.started, b"field ");
    put_number(log, entry.started, entry.field);
    put(log, entry.started, b" ");
    put_time(log, entry.started, &entry.moment);
}

// The word for so many pages.
fn pages_word(pages: usize) -> &'static [u8]
    ensures { result.now ≡ (if pages == 1 then codes " page" else codes " pages") }
{
    if pages == 1 { b" page" } else { b" pages" }
}

fn put_pages<L: Write>(log: &mut Counted<L>, started: u64, pages: usize)
    ensures { Adds started (written_of L.contents log.old) (written_of L.contents log.new) (pages_text pages) }
{
    put_number(log, started, pages);
    put(log, started, pages_word(pages));
}

// The point and two digits: a fiftieth of a second is two hundredths.
fn hundredths(fields: u32) -> [u8; 3]
    ensures { result ≡ 46 ∷ (48 + fields % 50 / 5) ∷ (48 + fields % 5 * 2) ∷ [] }
{
    [
        b'.',
        b'0' + (fields % 50 / 5) as u8,
        b'0' + (fields % 5 * 2) as u8,
    ]
}

fn put_seconds<L: Write>(log: &mut Counted<L>, started: u64, fields: u32)
    ensures { Adds started (written_of L.contents log.old) (written_of L.contents log.new) (seconds_text fields) }
{
    put_number(log, started, (fields / 50) as usize);
    put(log, started, &hundredths(fields));
}

fn put_deadline<L: Write>(log: &mut Counted<L>, started: u64, fields: u32)
    ensures { Adds started (written_of L.contents log.old) (written_of L.contents log.new) (deadline_text fields) }
{
    put(log, started, b", deadline ");
    put_number(log, started, fields as usize);
    put(log, started, b" fields (");
    put_seconds(log, started, fields);
    put(log, started, b" s)");
}

// The words behind the mark: the pages, the deadline and the slots of a first edition.
fn put_edition<L: Write>(log: &mut Counted<L>, started: u64, first: &Edition)
    ensures { Adds started (written_of L.contents log.old) (written_of L.contents log.new) (edition_text (edition_of first.now)) }
{
    put_pages(log, started, first.service.pages().len());
    put_deadline(log, started, first.certificate.deadline());
    put(log, started, b", ");
    put_number(log, started, first.cycle.slots().len());
    put(log, started, b" slots\n");
}

// Adds the line of a first edition.
pub(crate) fn note_first<L: Write>(
    log: &mut Counted<L>,
    entry: &Entry,
    mark: &[u8],
    first: &Edition,
)
    ensures { Adds entry.now.started (written_of L.contents log.old) (written_of L.contents log.new)
        (first_line (tick_of entry.now) mark.now (edition_of first.now)) }
{
    put_field(log, entry);
    put(log, entry.started, b" on air");
    put(log, entry.started, mark);
    put(log, entry.started, b": ");
    put_edition(log, entry.started, first);
}

// The words behind the mark: how many pages are new and how many are gone, and the deadline.
fn put_change<L: Write>(log: &mut Counted<L>, started: u64, old: &Edition, new: &Edition)
    ensures { Adds started (written_of L.contents log.old) (written_of L.contents log.new) (change_text (edition_of old.now) (edition_of new.now)) }
{
    let new_pages = missing_pages::lacking(old.service.pages(), new.service.pages());
    let gone = missing_pages::lacking(new.service.pages(), old.service.pages());
    put_pages(log, started, new_pages);
    put(log, started, b" new, ");
    put_number(log, started, gone);
    put(log, started, b" gone, deadline ");
    put_number(log, started, new.certificate.deadline() as usize);
    put(log, started, b"\n");
}

// Adds the line of an edition that takes over.
pub(crate) fn note_change<L: Write>(
    log: &mut Counted<L>,
    entry: &Entry,
    old: &Edition,
    new: &Candidate,
)
    ensures { Adds entry.now.started (written_of L.contents log.old) (written_of L.contents log.new)
        (changed_line (tick_of entry.now) (edition_of old.now) (candidate_of new.now)) }
{
    put_field(log, entry);
    put(log, entry.started, b" changed");
    put(log, entry.started, new.mark.as_bytes());
    put(log, entry.started, b": ");
    put_change(log, entry.started, old, &new.edition);
}

// Adds the line of a text that does not take over. The reason ends the line.
pub(crate) fn note_kept<L: Write>(log: &mut Counted<L>, entry: &Entry, mark: &[u8], reason: &[u8])
    ensures { Adds entry.now.started (written_of L.contents log.old) (written_of L.contents log.new) (kept_line (tick_of entry.now) mark.now reason.now) }
{
    put_field(log, entry);
    put(log, entry.started, b" kept");
    put(log, entry.started, mark);
    put(log, entry.started, b": ");
    put(log, entry.started, reason);
}

// Adds the line of a text that is no edition.
pub(crate) fn note_refused<L: Write>(log: &mut Counted<L>, entry: &Entry, mark: &[u8], words: &[u8])
    ensures { Adds entry.now.started (written_of L.contents log.old) (written_of L.contents log.new)
        (kept_line (tick_of entry.now) mark.now (words.now ++ codes "\n")) }
{
    note_kept(log, entry, mark, words);
    put(log, entry.started, b"\n");
}

// Adds the last line.
pub(crate) fn note_end<L: Write>(log: &mut Counted<L>, entry: &Entry)
    ensures { Adds entry.now.started (written_of L.contents log.old) (written_of L.contents log.new) (end_line (tick_of entry.now)) }
{
    put_field(log, entry);
    put(log, entry.started, b" end\n");
}
