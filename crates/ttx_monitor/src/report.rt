//! Follows a feed and reports it.

ghost use Rattle.std.specs.Prelude.{◌≡◌, [], ◌∷◌, ℕ, List, Option, Ok, IfErr, IfSome};
ghost use Rattle.std.specs.Io.KnownBytes.{Appends};
ghost use Rattle.ttx_cycle.specs.Counters.{inner_of, faults_of};
ghost use Rattle.ttx_cycle.specs.Cycles.{slots_of};
ghost use Rattle.ttx_cycle.specs.Files.{IsCycle};
ghost use Rattle.ttx_page.specs.Pages.{Page};
ghost use Rattle.ttx_certify.specs.Laws.{ArePages};
ghost use Rattle.ttx_source.specs.Services.{pages_of};
ghost use Rattle.ttx_certificate.specs.Certificates.{certificate_of};
ghost use Rattle.ttx_witness.specs.Coverage as coverage;
ghost use Rattle.ttx_monitor.specs.Watching.{watched};
ghost use Rattle.ttx_monitor.specs.Wordings.{Words, Telling};
ghost use Rattle.ttx_monitor.specs.EventLines.{in_lines};
ghost use Rattle.ttx_monitor.specs.Followed.{telling_of, Follows, CountsFollowed, CountsWrites};
ghost use Rattle.ttx_monitor.specs.FeedReports.{telling_for, IsEnded, rest_of, IsReport, WritesUnlike, ReportsFrom, ReportsFeed};

use crate::asked::Asked;
use crate::begun_feed::begin;
use crate::event_texts::How;
use crate::feed_verdict::{Heard, ending, verdict_of};
use crate::lines::Lines;
use crate::live_feed::{FollowFault, Followed, Following, follow};
use crate::summary::{Closing, last_text, unlike_text};
use crate::verdict::FeedVerdict;
use crate::wording::Wording;
use std::alloc::Global;
use std::io::{Read, Write};
use ttx_cycle::{Counted, WriteFault, write_bytes};
use ttx_files::{FeedFault, Inputs};
use ttx_recognition::Unlike;

// How a feed is reported that begins with slot `start` of the cycle.
fn how_of<'a>(inputs: &'a Inputs, asked: Asked, start: u32) -> How<'a>
    ensures { (words : Words) → telling_of words result ≡ telling_for words (slots_of inputs.entry.now.cycle)
        (pages_of inputs.entry.now.service) (certificate_of inputs.entry.now.certificate) asked start }
{
    ttx_witness::certificate_laws::certificates_keep_their_rules();
    let lines = inputs.certificate.lines();
    let span = match asked.every {
        Some(fields) => Some(u64::from(fields) * u64::from(lines)),
        None => None,
    };
    How {
        all: asked.all,
        pages: inputs.service.pages(),
        count: inputs.cycle.slots().len(),
        start,
        lines,
        span,
    }
}

// How the reading has ended, unless breaches were passed over.
fn heard_of(followed: Followed, breaches: u64) -> Option<Heard>
    ensures { IsEnded followed breaches result }
{
    match followed {
        Followed::End { rest } => {
            if breaches == 0 {
                Some(Heard::End { rest })
            } else {
                None
            }
        }
        Followed::Stopped { slot, event } => ending(slot, &event),
    }
}

// How many bytes follow the last slot.
fn rest_of(followed: Followed) -> usize
    ensures { result ≡ rest_of followed }
{
    match followed {
        Followed::End { rest } => rest,
        Followed::Stopped { .. } => 0,
    }
}

// The verdict on a feed that was followed, unless breaches were passed over.
fn verdict_at(following: &Following<'_>, start: u32, followed: Followed) -> Option<FeedVerdict>
    ensures { (cycle : List (List ℕ)) (pages : List Page) (c : coverage.Certificate) (bytes : List ℕ) (g : Telling) (old new : Option (List ℕ)) →
        IsCycle cycle → ArePages pages → coverage.IsCertificate c → g.start ≡ start →
        Follows (watched cycle pages c.repeat start) bytes g following.now old new (Ok followed) →
        (told : List ℕ) × IsReport cycle pages c bytes g told following.now.tally (rest_of followed) result × Appends old new told }
{
    match heard_of(followed, following.tally.breaches) {
        Some(heard) => Some(verdict_of(&following.monitor, start, heard)),
        None => None,
    }
}

// Writes what a feed is if it is no feed of packets.
fn write_unlike<V: Wording, W: Write>(
    alloc: Global,
    unlike: Unlike,
    writer: &mut Counted<W>,
) -> Result<Option<FeedVerdict>, FollowFault>
    ensures bytes { WritesUnlike V.words unlike (W.contents (inner_of writer.old)) (W.contents (inner_of writer.new)) result }
    ensures faults { CountsWrites result (faults_of writer.old) (faults_of writer.new) }
    ensures own { IfErr result (λ fault. fault ≡ FollowFault.Feed FeedFault.Read → ⊥) }
{
    let Ok(text) = unlike_text::<V>(alloc, unlike) else {
        return Err(FollowFault::Feed(FeedFault::NoMemory));
    };
    match write_bytes(writer, text.as_bytes()) {
        Ok(()) => Ok(Some(FeedVerdict::Unlike(unlike))),
        Err(WriteFault { written }) => Err(FollowFault::Write { written }),
    }
}

// Writes the end of a feed that was followed.
fn conclude<V: Wording, W: Write>(
    alloc: Global,
    following: &Following<'_>,
    how: &How<'_>,
    followed: Followed,
    writer: &mut Counted<W>,
) -> Result<Option<FeedVerdict>, FollowFault>
    ensures bytes { (cycle : List (List ℕ)) (pages : List Page) (c : coverage.Certificate) (bytes : List ℕ) (old : Option (List ℕ)) →
        IsCycle cycle → ArePages pages → coverage.IsCertificate c →
        Follows (watched cycle pages c.repeat how.now.start) bytes (telling_of V.words how.now) following.now old (W.contents (inner_of writer.old))
        (Ok followed) → ReportsFrom cycle pages c bytes (telling_of V.words how.now) old (W.contents (inner_of writer.new)) result }
    ensures faults { CountsWrites result (faults_of writer.old) (faults_of writer.new) }
    ensures own { IfErr result (λ fault. fault ≡ FollowFault.Feed FeedFault.Read → ⊥) }
{
    let verdict = verdict_at(following, how.start, followed);
    let closing = Closing {
        tally: following.tally,
        rest: rest_of(followed),
        verdict,
    };
    let Ok(text) = last_text::<V>(alloc, how, closing) else {
        return Err(FollowFault::Feed(FeedFault::NoMemory));
    };
    match write_bytes(writer, text.as_bytes()) {
        Ok(()) => Ok(verdict),
        Err(fault) => Err(FollowFault::Write {
            written: fault.written,
        }),
    }
}

/// Reads a feed slot by slot and reports it while it comes, in the words of `V`: each breach, if that is asked for, and the state every so many
/// fields; and at the end the verdict, or, where breaches were passed over, how many there were. Unless each breach is asked for, the report
/// ends at the first one. Each line is written before the next slot is read.
///
/// The verdict is that of `monitor_feed`; `None` where breaches were passed over. No slot behind the first period is kept, so memory does not
/// grow with the feed. `Err` if a read or a write fails or memory runs out: at a failed write exactly the first `written` bytes of the
/// latest lines went out.
pub fn report_feed_in<V: Wording, R: Read, W: Write>(
    alloc: Global,
    inputs: &Inputs,
    asked: Asked,
    feed: &mut Counted<R>,
    writer: &mut Counted<W>,
) -> Result<Option<FeedVerdict>, FollowFault>
    ensures bytes { IfSome (R.remaining (inner_of feed.old)) (λ bytes.
        ReportsFeed V.words (slots_of inputs.now.cycle) (pages_of inputs.now.service) (certificate_of inputs.now.certificate) asked bytes
        (W.contents (inner_of writer.old)) (W.contents (inner_of writer.new)) result) }
    ensures feed { CountsFollowed result (faults_of feed.old) (faults_of feed.new) }
    ensures writer { CountsWrites result (faults_of writer.old) (faults_of writer.new) }
{
    ttx_page::laws::pages_keep_their_rules();
    ttx_witness::certificate_laws::certificates_keep_their_rules();
    let mut begun = match begin(alloc, inputs, asked.start, feed) {
        Ok(begun) => begun,
        Err(fault) => return Err(FollowFault::Feed(fault)),
    };
    if let Some(unlike) = begun.found {
        return write_unlike::<V, W>(alloc, unlike, writer);
    }
    let _pages = inputs.service.pages();
    let how = how_of(inputs, asked, begun.start);
    let followed = match follow::<V, R, W>(alloc, &mut begun.following, &how, feed, writer) {
        Ok(followed) => followed,
        Err(fault) => return Err(fault),
    };
    conclude::<V, W>(alloc, &begun.following, &how, followed, writer)
}

/// Reports a feed while it comes, as `report_feed_in`, in lines: those of `Lines`.
pub fn report_feed<R: Read, W: Write>(
    alloc: Global,
    inputs: &Inputs,
    asked: Asked,
    feed: &mut Counted<R>,
    writer: &mut Counted<W>,
) -> Result<Option<FeedVerdict>, FollowFault>
    ensures bytes { IfSome (R.remaining (inner_of feed.old)) (λ bytes.
        ReportsFeed in_lines (slots_of inputs.now.cycle) (pages_of inputs.now.service) (certificate_of inputs.now.certificate) asked bytes
        (W.contents (inner_of writer.old)) (W.contents (inner_of writer.new)) result) }
    ensures feed { CountsFollowed result (faults_of feed.old) (faults_of feed.new) }
    ensures writer { CountsWrites result (faults_of writer.old) (faults_of writer.new) }
{
    report_feed_in::<Lines, R, W>(alloc, inputs, asked, feed, writer)
}
