//! `monitor --all` and `monitor --every`: what a receiver got of a cycle, reported while it comes.

ghost use Rattle.std.specs.Prelude.{◌≡◌, ◌∷◌, [], IfSome};
ghost use Rattle.ttx_cycle.specs.Counters.{inner_of, faults_of};
ghost use Rattle.ttx_cycle.specs.Cycles.{slots_of};
ghost use Rattle.ttx_files.specs.Devices.{AtCycle, AtService, AtCertificate, AtFeed};
ghost use Rattle.ttx_monitor.specs.FeedReports.{ReportsFeed};
ghost use Rattle.ttx_monitor.specs.Followed.{CountsFollowed, CountsWrites};
ghost use Rattle.ttx_source.specs.Services.{pages_of};
ghost use Rattle.ttx_certificate.specs.Certificates.{certificate_of};
ghost use Rattle.ttx_faults.specs.Devices.{Fails, read_from, written_to};
ghost use Rattle.ttx_tool.specs.MonitorReports.{report_status, report_words, IsReportedAs, MonitorsLines, MeansReported};

use super::certify::Status;
use std::alloc::Global;
use std::io::{Read, Write};
use ttx_cycle::Counted;
use ttx_faults::ToolFault;
use ttx_feed_records::report_feed_json;
use ttx_files::{FeedFault, FilesFault, Inputs, read_inputs};
use ttx_monitor::{Asked, FeedVerdict, FollowFault, report_feed};

/// How a feed is reported while it comes: what is asked for, and whether as JSON objects.
#[derive(Clone, Copy)]
pub struct Reported {
    pub asked: Asked,
    pub json: bool,
}

fn report_status(verdict: Option<FeedVerdict>) -> u8
    ensures { result ≡ report_status verdict }
{
    match verdict {
        Some(verdict) => verdict.status(),
        None => 1,
    }
}

// Reports a feed, in the words that are asked for.
fn follow<R: Read, W: Write>(
    alloc: Global,
    inputs: &Inputs,
    how: Reported,
    feed: &mut Counted<R>,
    writer: &mut Counted<W>,
) -> Result<Option<FeedVerdict>, FollowFault>
    ensures bytes { IfSome (R.remaining (inner_of feed.old)) (λ bytes.
        ReportsFeed (report_words how.json) (slots_of inputs.now.cycle) (pages_of inputs.now.service) (certificate_of inputs.now.certificate)
        how.asked bytes (W.contents (inner_of writer.old)) (W.contents (inner_of writer.new)) result) }
    ensures feed { CountsFollowed result (faults_of feed.old) (faults_of feed.new) }
    ensures writer { CountsWrites result (faults_of writer.old) (faults_of writer.new) }
{
    if how.json {
        report_feed_json(alloc, inputs, how.asked, feed, writer)
    } else {
        report_feed(alloc, inputs, how.asked, feed, writer)
    }
}

// Reports a feed, and returns the status.
fn report<R: Read, W: Write>(
    alloc: Global,
    inputs: &Inputs,
    how: Reported,
    feed: &mut Counted<R>,
    writer: &mut Counted<W>,
) -> Result<u8, ToolFault>
    ensures bytes { IfSome (R.remaining (inner_of feed.old)) (λ bytes.
        IsReportedAs (ReportsFeed (report_words how.json) (slots_of inputs.now.cycle) (pages_of inputs.now.service)
        (certificate_of inputs.now.certificate) how.asked bytes (W.contents (inner_of writer.old)) (W.contents (inner_of writer.new))) result) }
    ensures faults { Fails (read_from AtFeed R.remaining feed.old feed.new ∷ written_to writer.old writer.new ∷ []) result }
{
    match follow(alloc, inputs, how, feed, writer) {
        Ok(verdict) => Ok(report_status(verdict)),
        Err(FollowFault::Feed(FeedFault::Read)) => Err(ToolFault::Feed),
        Err(FollowFault::Feed(FeedFault::NoMemory)) => Err(ToolFault::Files(FilesFault::NoMemory)),
        Err(FollowFault::Write { written }) => {
            Err(ToolFault::Files(FilesFault::Write { written }))
        }
    }
}

/// Reads a packet file, the text of a service and that of a certificate, in this order, and then a feed slot by slot, which begins with the
/// slot of the cycle that is named, or with the one that is found. Reports the feed while it comes, in lines or in objects: each breach if
/// `how.asked.all` says so, otherwise up to the first; and the state every so many fields. At the end of the feed it writes the verdict, or how
/// many breaches there were. The status is 0 if there is none, otherwise 1. What a yes means is what it means in `monitor`.
///
/// Nothing is written before the three files are read. After `Write` all earlier lines and exactly the first `written` bytes of the latest
/// lines went out. `Feed` says that a read of the feed failed: all lines for the slots before it went out.
pub fn run<A: Read, B: Read, C: Read, R: Read, W: Write>(
    alloc: Global,
    cycle: &mut Counted<A>,
    service: &mut Counted<B>,
    certificate: &mut Counted<C>,
    how: Reported,
    feed: &mut Counted<R>,
    writer: &mut Counted<W>,
) -> Result<u8, ToolFault>
    ensures bytes { IfSome (A.remaining (inner_of cycle.old)) (λ a.
        IfSome (B.remaining (inner_of service.old)) (λ b.
        IfSome (C.remaining (inner_of certificate.old)) (λ c.
        IfSome (R.remaining (inner_of feed.old)) (λ d.
        MonitorsLines how.json a b c how.asked d (W.contents (inner_of writer.old)) (W.contents (inner_of writer.new)) result)))) }
    ensures means { IfSome (A.remaining (inner_of cycle.old)) (λ a.
        IfSome (B.remaining (inner_of service.old)) (λ b.
        IfSome (C.remaining (inner_of certificate.old)) (λ c.
        IfSome (R.remaining (inner_of feed.old)) (λ d.
        MeansReported how.json a b c d (W.contents (inner_of writer.old)) (W.contents (inner_of writer.new)) result)))) }
    ensures faults { Fails (read_from AtCycle A.remaining cycle.old cycle.new ∷ read_from AtService B.remaining service.old service.new
        ∷ read_from AtCertificate C.remaining certificate.old certificate.new ∷ read_from AtFeed R.remaining feed.old feed.new
        ∷ written_to writer.old writer.new ∷ []) result }
{
    let inputs = match read_inputs(alloc, cycle, service, certificate) {
        Ok(inputs) => inputs,
        Err(fault) => return Err(ToolFault::Files(fault)),
    };
    report(alloc, &inputs, how, feed, writer)
}
