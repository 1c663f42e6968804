//! `monitor`: whether what a receiver got of a cycle stays within the error rule, by bytes or by rows.

ghost use Rattle.std.specs.Prelude.{◌∷◌, [], IfSome};
ghost use Rattle.ttx_certificate.specs.Certificates.{fields_of};
ghost use Rattle.ttx_cycle.specs.Counters.{inner_of};
ghost use Rattle.ttx_cycle.specs.Cycles.{slots_of};
ghost use Rattle.ttx_files.specs.Answers.{IsUntouched};
ghost use Rattle.ttx_files.specs.Devices.{AtCycle, AtService, AtCertificate, AtFeed};
ghost use Rattle.ttx_faults.specs.Devices.{is_tool_write, Fails, Reads, read_from, written_to};
ghost use Rattle.ttx_tool.specs.Monitor.{IsTelling, IsFaultOfFeed, TellsFeed, MonitorsText, Monitors, MeansReceived};

use super::feed_verdicts::answered;
use std::alloc::Global;
use std::io::{Read, Write};
use ttx_cycle::Counted;
use ttx_faults::{ToolFault, write_text};
use ttx_feed_records::{monitor_feed_json, monitor_rows_json};
use ttx_files::{Inputs, Told, read_inputs};
use ttx_monitor::monitor_feed;
use ttx_row_monitor::monitor_rows;

/// How a feed is judged: from which slot of the cycle on, if that is named, and whether by rows; and whether the verdict is a JSON object.
#[derive(Clone, Copy)]
pub struct Judged {
    pub start: Option<u32>,
    pub by_rows: bool,
    pub json: bool,
}

// The verdict on a feed by the rule and in the form that are asked for, and its status.
fn tell<R: Read>(
    alloc: Global,
    inputs: &Inputs,
    how: Judged,
    feed: &mut Counted<R>,
) -> Result<Told<u8>, ToolFault>
    ensures bytes { IfSome (R.remaining (inner_of feed.old)) (λ d. TellsFeed
        (IsTelling how.json how.by_rows (slots_of inputs.now.cycle) inputs.now.service (fields_of inputs.now.certificate) how.start d) result) }
    ensures own { IsFaultOfFeed result }
    ensures faults { Fails (read_from AtFeed R.remaining feed.old feed.new ∷ []) result }
{
    let Judged {
        start,
        by_rows,
        json,
    } = how;
    match (json, by_rows) {
        (false, false) => Ok(answered(monitor_feed(alloc, inputs, start, feed)?)),
        (false, true) => Ok(answered(monitor_rows(alloc, inputs, start, feed)?)),
        (true, false) => Ok(answered(monitor_feed_json(alloc, inputs, start, feed)?)),
        (true, true) => Ok(answered(monitor_rows_json(alloc, inputs, start, feed)?)),
    }
}

// The same of the three files and the feed.
fn monitor_files<A: Read, B: Read, C: Read, R: Read>(
    alloc: Global,
    cycle: &mut Counted<A>,
    service: &mut Counted<B>,
    certificate: &mut Counted<C>,
    how: Judged,
    feed: &mut Counted<R>,
) -> Result<Told<u8>, ToolFault>
    ensures bytes { IfSome (A.remaining (inner_of cycle.old)) (λ a.
        IfSome (B.remaining (inner_of service.old)) (λ b.
        IfSome (C.remaining (inner_of certificate.old)) (λ c.
        IfSome (R.remaining (inner_of feed.old)) (λ d. MonitorsText how.json how.by_rows a b c how.start d result)))) }
    ensures faults { Reads (read_from AtCycle A.remaining cycle.old cycle.new ∷ read_from AtService B.remaining service.old service.new
        ∷ read_from AtCertificate C.remaining certificate.old certificate.new ∷ read_from AtFeed R.remaining feed.old feed.new ∷ []) result }
{
    let inputs = match read_inputs(alloc, cycle, service, certificate) {
        Ok(inputs) => inputs,
        Err(fault) => return Err(ToolFault::Files(fault)),
    };
    tell(alloc, &inputs, how, feed)
}

// Writes the verdict on the feed of the four files.
fn judge<A: Read, B: Read, C: Read, R: Read, W: Write>(
    alloc: Global,
    cycle: &mut Counted<A>,
    service: &mut Counted<B>,
    certificate: &mut Counted<C>,
    how: Judged,
    feed: &mut Counted<R>,
    writer: &mut Counted<W>,
) -> Result<u8, ToolFault>
    ensures bytes { IfSome (A.remaining (inner_of cycle.old)) (λ a.
        IfSome (B.remaining (inner_of service.old)) (λ b.
        IfSome (C.remaining (inner_of certificate.old)) (λ c.
        IfSome (R.remaining (inner_of feed.old)) (λ d.
        Monitors how.json how.by_rows a b c how.start d (W.contents (inner_of writer.old)) (W.contents (inner_of writer.new)) result)))) }
    ensures faults { Fails (read_from AtCycle A.remaining cycle.old cycle.new ∷ read_from AtService B.remaining service.old service.new
        ∷ read_from AtCertificate C.remaining certificate.old certificate.new ∷ read_from AtFeed R.remaining feed.old feed.new
        ∷ written_to writer.old writer.new ∷ []) result }
    ensures untouched { IsUntouched is_tool_write result writer.old writer.new }
{
    let told = match monitor_files(alloc, cycle, service, certificate, how, feed) {
        Ok(told) => told,
        Err(fault) => return Err(fault),
    };
    write_text(writer, told.line.as_str(), told.verdict)
}

/// Reads a packet file, the text of a service and that of a certificate, in this order, and then a feed slot by slot, which begins with
/// the slot of the cycle that is named, or with the one that is found. Writes the verdict on the feed, by the rule and in the form that are
/// asked for: the status is 0 if it is yes, otherwise 1.
///
/// A yes means that the feed is a reception within the error rule, from the slot of the cycle that it names on. If the certifier accepts
/// the three files and the feed reaches the deadline, each permitted receiver of this feed shows each page.
///
/// Nothing is written before everything is judged. After `Write` exactly the first `written` bytes of the text went out; after any other
/// fault the writer is unchanged. `Feed` says that a read of the feed failed.
pub fn run<A: Read, B: Read, C: Read, R: Read, W: Write>(
    alloc: Global,
    cycle: &mut Counted<A>,
    service: &mut Counted<B>,
    certificate: &mut Counted<C>,
    how: Judged,
    feed: &mut Counted<R>,
    writer: &mut Counted<W>,
) -> Result<u8, ToolFault>
    ensures bytes { IfSome (A.remaining (inner_of cycle.old)) (λ a.
        IfSome (B.remaining (inner_of service.old)) (λ b.
        IfSome (C.remaining (inner_of certificate.old)) (λ c.
        IfSome (R.remaining (inner_of feed.old)) (λ d.
        Monitors how.json how.by_rows a b c how.start d (W.contents (inner_of writer.old)) (W.contents (inner_of writer.new)) result)))) }
    ensures means { IfSome (A.remaining (inner_of cycle.old)) (λ a.
        IfSome (B.remaining (inner_of service.old)) (λ b.
        IfSome (C.remaining (inner_of certificate.old)) (λ c.
        IfSome (R.remaining (inner_of feed.old)) (λ d.
        MeansReceived how.json how.by_rows a b c d (W.contents (inner_of writer.old)) (W.contents (inner_of writer.new)) result)))) }
    ensures faults { Fails (read_from AtCycle A.remaining cycle.old cycle.new ∷ read_from AtService B.remaining service.old service.new
        ∷ read_from AtCertificate C.remaining certificate.old certificate.new ∷ read_from AtFeed R.remaining feed.old feed.new
        ∷ written_to writer.old writer.new ∷ []) result }
    ensures untouched { IsUntouched is_tool_write result writer.old writer.new }
{
    judge(alloc, cycle, service, certificate, how, feed, writer)
}
