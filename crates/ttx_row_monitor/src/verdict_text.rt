//! Monitors a feed by rows, and writes the verdict.

ghost use Rattle.std.specs.Prelude.{◌∷◌, [], IfOk, IfSome, string_bytes};
ghost use Rattle.ttx_cycle.specs.Counters.{inner_of, faults_of};
ghost use Rattle.ttx_cycle.specs.Cycles.{slots_of};
ghost use Rattle.ttx_files.specs.Devices.{AtFeed, input, IsFirstFailure};
ghost use Rattle.ttx_files.specs.Feeds.{failed_at};
ghost use Rattle.ttx_source.specs.Services.{pages_of};
ghost use Rattle.ttx_certificate.specs.Certificates.{certificate_of};
ghost use Rattle.ttx_row_monitor.specs.RowLines.{IsRowTold};

use crate::feed_verdict::watch;
use crate::lines::row_verdict_text;
use crate::verdict::RowVerdict;
use std::alloc::Global;
use std::io::Read;
use ttx_cycle::Counted;
use ttx_files::{FeedFault, Inputs, Told};

/// Reads a feed slot by slot, to its end or to the first slot that breaks the error rule by rows for a page of the service, and returns the
/// verdict with its text. It begins with slot `named` of the cycle, or with the slot with which its first period fits best.
///
/// If the verdict is yes, the certifier accepts the three inputs, and the feed reaches the deadline, each receiver of this feed that refuses
/// rows shows each page, except perhaps row 0, and row 0 too if the text of the headers arrives. No slot behind the first period is kept.
/// `Err` if a read fails or memory runs out.
pub fn monitor_rows<R: Read>(
    alloc: Global,
    inputs: &Inputs,
    named: Option<u32>,
    feed: &mut Counted<R>,
) -> Result<Told<RowVerdict>, FeedFault>
    ensures bytes { IfOk result (λ told. IfSome (R.remaining (inner_of feed.old)) (λ bytes.
        IsRowTold (slots_of inputs.now.cycle) (pages_of inputs.now.service) (certificate_of inputs.now.certificate) named bytes told.verdict
        (string_bytes told.line))) }
    ensures faults { IsFirstFailure (input AtFeed (R.remaining (inner_of feed.old)) (faults_of feed.old) (faults_of feed.new) ∷ [])
        (failed_at result) }
{
    ttx_page::laws::pages_keep_their_rules();
    let verdict = watch(alloc, inputs, named, feed)?;
    match row_verdict_text(alloc, inputs.service.pages(), verdict) {
        Ok(line) => Ok(Told { verdict, line }),
        Err(_) => Err(FeedFault::NoMemory),
    }
}
