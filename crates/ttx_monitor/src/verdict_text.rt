//! Monitors a feed, and returns the verdict with its text.

ghost use Rattle.std.specs.Prelude.{◌∷◌, [], IfOk, IfSome, string_bytes};
ghost use Rattle.ttx_cycle.specs.Counters.{inner_of, faults_of};
ghost use Rattle.ttx_cycle.specs.Cycles.{slots_of};
ghost use Rattle.ttx_files.specs.Devices.{AtFeed, input, IsFirstFailure};
ghost use Rattle.ttx_files.specs.Feeds.{failed_at};
ghost use Rattle.ttx_source.specs.Services.{pages_of};
ghost use Rattle.ttx_certificate.specs.Certificates.{certificate_of};
ghost use Rattle.ttx_monitor.specs.FeedLines.{IsFeedTold};

use crate::feed_lines::feed_text;
use crate::feed_verdict::watch;
use crate::verdict::FeedVerdict;
use std::alloc::Global;
use std::io::Read;
use ttx_cycle::Counted;
use ttx_files::{FeedFault, Inputs, Told};

/// Reads a feed slot by slot, to its end or to the first slot that breaks the error rule for a page of the service, and returns the verdict
/// with its text. A feed is what a receiver got: slots of 42 bytes from any slot of the cycle on, an empty line as 42 zero bytes. It begins
/// with slot `named` of the cycle, or with the slot with which its first period fits best, and the lowest of several.
///
/// If the verdict is yes, the certifier accepts the three inputs, and the feed reaches the deadline, each permitted receiver of this feed
/// shows each page. No slot behind the first period is kept, so memory does not grow with the feed. `Err` if a read fails or memory runs out.
pub fn monitor_feed<R: Read>(
    alloc: Global,
    inputs: &Inputs,
    named: Option<u32>,
    feed: &mut Counted<R>,
) -> Result<Told<FeedVerdict>, FeedFault>
    ensures bytes { IfOk result (λ told. IfSome (R.remaining (inner_of feed.old)) (λ bytes.
        IsFeedTold (slots_of inputs.now.cycle) (pages_of inputs.now.service) (certificate_of inputs.now.certificate) named bytes told.verdict
        (string_bytes told.line))) }
    ensures faults { IsFirstFailure (input AtFeed (R.remaining (inner_of feed.old)) (faults_of feed.old) (faults_of feed.new) ∷ [])
        (failed_at result) }
{
    ttx_page::laws::pages_keep_their_rules();
    let verdict = watch(alloc, inputs, named, feed)?;
    match feed_text(alloc, inputs.service.pages(), verdict) {
        Ok(line) => Ok(Told { verdict, line }),
        Err(_) => Err(FeedFault::NoMemory),
    }
}
