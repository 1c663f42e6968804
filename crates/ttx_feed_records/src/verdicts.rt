//! Monitors a feed, by bytes or by rows, and returns the verdict with its object.

ghost use Rattle.std.specs.Prelude.{◌≡◌, ◌++◌, ◌∷◌, [], List, ℕ, None, IfOk, IfSome, OnOk, map, string_bytes};
ghost use Rattle.ttx_cycle.specs.Counters.{inner_of, faults_of};
ghost use Rattle.ttx_cycle.specs.Cycles.{slots_of};
ghost use Rattle.ttx_files.specs.Devices.{AtFeed, input, IsFirstFailure};
ghost use Rattle.ttx_files.specs.Feeds.{failed_at};
ghost use Rattle.ttx_page.specs.Pages.{Page as ThePage};
ghost use Rattle.ttx_page.specs.Views.{page_of};
ghost use Rattle.ttx_source.specs.Services.{pages_of};
ghost use Rattle.ttx_certificate.specs.Certificates.{certificate_of};
ghost use Rattle.ttx_feed_records.specs.FeedRecords as rule;
ghost use Rattle.ttx_feed_records.specs.RowRecords as rows;

use crate::breaches::{push_breach, push_row};
use crate::members::{At, Whole, push_shifted, push_unlike, push_yes};
use std::alloc::{AllocError, Global};
use std::io::Read;
use ttx_cycle::Counted;
use ttx_files::{FeedFault, Inputs, Told};
use ttx_json::count;
use ttx_monitor::{FeedVerdict, monitor_feed};
use ttx_page::Page;
use ttx_row_monitor::{RowBreach, RowVerdict, monitor_rows};

/// A verdict that is told by an object.
pub trait Recorded: Copy {
    ghost object: { List ThePage → Self → List ℕ };

    /// Adds the object.
    fn push(self, alloc: Global, text: &mut String, pages: &[Page]) -> Result<(), AllocError>
        ensures { OnOk result (string_bytes text.new ≡ string_bytes text.old ++ object (map page_of pages.now) self) };
}

impl Recorded for FeedVerdict {
    ghost object = { rule.feed_record };

    fn push(self, alloc: Global, text: &mut String, pages: &[Page]) -> Result<(), AllocError> {
        match self {
            FeedVerdict::Unlike(unlike) => push_unlike(alloc, text, unlike),
            FeedVerdict::Yes {
                start,
                slots,
                wrong,
                streak,
                rest,
            } => {
                let counts = [count("wrong", wrong), count("streak", u64::from(streak))];
                push_yes(alloc, text, Whole { start, slots, rest }, &counts)
            }
            FeedVerdict::No {
                start,
                slot,
                breach,
            } => push_breach(alloc, text, pages, At(slot, Some(start)), breach),
            FeedVerdict::Shifted {
                start,
                slot,
                by,
                count,
            } => push_shifted(alloc, text, At(slot, Some(start)), by, count),
        }
    }
}

// Adds a slot that breaks the rule by rows.
fn push_row_breach(
    alloc: Global,
    text: &mut String,
    pages: &[Page],
    at: At,
    breach: RowBreach,
) -> Result<(), AllocError>
    ensures { OnOk result (string_bytes text.new ≡ string_bytes text.old
        ++ rule.line (rule.with_start (rows.how_members (map page_of pages.now) at.0 breach) at.1)) }
{
    match breach {
        RowBreach::Slot(breach) => push_breach(alloc, text, pages, at, breach),
        RowBreach::Row { page, row } => push_row(alloc, text, pages, at, (page, row)),
    }
}

impl Recorded for RowVerdict {
    ghost object = { rows.row_record };

    fn push(self, alloc: Global, text: &mut String, pages: &[Page]) -> Result<(), AllocError> {
        match self {
            RowVerdict::Unlike(unlike) => push_unlike(alloc, text, unlike),
            RowVerdict::Yes {
                start,
                slots,
                lost,
                rest,
            } => {
                let counts = [count("lost", lost)];
                push_yes(alloc, text, Whole { start, slots, rest }, &counts)
            }
            RowVerdict::No {
                start,
                slot,
                breach,
            } => push_row_breach(alloc, text, pages, At(slot, Some(start)), breach),
            RowVerdict::Shifted {
                start,
                slot,
                by,
                count,
            } => push_shifted(alloc, text, At(slot, Some(start)), by, count),
        }
    }
}

// A verdict with its object.
fn with_object<V: Recorded>(
    alloc: Global,
    inputs: &Inputs,
    verdict: V,
) -> Result<Told<V>, FeedFault>
    ensures verdict { IfOk result (λ told. told.verdict ≡ verdict) }
    ensures object { IfOk result (λ told. string_bytes told.line ≡ V.object (pages_of inputs.now.service) verdict) }
    ensures own { failed_at result ≡ None }
{
    let mut line = String::new(alloc);
    match verdict.push(alloc, &mut line, inputs.service.pages()) {
        Ok(()) => Ok(Told { verdict, line }),
        Err(_) => Err(FeedFault::NoMemory),
    }
}

/// Reads a feed and judges it by bytes, as `monitor_feed`, and returns the verdict with its JSON object: `answer` (`yes`), `start`, `slots`,
/// `wrong`, `streak`, and `rest`, the bytes behind the last slot, if there are any; or `answer` (`no`), `slot`, `how` (`byte`, `lost`,
/// `unlike`, `repeat`, `shifted`) and what belongs to it, `start`; or, of a feed that is no sequence of slots, `answer` (`no`), `how`
/// (`packets`, `no teletext`). `Err` if a read fails or memory runs out.
pub fn monitor_feed_json<R: Read>(
    alloc: Global,
    inputs: &Inputs,
    named: Option<u32>,
    feed: &mut Counted<R>,
) -> Result<Told<FeedVerdict>, FeedFault>
    ensures bytes { IfOk result (λ told. IfSome (R.remaining (inner_of feed.old)) (λ bytes.
        rule.IsFeedRecorded (slots_of inputs.now.cycle) (pages_of inputs.now.service) (certificate_of inputs.now.certificate) named bytes
        told.verdict (string_bytes told.line))) }
    ensures faults { IsFirstFailure (input AtFeed (R.remaining (inner_of feed.old)) (faults_of feed.old) (faults_of feed.new) ∷ [])
        (failed_at result) }
{
    let told = monitor_feed(alloc, inputs, named, feed)?;
    with_object(alloc, inputs, told.verdict)
}

/// Reads a feed and judges it by rows, as `monitor_rows`, and returns the verdict with its JSON object: `answer` (`yes`), `start`, `slots`,
/// `lost`, and `rest`, the bytes behind the last slot, if there are any; or a no as `monitor_feed_json`, where `repeat` has no `byte`.
/// `Err` if a read fails or memory runs out.
pub fn monitor_rows_json<R: Read>(
    alloc: Global,
    inputs: &Inputs,
    named: Option<u32>,
    feed: &mut Counted<R>,
) -> Result<Told<RowVerdict>, FeedFault>
    ensures bytes { IfOk result (λ told. IfSome (R.remaining (inner_of feed.old)) (λ bytes.
        rows.IsRowRecorded (slots_of inputs.now.cycle) (pages_of inputs.now.service) (certificate_of inputs.now.certificate) named bytes
        told.verdict (string_bytes told.line))) }
    ensures faults { IsFirstFailure (input AtFeed (R.remaining (inner_of feed.old)) (faults_of feed.old) (faults_of feed.new) ∷ [])
        (failed_at result) }
{
    let told = monitor_rows(alloc, inputs, named, feed)?;
    with_object(alloc, inputs, told.verdict)
}
