//! Reports a feed while it comes, as objects.

ghost use Rattle.std.specs.Prelude.{IfSome};
ghost use Rattle.ttx_cycle.specs.Counters.{inner_of, faults_of};
ghost use Rattle.ttx_cycle.specs.Cycles.{slots_of};
ghost use Rattle.ttx_source.specs.Services.{pages_of};
ghost use Rattle.ttx_certificate.specs.Certificates.{certificate_of};
ghost use Rattle.ttx_monitor.specs.Followed.{CountsFollowed, CountsWrites};
ghost use Rattle.ttx_monitor.specs.FeedReports.{ReportsFeed};
ghost use Rattle.ttx_feed_records.specs.ReportRecords as rule;

use crate::breaches::push_breach;
use crate::members::{At, push_shifted, push_with_rest};
use crate::verdicts::Recorded;
use std::alloc::{AllocError, Global};
use std::io::{Read, Write};
use ttx_cycle::Counted;
use ttx_files::Inputs;
use ttx_json::{count, push_object, word};
use ttx_monitor::{Asked, Breach, FeedVerdict, FollowFault, Sums, Tally, Wording, report_feed_in};
use ttx_page::Page;

/// Words a report as JSON objects, one a line: a verdict as `monitor_feed_json`, a breach or a slip as such a no without `start`; `answer`
/// (`state`), `slots`, `wrong`, `streak`, `lost`; where breaches were passed over, `answer` (`no`), `start`, `slots`, `wrong`, `streak`,
/// `breaches`, and `rest`, the bytes behind the last slot, if there are any; and `answer` (`total`), `lost`, `bits`, `minute_lost`,
/// `minute_bits`.
pub struct Objects;

impl Wording for Objects {
    ghost words = { rule.in_objects };

    fn push_slip(
        alloc: Global,
        text: &mut String,
        count: usize,
        slot: u64,
        by: usize,
    ) -> Result<(), AllocError> {
        push_shifted(alloc, text, At(slot, None), by, count)
    }

    fn push_breach(
        alloc: Global,
        text: &mut String,
        pages: &[Page],
        slot: u64,
        breach: Breach,
    ) -> Result<(), AllocError> {
        push_breach(alloc, text, pages, At(slot, None), breach)
    }

    #[tactic(auto, unfolding(crate::specs::FeedRecords::line))]
    fn push_state(alloc: Global, text: &mut String, tally: Tally) -> Result<(), AllocError> {
        let members = [
            word("answer", "state"),
            count("slots", tally.slots),
            count("wrong", tally.wrong),
            count("streak", u64::from(tally.streak)),
            count("lost", tally.lost),
        ];
        push_object(alloc, text, &members)
    }

    fn push_verdict(
        alloc: Global,
        text: &mut String,
        pages: &[Page],
        verdict: FeedVerdict,
    ) -> Result<(), AllocError> {
        verdict.push(alloc, text, pages)
    }

    fn push_broken(
        alloc: Global,
        text: &mut String,
        start: u32,
        tally: Tally,
        rest: usize,
    ) -> Result<(), AllocError> {
        let members = [
            word("answer", "no"),
            count("start", u64::from(start)),
            count("slots", tally.slots),
            count("wrong", tally.wrong),
            count("streak", u64::from(tally.streak)),
            count("breaches", tally.breaches),
        ];
        push_with_rest(alloc, text, &members, rest)
    }

    #[tactic(auto, unfolding(crate::specs::FeedRecords::line))]
    fn push_sums(alloc: Global, text: &mut String, sums: Sums) -> Result<(), AllocError> {
        let members = [
            word("answer", "total"),
            count("lost", sums.lost),
            count("bits", sums.bits),
            count("minute_lost", sums.minute_lost),
            count("minute_bits", sums.minute_bits),
        ];
        push_object(alloc, text, &members)
    }
}

/// Reports a feed while it comes, as `report_feed`, in objects: those of `Objects`, one a line, for each line of `report_feed` but that of the
/// bytes behind the last slot, which are a member. `Err` if a read or a write fails or memory runs out: at a failed write exactly the first
/// `written` bytes of the latest objects went out.
pub fn report_feed_json<R: Read, W: Write>(
    alloc: Global,
    inputs: &Inputs,
    asked: Asked,
    feed: &mut Counted<R>,
    writer: &mut Counted<W>,
) -> Result<Option<FeedVerdict>, FollowFault>
    ensures bytes { IfSome (R.remaining (inner_of feed.old)) (λ bytes.
        ReportsFeed rule.in_objects (slots_of inputs.now.cycle) (pages_of inputs.now.service) (certificate_of inputs.now.certificate) asked bytes
        (W.contents (inner_of writer.old)) (W.contents (inner_of writer.new)) result) }
    ensures feed { CountsFollowed result (faults_of feed.old) (faults_of feed.new) }
    ensures writer { CountsWrites result (faults_of writer.old) (faults_of writer.new) }
{
    report_feed_in::<Objects, R, W>(alloc, inputs, asked, feed, writer)
}
