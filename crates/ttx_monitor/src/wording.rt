//! How a feed is worded that is reported while it is read.

ghost use Rattle.std.specs.Prelude.{◌≡◌, ◌++◌, OnOk, map, string_bytes};
ghost use Rattle.ttx_page.specs.Views.{page_of};
ghost use Rattle.ttx_monitor.specs.Wordings.{Words};

use crate::breach::Breach;
use crate::sums::Sums;
use crate::tally::Tally;
use crate::verdict::FeedVerdict;
use std::alloc::{AllocError, Global};
use ttx_page::Page;

/// How each line of a report is worded: as words and numbers, or as an object. Each call appends to a text, `words` says what, and `Err` that
/// memory ran out.
pub trait Wording {
    ghost words: { Words };

    /// Appends that a feed has slipped at this slot by `by` slots of a cycle of `count`.
    fn push_slip(
        alloc: Global,
        text: &mut String,
        count: usize,
        slot: u64,
        by: usize,
    ) -> Result<(), AllocError>
        ensures { OnOk result (string_bytes text.new ≡ string_bytes text.old ++ words.slip count slot by) };

    /// Appends how a slot breaks the rule.
    fn push_breach(
        alloc: Global,
        text: &mut String,
        pages: &[Page],
        slot: u64,
        breach: Breach,
    ) -> Result<(), AllocError>
        ensures { OnOk result (string_bytes text.new ≡ string_bytes text.old ++ words.breach (map page_of pages.now) slot breach) };

    /// Appends what has been counted so far.
    fn push_state(alloc: Global, text: &mut String, tally: Tally) -> Result<(), AllocError>
        ensures { OnOk result (string_bytes text.new ≡ string_bytes text.old ++ words.state tally) };

    /// Appends the verdict on a feed.
    fn push_verdict(
        alloc: Global,
        text: &mut String,
        pages: &[Page],
        verdict: FeedVerdict,
    ) -> Result<(), AllocError>
        ensures { OnOk result (string_bytes text.new ≡ string_bytes text.old ++ words.verdict (map page_of pages.now) verdict) };

    /// Appends what was counted of a feed whose breaches were passed over, which begins with slot `start` of the cycle, and after whose last
    /// slot `rest` bytes follow.
    fn push_broken(
        alloc: Global,
        text: &mut String,
        start: u32,
        tally: Tally,
        rest: usize,
    ) -> Result<(), AllocError>
        ensures { OnOk result (string_bytes text.new ≡ string_bytes text.old ++ words.broken start tally rest) };

    /// Appends what was lost and wrong.
    fn push_sums(alloc: Global, text: &mut String, sums: Sums) -> Result<(), AllocError>
        ensures { OnOk result (string_bytes text.new ≡ string_bytes text.old ++ words.sums sums) };
}
