//! A feed that is reported in lines of words and numbers.

ghost use Rattle.std.specs.Prelude.{◌≡◌, ◌++◌, OnOk, map, string_bytes};
ghost use Rattle.ttx_page.specs.Views.{page_of};
ghost use Rattle.ttx_monitor.specs.EventLines.{slip_line, breach_line, state_line, no_text, breaches_text, broken_line, all_text, minute_text, total_line, in_lines};

use crate::breach::Breach;
use crate::feed_lines::{push_rest, push_shifted, push_verdict, push_way};
use crate::sums::Sums;
use crate::tally::Tally;
use crate::verdict::FeedVerdict;
use crate::wording::Wording;
use std::alloc::{AllocError, Global};
use ttx_page::Page;

// Appends the line of a slip.
fn push_slip_line(text: &mut String, count: usize, slot: u64, by: usize) -> Result<(), AllocError>
    ensures { OnOk result (string_bytes text.new ≡ string_bytes text.old ++ slip_line count slot by) }
{
    push_shifted(text, count, slot, by)?;
    text.push('\n')
}

// Appends the line of a breach.
fn push_breach_line(
    text: &mut String,
    pages: &[Page],
    slot: u64,
    breach: Breach,
) -> Result<(), AllocError>
    ensures { OnOk result (string_bytes text.new ≡ string_bytes text.old ++ breach_line (map page_of pages.now) slot breach) }
{
    push_way(text, pages, slot, breach)?;
    text.push('\n')
}

// Appends the line of the state.
fn push_state_line(text: &mut String, tally: Tally) -> Result<(), AllocError>
    ensures { OnOk result (string_bytes text.new ≡ string_bytes text.old ++ state_line tally) }
{
    let (slots, wrong, streak, lost) = (tally.slots, tally.wrong, tally.streak, tally.lost);
    write!(
        text,
        "slots {slots} wrong {wrong} streak {streak} lost {lost}\n"
    )
}

// Appends the beginning of the line of a feed that breaks the rule.
fn push_no(text: &mut String, start: u32, slots: u64) -> Result<(), AllocError>
    ensures { OnOk result (string_bytes text.new ≡ string_bytes text.old ++ no_text start slots) }
{
    write!(text, "no start {start} slots {slots}")
}

// Appends the rest of it.
fn push_breaches(text: &mut String, tally: Tally) -> Result<(), AllocError>
    ensures { OnOk result (string_bytes text.new ≡ string_bytes text.old ++ breaches_text tally) }
{
    let (wrong, streak, breaches) = (tally.wrong, tally.streak, tally.breaches);
    write!(text, " wrong {wrong} streak {streak} breaches {breaches}\n")
}

// Appends the whole line, and that of the bytes behind the last slot.
fn push_broken_line(
    text: &mut String,
    start: u32,
    tally: Tally,
    rest: usize,
) -> Result<(), AllocError>
    ensures { OnOk result (string_bytes text.new ≡ string_bytes text.old ++ broken_line start tally rest) }
{
    push_no(text, start, tally.slots)?;
    push_breaches(text, tally)?;
    push_rest(text, rest)
}

// Appends what was lost and wrong in all.
fn push_all(text: &mut String, lost: u64, bits: u64) -> Result<(), AllocError>
    ensures { OnOk result (string_bytes text.new ≡ string_bytes text.old ++ all_text lost bits) }
{
    write!(text, "total lost {lost} bits {bits}")
}

// Appends the same for a minute, and the end of the line.
fn push_minute(text: &mut String, lost: u64, bits: u64) -> Result<(), AllocError>
    ensures { OnOk result (string_bytes text.new ≡ string_bytes text.old ++ minute_text lost bits) }
{
    write!(text, " minute lost {lost} bits {bits}\n")
}

// Appends the line of both.
fn push_total_line(text: &mut String, sums: Sums) -> Result<(), AllocError>
    ensures { OnOk result (string_bytes text.new ≡ string_bytes text.old ++ total_line sums) }
{
    push_all(text, sums.lost, sums.bits)?;
    push_minute(text, sums.minute_lost, sums.minute_bits)
}

/// Words a report in lines, as `feed_text` does a verdict: `no slot I ..` for a breach or a slip, without the start;
/// `slots N wrong B streak K lost L` for the state; `no start S slots N wrong B streak K breaches X`, where breaches were passed over, and a
/// line for the bytes behind the last slot; and `total lost L bits E minute lost M bits F`.
pub struct Lines;

impl Wording for Lines {
    ghost words = { in_lines };

    fn push_slip(
        _alloc: Global,
        text: &mut String,
        count: usize,
        slot: u64,
        by: usize,
    ) -> Result<(), AllocError> {
        push_slip_line(text, count, slot, by)
    }

    fn push_breach(
        _alloc: Global,
        text: &mut String,
        pages: &[Page],
        slot: u64,
        breach: Breach,
    ) -> Result<(), AllocError> {
        push_breach_line(text, pages, slot, breach)
    }

    fn push_state(_alloc: Global, text: &mut String, tally: Tally) -> Result<(), AllocError> {
        push_state_line(text, tally)
    }

    fn push_verdict(
        _alloc: Global,
        text: &mut String,
        pages: &[Page],
        verdict: FeedVerdict,
    ) -> Result<(), AllocError> {
        push_verdict(text, pages, verdict)
    }

    fn push_broken(
        _alloc: Global,
        text: &mut String,
        start: u32,
        tally: Tally,
        rest: usize,
    ) -> Result<(), AllocError> {
        push_broken_line(text, start, tally, rest)
    }

    fn push_sums(_alloc: Global, text: &mut String, sums: Sums) -> Result<(), AllocError> {
        push_total_line(text, sums)
    }
}
