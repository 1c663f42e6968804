//! What has been counted of a feed.

ghost use Rattle.std.specs.Prelude.{◌≡◌, ◌+◌, ℕ};
ghost use Rattle.ttx_monitor.specs.Tallies.{capped, lost_of, bad_of, is_bad, is_last, nothing_yet, added};

use crate::breach::Breach;
use crate::event::Event;

/// How many slots of a feed have been read, how many bytes and bits of them were wrong, how many packets were lost, at how many slots the
/// rule was broken or the feed had slipped, and the longest streak. Each count stops at 2^64 - 1.
#[derive(Clone, Copy)]
pub struct Tally {
    pub slots: u64,
    pub wrong: u64,
    pub bits: u64,
    pub lost: u64,
    pub breaches: u64,
    pub streak: u8,
}

// The sum, or the largest number.
fn sum(count: u64, more: u16) -> u64
    ensures { result ≡ capped (count + more) }
{
    count.saturating_add(u64::from(more))
}

// 1 if a packet was lost.
fn lost_of(breach: Option<Breach>) -> u16
    ensures { result ≡ lost_of breach }
{
    match breach {
        Some(Breach::Lost) => 1,
        Some(Breach::Unasked | Breach::Bits(_) | Breach::Repeated(_)) | None => 0,
    }
}

// Whether a slot breaks the rule, or the feed has slipped at it.
fn is_bad(event: &Event) -> bool
    ensures { result ≡ is_bad event.now }
{
    event.shift.is_some() || event.breach.is_some()
}

// 1 if it does.
fn bad_of(event: &Event) -> u16
    ensures { result ≡ bad_of event.now }
{
    if is_bad(event) { 1 } else { 0 }
}

/// Whether a slot ends the reading: it is bad, and only the first such slot is reported.
pub fn is_last(all: bool, event: &Event) -> bool
    ensures { result ≡ is_last all event.now }
{
    !all && is_bad(event)
}

/// What has been counted before the first slot.
pub fn nothing_yet() -> Tally
    ensures { result ≡ nothing_yet }
{
    Tally {
        slots: 0,
        wrong: 0,
        bits: 0,
        lost: 0,
        breaches: 0,
        streak: 0,
    }
}

/// What has been counted after one more slot.
pub fn added(tally: Tally, event: &Event) -> Tally
    ensures { result ≡ added tally event.now }
{
    Tally {
        slots: sum(tally.slots, 1),
        wrong: sum(tally.wrong, u16::from(event.wrong)),
        bits: sum(tally.bits, event.bits),
        lost: sum(tally.lost, lost_of(event.breach)),
        breaches: sum(tally.breaches, bad_of(event)),
        streak: tally.streak.max(event.streak),
    }
}
