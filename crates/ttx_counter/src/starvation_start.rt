//! From which slot on a receiver is starved of an item.

ghost use Rattle.std.specs.Prelude.{◌≡◌, ◌≤◌, ◌<◌, ◌↔◌, ◌+ℤ◌, ◌≤ℤ◌, pos, ℕ, MatchOption, length, Contains};
ghost use Rattle.std.specs.List.{AllByRecursion};
ghost use Rattle.ttx_cycle.specs.Cycles.{slots_of};
ghost use Rattle.ttx_page.specs.Streams.{turned};
ghost use Rattle.ttx_page.specs.Views.{page_of};
ghost use Rattle.ttx_certificate.specs.Certificates.{certificate_of};
ghost use Rattle.ttx_witness.specs.runs.Confirming.{Rising};
ghost use Rattle.ttx_witness.specs.Coverage as coverage;
ghost use Rattle.ttx_witness.specs.Coverage.{IsSureStart};
ghost use Rattle.ttx_witness.specs.sent.ItemTransmissions.{sent_in};
ghost use Rattle.ttx_witness.specs.runs.Tracks.{IsWithin};
ghost use Rattle.ttx_witness.specs.declared.runs.transmissions.Transmission as transmissions;
ghost use Rattle.ttx_counter.specs.Refutations.{IsAfterOwner, TellsStart};

use ttx_cycle::Cycle;
use ttx_page::{Item, Page};
use ttx_witness::{Certificate, Transmission, judge_item, late_at_end, run_length};

/// The deadline in slots.
pub fn limit(certificate: &Certificate) -> u32
    ensures value { result ≡ coverage.limit (certificate_of certificate.now) }
    ensures few { result ≤ 32000000 }
{
    ttx_witness::certificate_laws::certificates_keep_their_rules();
    certificate.deadline() * u32::from(certificate.lines())
}

// The transmission in a slot.
fn in_slot(sent: &[Transmission], slot: u32) -> Option<Transmission>
    ensures { MatchOption result ((t : transmissions.Transmission) → Contains sent.now t → t.slot ≡ pos slot → ⊥)
        (λ t. Contains sent.now t × (t.slot ≡ pos slot)) }
{
    for i in 0..sent.len() {
        if i64::from(sent[i].slot) == i64::from(slot) {
            return Some(sent[i]);
        }
    }
    None
}

// The slot of the period that sends the same as a slot of the stream.
fn turned(slot: i32, period: u32) -> u32
    requires { 0 < period }
    ensures { result ≡ turned period slot }
{
    if slot >= 0 {
        slot.unsigned_abs() % period
    } else {
        period - 1 - (slot.unsigned_abs() - 1) % period
    }
}

// The slot of the period that follows the owner of a transmission.
fn slot_after(t: Transmission, period: u32) -> u32
    requires some { 0 < period }
    requires small { t.owner ≤ℤ pos 65536 }
    ensures { result ≡ turned period (t.owner +ℤ pos 1) }
{
    turned(t.owner + 1, period)
}

// The slot of the period that follows the owner of the transmission in a slot.
fn after_owner(sent: &[Transmission], slot: u32, period: u32) -> u32
    requires some { 0 < period }
    requires within { AllByRecursion (IsWithin 65536) sent.now }
    ensures { IsAfterOwner sent.now period slot result }
{
    match in_slot(sent, slot) {
        Some(t) => slot_after(t, period),
        None => 0,
    }
}

/// An item of a page, with all its sure starts and all its transmissions.
#[derive(Clone, Copy)]
pub struct SentItem<'a> {
    pub item: &'a Item,
    pub starts: &'a [u32],
    pub sent: &'a [Transmission],
}

/// The slot of the period from which on no sure run of the item comes in time. `None` if its sure runs cover the item.
pub fn starving_start(
    cycle: &Cycle,
    page: &Page,
    certificate: &Certificate,
    sent_item: &SentItem<'_>,
) -> Option<u32>
    requires rising { Rising sent_item.now.starts.now }
    requires named { (start : ℕ) → Contains sent_item.now.starts.now start ↔
        IsSureStart (slots_of cycle.now) (page_of page.now).id (certificate_of certificate.now).lines (certificate_of certificate.now).repeat
        sent_item.now.item.now start }
    requires sent { sent_item.now.sent.now ≡ sent_in (slots_of cycle.now) (page_of page.now).id (certificate_of certificate.now).lines
        sent_item.now.item.now }
    requires within { AllByRecursion (IsWithin 65536) sent_item.now.sent.now }
    ensures { TellsStart (slots_of cycle.now) (page_of page.now) (certificate_of certificate.now) sent_item.now.item.now result }
{
    crate::completeness::starts_are_judged();
    crate::completeness::fullest_names_all();
    ttx_witness::certificate_laws::certificates_keep_their_rules();
    ttx_witness::cycle_laws::further_starts_cover();
    ttx_witness::judging_laws::transmissions_are_listed();
    let (item, starts, sent) = (sent_item.item, sent_item.starts, sent_item.sent);
    if starts.is_empty() {
        return Some(0);
    }
    let period = cycle.slots().len() as u32;
    let limit = limit(certificate);
    let repeat = run_length(certificate.repeat(), item);
    let progress = judge_item(sent, starts, repeat, limit, period);
    match late_at_end(progress, period, starts, limit) {
        Some(at) => Some(after_owner(sent, at, period)),
        None => None,
    }
}
