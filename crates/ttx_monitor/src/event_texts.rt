//! What is written while a feed is read.

ghost use Rattle.std.specs.Prelude.{◌≡◌, ◌++◌, IfOk, OnOk, map, string_bytes};
ghost use Rattle.ttx_page.specs.Views.{page_of};
ghost use Rattle.ttx_monitor.specs.Wordings.{shift_text, breach_text, is_due, bad_text, state_at, event_text};
ghost use Rattle.ttx_monitor.specs.Followed.{telling_of};

use crate::breach::Breach;
use crate::event::Event;
use crate::tally::{Tally, added};
use crate::wording::Wording;
use std::alloc::{AllocError, Global};
use ttx_page::Page;
use ttx_witness::NoMemory;

/// How a feed is reported while it is read: each breach or none; by the pages of the service, the number of slots of the cycle, the slot of
/// the cycle with which the feed begins, and the slots of a field; and its state each time after so many slots, if at all.
#[derive(Clone, Copy)]
pub struct How<'a> {
    pub all: bool,
    pub pages: &'a [Page],
    pub count: usize,
    pub start: u32,
    pub lines: u8,
    pub span: Option<u64>,
}

// Appends a slip, if there is one.
fn push_shift<V: Wording>(
    alloc: Global,
    text: &mut String,
    count: usize,
    slot: u64,
    shift: Option<usize>,
) -> Result<(), AllocError>
    ensures { OnOk result (string_bytes text.new ≡ string_bytes text.old ++ shift_text V.words count slot shift) }
{
    match shift {
        Some(by) => V::push_slip(alloc, text, count, slot, by),
        None => Ok(()),
    }
}

// Appends a breach, if there is one.
fn push_breach<V: Wording>(
    alloc: Global,
    text: &mut String,
    pages: &[Page],
    slot: u64,
    breach: Option<Breach>,
) -> Result<(), AllocError>
    ensures { OnOk result (string_bytes text.new ≡ string_bytes text.old ++ breach_text V.words (map page_of pages.now) slot breach) }
{
    match breach {
        Some(breach) => V::push_breach(alloc, text, pages, slot, breach),
        None => Ok(()),
    }
}

// Appends what a slot has that breaks the rule, if each is reported.
fn push_bad<V: Wording>(
    alloc: Global,
    text: &mut String,
    how: &How<'_>,
    tally: Tally,
    event: &Event,
) -> Result<(), AllocError>
    ensures { OnOk result (string_bytes text.new ≡ string_bytes text.old ++ bad_text (telling_of V.words how.now) tally event.now) }
{
    if how.all {
        push_shift::<V>(alloc, text, how.count, tally.slots, event.shift)?;
        return push_breach::<V>(alloc, text, how.pages, tally.slots, event.breach);
    }
    Ok(())
}

// Whether the state is reported after so many slots.
fn is_due(span: Option<u64>, slots: u64) -> bool
    ensures { result ≡ is_due span slots }
{
    match span {
        Some(span) => slots % span.max(1) == 0,
        None => false,
    }
}

// Appends the state if it is due.
fn push_state<V: Wording>(
    alloc: Global,
    text: &mut String,
    how: &How<'_>,
    tally: Tally,
) -> Result<(), AllocError>
    ensures { OnOk result (string_bytes text.new ≡ string_bytes text.old ++ state_at (telling_of V.words how.now) tally) }
{
    if is_due(how.span, tally.slots) {
        return V::push_state(alloc, text, tally);
    }
    Ok(())
}

// Appends what is written for a slot.
fn push_event<V: Wording>(
    alloc: Global,
    text: &mut String,
    how: &How<'_>,
    tally: Tally,
    event: &Event,
) -> Result<(), AllocError>
    ensures { OnOk result (string_bytes text.new ≡ string_bytes text.old ++ event_text (telling_of V.words how.now) tally event.now) }
{
    push_bad::<V>(alloc, text, how, tally, event)?;
    push_state::<V>(alloc, text, how, added(tally, event))
}

/// What is written for a slot, after what has been counted before it. `Err` if memory runs out.
pub fn event_text<V: Wording>(
    alloc: Global,
    how: &How<'_>,
    tally: Tally,
    event: &Event,
) -> Result<String, NoMemory>
    ensures { IfOk result (λ text. string_bytes text ≡ event_text (telling_of V.words how.now) tally event.now) }
{
    let mut text = String::new(alloc);
    match push_event::<V>(alloc, &mut text, how, tally, event) {
        Ok(()) => Ok(text),
        Err(_) => Err(NoMemory),
    }
}
