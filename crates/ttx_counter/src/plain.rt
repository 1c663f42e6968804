//! Plain runs: runs from slot 0 on, without hits, of a receiver that takes no choice.

ghost use Rattle.std.specs.Prelude.{◌≡◌, ℕ, ◌+◌, ◌-◌, ◌*◌, ◌<◌, ◌≤◌, ◌^◌, ◌==◌, ◌&&◌, pos, true, IsTrue, ◌↔◌, MatchOption, [], length};
ghost use Rattle.std.specs.Prelude.{slice_index_or};
ghost use Rattle.ttx_header.specs.Headers.{is_header, id_of};
ghost use Rattle.ttx_page.specs.Packets.{packet_of};
ghost use Rattle.ttx_page.specs.Pages as definitions;
ghost use Rattle.ttx_page.specs.Pages.{matches};
ghost use Rattle.ttx_page.specs.Streams.{repeated, heads_matched};
ghost use Rattle.ttx_page.specs.Views.{page_of, memory_of};
ghost use Rattle.ttx_page.specs.Memories.{Memory, memory_of_page};
ghost use Rattle.ttx_cycle.specs.Cycles.{slots_of};
ghost use Rattle.ttx_render.specs.View.{view_of};
ghost use Rattle.ttx_counter.specs.Sources.{plain_from, is_under, takes_from, TellsWrong};

use crate::checks::is_unlike;
use crate::magazines::{Sorted, hear_at, magazine_at, selected};
use crate::run_slots::place;
use ttx_header::read_header;
use ttx_links::Target;
use ttx_packet::slots::{Slot, slot_of};
use ttx_page::{Page, PageMemory, Selection};
use ttx_receiver::{Eager, Receiver};
use ttx_render::{View, render};

fn same_link(a: Option<Target>, b: Option<Target>) -> bool
    ensures { IsTrue result ↔ (a ≡ b) }
{
    a == b
}

fn same_row(a: &[u8; 40], b: &[u8; 40]) -> bool
    ensures { IsTrue result ↔ (a.now ≡ b.now) }
{
    *a == *b
}

fn same_links(a: &[Option<Target>; 6], b: &[Option<Target>; 6]) -> bool
    ensures { IsTrue result → a.now ≡ b.now }
{
    for i in 0..6 {
        if !same_link(a[i], b[i]) {
            return false;
        }
    }
    true
}

fn same_rows(a: &[[u8; 40]; 25], b: &[[u8; 40]; 25]) -> bool
    ensures { IsTrue result → a.now ≡ b.now }
{
    for i in 0..25 {
        if !same_row(&a[i], &b[i]) {
            return false;
        }
    }
    true
}

// Whether two memories are the same.
fn are_same(a: &PageMemory, b: &PageMemory) -> bool
    ensures { IsTrue result → memory_of a.now ≡ memory_of b.now }
{
    same_rows(a.rows(), b.rows())
        && a.control().0 == b.control().0
        && same_links(a.links(), b.links())
        && a.show24() == b.show24()
        && a.storing() == b.storing()
        && a.age() == b.age()
        && a.fresh() == b.fresh()
}

// Gives the receiver `count` slots of the cycle, from slot `begin` of the run on.
fn advance(receiver: &mut Eager, sorted: &Sorted<'_>, begin: u32, count: u32)
    ensures memory { receiver.new.memory ≡ plain_from receiver.old.lines receiver.old.selection receiver.old.memory
        (repeated (slots_of sorted.now.cycle.now)) (pos begin) count }
    ensures selection { receiver.new.selection ≡ receiver.old.selection }
    ensures lines { receiver.new.lines ≡ receiver.old.lines }
{
    let period = sorted.cycle.slots().len();
    for i in 0..count {
        hear_at(receiver, sorted, place(begin, i, period));
    }
}

// Gives the receiver `periods` periods of the cycle. Stops early once a period leaves the memory as it was.
fn settle(receiver: &mut Eager, sorted: &Sorted<'_>, periods: u32, period: u32)
    requires period { period ≡ length (slots_of sorted.now.cycle.now) }
    requires small { periods * period < 2 ^ 32 }
    ensures memory { receiver.new.memory ≡ plain_from receiver.old.lines receiver.old.selection receiver.old.memory
        (repeated (slots_of sorted.now.cycle.now)) (pos 0) (periods * period) }
    ensures selection { receiver.new.selection ≡ receiver.old.selection }
    ensures lines { receiver.new.lines ≡ receiver.old.lines }
{
    ttx_page::laws::cycles_repeat();
    for i in 0..periods {
        let before = *receiver.memory();
        advance(receiver, sorted, i * period, period);
        if are_same(receiver.memory(), &before) {
            return;
        }
    }
}

fn is_matched(selection: &Selection, bytes: &[u8; 42]) -> bool
    requires { is_header bytes.now ≡ true }
    ensures { result ≡ matches selection.now (id_of bytes.now) }
{
    match read_header(bytes) {
        Some(header) => selection.matches(header.id()),
        None => false,
    }
}

// Whether a slot is a header that the selection matches.
fn begins(selection: &Selection, slot: &[u8; 42]) -> bool
    ensures { result ≡ heads_matched selection.now (packet_of slot.now) }
{
    ttx_header::laws::headers_have_fields();
    match slot_of(slot) {
        Slot::Header(_, bytes) => is_matched(selection, bytes),
        Slot::Row(_, _) => false,
        Slot::Links(_, _) => false,
        Slot::Empty => false,
        Slot::Unreadable => false,
        Slot::Info(_, _) => false,
        Slot::Other(_) => false,
    }
}

// Whether a slot is a row or an X/27/0 of the magazine.
fn is_under(mag: u8, slot: &[u8; 42]) -> bool
    ensures { result ≡ is_under mag (packet_of slot.now) }
{
    match slot_of(slot) {
        Slot::Header(_, _) => false,
        Slot::Row(at, _) => at.mag == mag,
        Slot::Links(at, _) => at.mag == mag,
        Slot::Empty => false,
        Slot::Unreadable => false,
        Slot::Info(_, _) => false,
        Slot::Other(_) => false,
    }
}

// Whether the receiver takes anything from the slot at an index that it may show.
fn takes_from(memory: &PageMemory, selection: &Selection, sorted: &Sorted<'_>, at: usize) -> bool
    requires { at < length (slots_of sorted.now.cycle.now) }
    ensures { result ≡ takes_from selection.now (memory_of memory.now) (packet_of (slice_index_or (slots_of sorted.now.cycle.now) at [])) }
{
    let mag = selected(selection);
    if magazine_at(sorted, at) != mag {
        return false;
    }
    let slot = &sorted.cycle.slots()[at];
    begins(selection, slot) || is_under(mag, slot) && memory.storing()
}

// A number of slots, from `low` to `low + more`, after which the receiver's View differs from `own`. Views are compared only after
// slots that the receiver takes.
fn first_wrong(
    receiver: &mut Eager,
    sorted: &Sorted<'_>,
    own: &View,
    low: u32,
    more: u32,
) -> Option<u32>
    requires { low + more < 2 ^ 32 - 1 }
    ensures { (p : definitions.Page) (former : Memory) → own.now ≡ view_of (memory_of_page p) →
        receiver.old.memory ≡ plain_from receiver.old.lines receiver.old.selection former (repeated (slots_of sorted.now.cycle.now)) (pos 0) low →
        TellsWrong (slots_of sorted.now.cycle.now) p receiver.old.lines receiver.old.selection former low (low + more) result }
{
    ttx_render::laws::contents_decide();
    let period = sorted.cycle.slots().len();
    let high = low + more;
    let mut wrong = is_unlike(own, receiver.memory());
    for n in low..high + 1 {
        if wrong {
            return Some(n);
        }
        let at = place(n, 0, period);
        let taken = takes_from(receiver.memory(), &receiver.selection(), sorted, at);
        hear_at(receiver, sorted, at);
        if taken {
            wrong = is_unlike(own, receiver.memory());
        }
    }
    None
}

/// A number of slots, from `low` to two periods more, after which a receiver that takes no choice no longer has the View of a page
/// that it holds at first. `None` if there is none. Skips periods that leave the memory as it was.
pub fn plain_run(
    sorted: &Sorted<'_>,
    page: &Page,
    selection: Selection,
    lines: u8,
    low: u32,
) -> Option<u32>
    requires { low ≤ 32000000 }
    ensures { TellsWrong (slots_of sorted.now.cycle.now) (page_of page.now) lines selection (memory_of_page (page_of page.now)) low
        (low + 2 * length (slots_of sorted.now.cycle.now)) result }
{
    let period = sorted.cycle.slots().len() as u32;
    let own = PageMemory::of(page);
    let mut receiver = Eager::new(selection, lines, own);
    let periods = low / period;
    settle(&mut receiver, sorted, periods, period);
    let begin = periods * period;
    advance(&mut receiver, sorted, begin, low - begin);
    first_wrong(&mut receiver, sorted, &render(&own), low, 2 * period)
}
