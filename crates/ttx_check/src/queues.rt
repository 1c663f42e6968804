//! The order in which pages are sent, and which pages come directly behind certain others.

ghost use Rattle.std.specs.Prelude.{◌≡◌, ◌++◌, ◌<◌, ◌≤◌, IfOk, OnOk};
ghost use Rattle.ttx_header.specs.Ids.{same_id};
ghost use Rattle.ttx_check.specs.Queues.{is_in_queue, is_in_round, is_sent_in_round, round_from, whole_queue, follows, followers, filler};
ghost use Rattle.ttx_check.specs.Queues.{followers_to, behind_subpages, behind_copies};

use crate::entries::Entry;
use std::alloc::{AllocError, Global};
use ttx_header::PageId;

/// A transmission of a page: the page's place in the service, and its id.
#[derive(Clone, Copy)]
pub struct Sent {
    pub place: usize,
    pub id: PageId,
}

/// What a page is sent directly behind.
#[derive(Clone, Copy)]
pub enum Behind {
    /// Another subpage of its number.
    Subpage,
    /// The same page.
    Itself,
}

// Whether a page belongs to a queue. Queue 0 has all pages, queues 1 to 8 those of a magazine.
fn is_in_queue(queue: u8, id: PageId) -> bool
    ensures { result ≡ is_in_queue queue id }
{
    queue == 0 || id.mag() == queue
}

// Whether a page that is sent `often` times in a cycle is sent in this round.
fn is_in_round(round: u32, often: u8) -> bool
    requires { round < 8 }
    ensures { result ≡ is_in_round round often }
{
    round * u32::from(often) % 8 == 0
}

fn is_sent_in_round(queue: u8, round: u32, entry: &Entry) -> bool
    requires { round < 8 }
    ensures { result ≡ is_sent_in_round queue round entry.now }
{
    is_in_queue(queue, entry.id) && is_in_round(round, entry.often)
}

// Adds one round of a queue.
fn push_round(
    sent: &mut Vec<Sent>,
    queue: u8,
    round: u32,
    entries: &[Entry],
) -> Result<(), AllocError>
    requires { round < 8 }
    ensures { OnOk result (sent.new.items ≡ sent.old.items ++ round_from queue round 0 entries.now) }
{
    for (place, entry) in entries.iter().enumerate() {
        if is_sent_in_round(queue, round, entry) {
            sent.push(Sent {
                place,
                id: entry.id,
            })?;
        }
    }
    Ok(())
}

// The pages of a queue in the order of sending.
fn whole_queue(alloc: Global, queue: u8, entries: &[Entry]) -> Result<Vec<Sent>, AllocError>
    ensures { IfOk result (λ sent. sent.items ≡ whole_queue queue entries.now) }
{
    let mut sent = Vec::new(alloc);
    for round in 0..8 {
        push_round(&mut sent, queue, round, entries)?;
    }
    Ok(sent)
}

fn same_id(a: PageId, b: PageId) -> bool
    ensures { result ≡ same_id a b }
{
    a.mag() == b.mag() && a.page() == b.page() && a.sub() == b.sub()
}

// Whether page `b` follows page `a` in the way of `kind`.
fn follows(kind: Behind, a: PageId, b: PageId) -> bool
    ensures { result ≡ follows kind a b }
{
    match kind {
        Behind::Subpage => a.mag() == b.mag() && a.page() == b.page() && a.sub() != b.sub(),
        Behind::Itself => same_id(a, b),
    }
}

// The page before the first page of a queue.
fn filler() -> PageId
    ensures { result ≡ filler }
{
    PageId::new(1, 0xff, 0x3f7f).unwrap()
}

// Adds the places of those pages of a queue that follow the page before them in the way of `kind`.
fn push_followers(places: &mut Vec<usize>, kind: Behind, queue: &[Sent]) -> Result<(), AllocError>
    ensures { OnOk result (places.new.items ≡ places.old.items ++ followers kind filler queue.now) }
{
    let mut before = filler();
    for sent in queue {
        if follows(kind, before, sent.id) {
            places.push(sent.place)?;
        }
        before = sent.id;
    }
    Ok(())
}

// The same for the queue with this number.
fn push_queue(
    alloc: Global,
    places: &mut Vec<usize>,
    kind: Behind,
    queue: u8,
    entries: &[Entry],
) -> Result<(), AllocError>
    ensures { OnOk result (places.new.items ≡ places.old.items ++ followers kind filler (whole_queue queue entries.now)) }
{
    let sent = whole_queue(alloc, queue, entries)?;
    push_followers(places, kind, &sent)
}

// The places of such pages in the queues of all magazines.
fn followers(alloc: Global, kind: Behind, entries: &[Entry]) -> Result<Vec<usize>, AllocError>
    ensures { IfOk result (λ places. places.items ≡ followers_to kind entries.now 8) }
{
    let mut places = Vec::new(alloc);
    for above in 0..8 {
        push_queue(alloc, &mut places, kind, above + 1, entries)?;
    }
    Ok(places)
}

/// The places of the pages that come directly behind another subpage of their number, once for each time this happens.
pub fn behind_subpages(alloc: Global, entries: &[Entry]) -> Result<Vec<usize>, AllocError>
    ensures { IfOk result (λ places. places.items ≡ behind_subpages entries.now) }
{
    followers(alloc, Behind::Subpage, entries)
}

/// The places of the pages that come directly behind themselves, once for each time this happens.
pub fn behind_copies(
    alloc: Global,
    serial: bool,
    entries: &[Entry],
) -> Result<Vec<usize>, AllocError>
    ensures { IfOk result (λ places. places.items ≡ behind_copies serial entries.now) }
{
    if !serial {
        return followers(alloc, Behind::Itself, entries);
    }
    let mut places = Vec::new(alloc);
    push_queue(alloc, &mut places, Behind::Itself, 0, entries)?;
    Ok(places)
}
