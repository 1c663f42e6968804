//! Which queue sends next in parallel transmission, from one cursor for each magazine queue.

ghost use Rattle.std.specs.Prelude.{◌≡◌, ◌+◌, ◌*◌, ◌<◌, ◌≤◌, ◌^◌, length, find, slice_index, slice_get, replicate, Option, IfSome};
ghost use Rattle.ttx_plan.specs.Cursors.{cursors_after, is_free, cursors_past, queue_at, slot_by_cursors};
ghost use Rattle.ttx_plan.specs.Turns.{is_info_due, or_info, order};

use crate::packet::{Packet, Slot};

/// How far each magazine queue has come.
#[derive(Clone, Copy)]
pub struct Cursors {
    /// How many packets of the queue have been sent.
    pub sent: [usize; 8],
    /// The first slot in which the queue may send a row or X/27/0.
    pub free_at: [usize; 8],
    /// One more than the queue that sent last; 0 before the first.
    pub from: usize,
}

/// The packets of a queue.
pub fn queue_of(queues: &[Vec<Packet>], queue: usize) -> &[Packet]
    requires { queue < length queues.now }
    ensures { result.now ≡ queue_at queues.now queue }
{
    &queues[queue]
}

impl Cursors {
    pub fn new() -> Cursors
        ensures { result ≡ record { sent = replicate 8 0; free_at = replicate 8 0; from = 0 } }
    {
        Cursors {
            sent: [0; 8],
            free_at: [0; 8],
            from: 0,
        }
    }

    // Whether the queue has a packet left and may send it in this slot.
    fn is_ready(&self, queues: &[Vec<Packet>], at: usize, queue: usize) -> bool
        requires queues { length queues.now ≡ 8 }
        requires queue { queue < 8 }
        ensures { result ≡ is_free queues.now self.now at queue }
    {
        match queue_of(queues, queue).get(self.sent[queue]) {
            None => false,
            Some(packet) => !(packet.kind.is_row_or_links() && at < self.free_at[queue]),
        }
    }

    /// The queue that sends next: the first one that is ready, in rising order round from the queue after the one that sent last.
    pub fn turn(&self, queues: &[Vec<Packet>], at: usize) -> Option<usize>
        requires queues { length queues.now ≡ 8 }
        requires from { self.now.from ≤ 8 }
        ensures turn { result ≡ find (is_free queues.now self.now at) (order self.now.from) }
        ensures left { IfSome result (λ queue. (queue < 8) × (slice_index self.now.sent queue < length (queue_at queues.now queue))) }
    {
        for step in 0..8 {
            let queue = (self.from + step) % 8;
            if self.is_ready(queues, at, queue) {
                return Some(queue);
            }
        }
        None
    }

    /// Sends the queue's next packet in this slot.
    pub fn send(&mut self, queues: &[Vec<Packet>], lines: usize, at: usize, queue: usize) -> Packet
        requires queues { length queues.now ≡ 8 }
        requires queue { queue < 8 }
        requires left { slice_index self.old.sent queue < length (queue_at queues.now queue) }
        requires lines { lines ≤ 32 }
        requires room { at < 2 ^ 32 }
        ensures packet { slice_get (queue_at queues.now queue) (slice_index self.old.sent queue) ≡ Option.Some result }
        ensures cursors { self.new ≡ cursors_past self.old queue result lines at }
    {
        let packet = queue_of(queues, queue)[self.sent[queue]];
        self.sent[queue] += 1;
        if packet.kind.is_page_header() {
            self.free_at[queue] = at + lines + 1;
        }
        self.from = queue + 1;
        packet
    }

    /// Fills the next slot.
    pub fn step(
        &mut self,
        queues: &[Vec<Packet>],
        lines: usize,
        info: Option<[u8; 42]>,
        at: usize,
    ) -> Slot
        requires queues { length queues.now ≡ 8 }
        requires from { self.old.from ≤ 8 }
        requires lines { (1 ≤ lines) × (lines ≤ 32) }
        requires room { at < 2 ^ 32 }
        ensures slot { result ≡ or_info info (is_info_due lines at) (slot_by_cursors queues.now self.old at) }
        ensures cursors { self.new ≡ cursors_after self.old lines at result }
    {
        if let Some(bytes) = info
            && at % (50 * lines) == 0
        {
            return Slot::Info(bytes);
        }
        match self.turn(queues, at) {
            None => Slot::Empty,
            Some(queue) => Slot::Sent(queue, self.send(queues, lines, at, queue)),
        }
    }
}
