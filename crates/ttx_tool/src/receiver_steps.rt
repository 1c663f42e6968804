//! A receiver over the slots of a cycle that is sent again and again.

ghost use Rattle.std.specs.Prelude.{◌≡◌, ◌<◌, ◌∷◌, [], IfSome, IfOk, IfErr, fold, length, pos};
ghost use Rattle.ttx_cycle.specs.Counters.{inner_of};
ghost use Rattle.ttx_files.specs.Devices.{AtCycle, failed_at, IsFirstFailure, IsOf, IsRight};
ghost use Rattle.ttx_page.specs.Laws.{sent_from};
ghost use Rattle.ttx_page.specs.Streams.{repeated};
ghost use Rattle.ttx_faults.specs.Devices.{read_from};
ghost use Rattle.ttx_tool.specs.Receive.{tuned_as, Hears};
ghost use Rattle.ttx_tool.specs.Show.{stays_fresh, HearsFile};

use std::alloc::Global;
use std::io::Read;
use ttx_cycle::Counted;
use ttx_files::{FilesFault, read_packets};
use ttx_receiver::Receiver;

// Steps a receiver over `count` slots from slot `start` on, which counts round the cycle.
fn step_over<X: Receiver>(receiver: &mut X, slots: &[[u8; 42]], start: usize, count: u32)
    requires { 0 < length slots.now }
    ensures heard { Hears (tuned_as (X.kind receiver.old) (X.field receiver.old) (X.tuned receiver.old)) slots.now start count (X.held receiver.old)
        (X.held receiver.new) }
    ensures value { receiver.new ≡ fold X.next receiver.old (sent_from (repeated slots.now) (pos start) count) }
{
    ttx_page::laws::runs_go_on();
    let mut at = start % slots.len();
    for _ in 0..count {
        receiver.step(Some(&slots[at]));
        at += 1;
        if at == slots.len() {
            at = 0;
        }
    }
}

// The same; whether the receiver stays fresh is reported, too.
fn hear<X: Receiver>(receiver: &mut X, slots: &[[u8; 42]], start: usize, count: u32)
    requires { 0 < length slots.now }
    ensures heard { Hears (tuned_as (X.kind receiver.old) (X.field receiver.old) (X.tuned receiver.old)) slots.now start count (X.held receiver.old)
        (X.held receiver.new) }
    ensures same { X.held receiver.new ≡ X.held (fold X.next receiver.old (sent_from (repeated slots.now) (pos start) count)) }
    ensures fresh { (X.held receiver.new).fresh ≡ stays_fresh (X.tuned receiver.old) (X.held receiver.old)
        (sent_from (repeated slots.now) (pos start) count) }
{
    step_over(receiver, slots, start, count);
}

/// Reads a packet file, and steps a receiver over `count` slots of it from slot `start` on, which counts round the cycle.
pub(crate) fn hear_file<R: Read, X: Receiver>(
    alloc: Global,
    reader: &mut Counted<R>,
    receiver: &mut X,
    start: u16,
    count: u32,
) -> Result<(), FilesFault>
    ensures bytes { IfSome (R.remaining (inner_of reader.old))
        (λ bytes. HearsFile (tuned_as (X.kind receiver.old) (X.field receiver.old) (X.tuned receiver.old))
        (λ sent. X.held (fold X.next receiver.old sent)) start count bytes (X.held receiver.old) (X.held receiver.new) result) }
    ensures right { IfOk result (λ _. IsRight AtCycle (R.remaining (inner_of reader.old))) }
    ensures own { IfErr result (IsOf (AtCycle ∷ [])) }
    ensures faults { IsFirstFailure (read_from AtCycle R.remaining reader.old reader.new ∷ []) (failed_at result) }
{
    match read_packets(alloc, reader) {
        Ok(cycle) => {
            hear(receiver, cycle.slots(), usize::from(start), count);
            Ok(())
        }
        Err(fault) => Err(fault),
    }
}
