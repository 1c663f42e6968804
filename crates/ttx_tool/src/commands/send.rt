//! `send`: a cycle again and again, with the time.

ghost use Rattle.std.specs.Prelude.{◌≡◌, ◌∷◌, [], IfSome};
ghost use Rattle.ttx_cycle.specs.Counters.{inner_of};
ghost use Rattle.ttx_files.specs.Answers.{IsUntouched};
ghost use Rattle.ttx_files.specs.Devices.{AtCycle};
ghost use Rattle.ttx_faults.specs.Devices.{is_tool_write, Fails, read_from, written_to};
ghost use Rattle.ttx_tool.specs.Send.{Sends};

use std::alloc::Global;
use std::io::{Read, Write};
use ttx_arguments::Sending;
use ttx_cycle::{Counted, WriteFault};
use ttx_faults::ToolFault;
use ttx_files::{FilesFault, read_packets};
use ttx_send::Clock;

/// Reads a packet file, and sends the cycle again and again, with the time of the clock: as many fields as `sending` says, from its
/// field of the repeated cycle on and with its lines.
///
/// Nothing is written before the whole file is read, and sending takes no memory. After `Write` exactly the first `written` bytes
/// of the fields went out; after any other fault the writer is unchanged.
pub fn run<C: Clock, R: Read, W: Write>(
    alloc: Global,
    reader: &mut Counted<R>,
    clock: &C,
    sending: &Sending,
    writer: &mut Counted<W>,
) -> Result<(), ToolFault>
    ensures bytes { IfSome (R.remaining (inner_of reader.old))
        (λ bytes. Sends bytes (C.shows clock.now) sending.now (W.contents (inner_of writer.old)) (W.contents (inner_of writer.new)) result) }
    ensures faults { Fails (read_from AtCycle R.remaining reader.old reader.new ∷ written_to writer.old writer.new ∷ []) result }
    ensures untouched { IsUntouched is_tool_write result writer.old writer.new }
{
    let cycle = read_packets(alloc, reader)?;
    let lines = sending.lines.count();
    match ttx_send::send(&cycle, clock, lines, sending.phase, sending.fields, writer) {
        Ok(()) => Ok(()),
        Err(WriteFault { written }) => Err(ToolFault::Files(FilesFault::Write { written })),
    }
}
