//! `inspect`: the slots of a packet file.

ghost use Rattle.std.specs.Prelude.{◌∷◌, [], IfSome};
ghost use Rattle.ttx_cycle.specs.Counters.{inner_of};
ghost use Rattle.ttx_files.specs.Answers.{IsUntouched};
ghost use Rattle.ttx_files.specs.Devices.{AtCycle};
ghost use Rattle.ttx_faults.specs.Devices.{is_tool_write, Fails, read_from, written_to};
ghost use Rattle.ttx_tool.specs.Inspect.{Inspects};

use std::alloc::Global;
use std::io::{Read, Write};
use ttx_cycle::Counted;
use ttx_faults::ToolFault;
use ttx_files::{read_packets, write_line};
use ttx_lines::slot_lines;

/// Reads a packet file and writes a line for each of its slots.
///
/// Nothing is written before the whole file is read. After `Write` exactly the first `written` bytes of the text went out; after any
/// other fault the writer is unchanged.
pub fn run<R: Read, W: Write>(
    alloc: Global,
    reader: &mut Counted<R>,
    writer: &mut Counted<W>,
) -> Result<(), ToolFault>
    ensures bytes { IfSome (R.remaining (inner_of reader.old))
        (λ bytes. Inspects bytes (W.contents (inner_of writer.old)) (W.contents (inner_of writer.new)) result) }
    ensures faults { Fails (read_from AtCycle R.remaining reader.old reader.new ∷ written_to writer.old writer.new ∷ []) result }
    ensures untouched { IsUntouched is_tool_write result writer.old writer.new }
{
    let cycle = read_packets(alloc, reader)?;
    let text = slot_lines(alloc, cycle.slots())?;
    Ok(write_line(writer, text.as_bytes())?)
}
