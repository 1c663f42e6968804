//! `receive`: what a receiver holds after some slots of a cycle.

ghost use Rattle.std.specs.Prelude.{◌∷◌, [], IfSome, fold};
ghost use Rattle.ttx_cycle.specs.Counters.{inner_of};
ghost use Rattle.ttx_files.specs.Answers.{IsUntouched};
ghost use Rattle.ttx_files.specs.Devices.{AtCycle};
ghost use Rattle.ttx_page.specs.Memories.{blank_memory};
ghost use Rattle.ttx_faults.specs.Devices.{is_tool_write, Fails, read_from, written_to};
ghost use Rattle.ttx_tool.specs.Receive.{tuned_as, tuned_to, held_by, Receives};

use crate::receiver_steps::hear_file;
use std::alloc::Global;
use std::io::{Read, Write};
use ttx_arguments::{ReceiverKind, Tuning};
use ttx_cycle::Counted;
use ttx_faults::{ToolFault, write_text};
use ttx_files::FilesFault;
use ttx_lines::view_lines;
use ttx_page::PageMemory;
use ttx_receiver::{Careful, Cleared, Eager, Receiver, Watched};

// What this receiver holds after `count` slots from slot `start` on.
fn receive_by<R: Read, X: Receiver + Drop, W: Write>(
    alloc: Global,
    reader: &mut Counted<R>,
    receiver: X,
    start: u16,
    count: u32,
    writer: &mut Counted<W>,
) -> Result<u8, ToolFault>
    ensures bytes { IfSome (R.remaining (inner_of reader.old))
        (λ bytes. Receives (tuned_as (X.kind receiver) (X.field receiver) (X.tuned receiver))
        (λ sent. X.held (fold X.next receiver sent)) start count bytes (X.held receiver)
        (W.contents (inner_of writer.old)) (W.contents (inner_of writer.new)) result) }
    ensures faults { Fails (read_from AtCycle R.remaining reader.old reader.new ∷ written_to writer.old writer.new ∷ []) result }
    ensures untouched { IsUntouched is_tool_write result writer.old writer.new }
{
    let mut receiver = Watched::new(receiver);
    if let Err(fault) = hear_file(alloc, reader, &mut receiver, start, count) {
        return Err(ToolFault::Files(fault));
    }
    let Ok(text) = view_lines(alloc, receiver.view()) else {
        return Err(ToolFault::Files(FilesFault::NoMemory));
    };
    write_text(writer, text.as_str(), 0)
}

/// Reads a packet file, gives the slots of the tuning to a receiver of the kind that is asked for, which has received nothing before,
/// round the cycle, and writes the View of what it then holds. The status is 0.
///
/// Nothing is written before the whole file is read. After `Write` exactly the first `written` bytes of the text went out; after any
/// other fault the writer is unchanged.
pub fn run<R: Read, W: Write>(
    alloc: Global,
    reader: &mut Counted<R>,
    tuning: &Tuning,
    writer: &mut Counted<W>,
) -> Result<u8, ToolFault>
    ensures bytes { IfSome (R.remaining (inner_of reader.old))
        (λ bytes. Receives (tuned_to tuning.now) (held_by tuning.now) tuning.now.start tuning.now.slots bytes blank_memory
        (W.contents (inner_of writer.old)) (W.contents (inner_of writer.new)) result) }
    ensures faults { Fails (read_from AtCycle R.remaining reader.old reader.new ∷ written_to writer.old writer.new ∷ []) result }
    ensures untouched { IsUntouched is_tool_write result writer.old writer.new }
{
    let (selection, lines, blank) = (tuning.selection, tuning.lines.count(), PageMemory::blank());
    let (start, slots) = (tuning.start, tuning.slots);
    match tuning.kind {
        ReceiverKind::Eager => {
            let receiver = Eager::new(selection, lines, blank);
            receive_by(alloc, reader, receiver, start, slots, writer)
        }
        ReceiverKind::Careful => {
            let receiver = Careful::new(selection, lines, blank);
            receive_by(alloc, reader, receiver, start, slots, writer)
        }
        ReceiverKind::Cleared => {
            let receiver = Cleared::new(selection, lines, blank);
            receive_by(alloc, reader, receiver, start, slots, writer)
        }
    }
}
