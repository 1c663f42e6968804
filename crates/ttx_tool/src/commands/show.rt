//! `show`: a page as a receiver shows it after some slots of a cycle.

ghost use Rattle.std.specs.Prelude.{◌≡◌, ◌∷◌, [], IfSome, IfOk, fold, string_bytes};
ghost use Rattle.ttx_cycle.specs.Counters.{inner_of};
ghost use Rattle.ttx_page.specs.Memories.{blank_memory};
ghost use Rattle.ttx_page.specs.Views.{memory_of};
ghost use Rattle.ttx_picture.specs.Forms.{picture_of};
ghost use Rattle.ttx_files.specs.Answers.{IsUntouched};
ghost use Rattle.ttx_files.specs.Devices.{AtCycle};
ghost use Rattle.ttx_faults.specs.Devices.{is_tool_write, Fails, read_from, written_to};
ghost use Rattle.ttx_tool.specs.Receive.{tuned_as, tuned_to, held_by};
ghost use Rattle.ttx_tool.specs.Show.{no_page_line, shown_text, shown_status, ShowsFile};

use crate::receiver_steps::hear_file;
use std::alloc::{AllocError, Global};
use std::io::{Read, Write};
use ttx_arguments::{Look, ReceiverKind, Tuning};
use ttx_cycle::Counted;
use ttx_faults::{ToolFault, write_text};
use ttx_files::FilesFault;
use ttx_page::PageMemory;
use ttx_picture::push_picture;
use ttx_receiver::{Careful, Cleared, Eager, Receiver};
use ttx_render::{View, render};

// The line that says that there is no such page.
pub(super) fn no_page_line(alloc: Global, name: &str) -> Result<String, AllocError>
    ensures { IfOk result (λ text. string_bytes text ≡ no_page_line name.now) }
{
    format!(in alloc; "no page {name}\n")
}

// A View as it is asked for.
pub(super) fn picture(alloc: Global, look: &Look<'_>, view: &View) -> Result<String, AllocError>
    ensures { IfOk result (λ text. string_bytes text ≡ picture_of look.now.form look.now.reveal view.now) }
{
    let mut text = String::new(alloc);
    push_picture(&mut text, look.form, look.reveal, view)?;
    Ok(text)
}

// What is shown of a memory.
fn shown_text(alloc: Global, look: &Look<'_>, memory: &PageMemory) -> Result<String, AllocError>
    ensures { IfOk result (λ text. string_bytes text ≡ shown_text look.now (memory_of memory.now)) }
{
    if memory.fresh() {
        no_page_line(alloc, look.page)
    } else {
        picture(alloc, look, &render(memory))
    }
}

fn shown_status(memory: &PageMemory) -> u8
    ensures { result ≡ shown_status (memory_of memory.now) }
{
    if memory.fresh() { 1 } else { 0 }
}

// What this receiver shows after the slots that the tuning says.
fn show_by<R: Read, X: Receiver + Drop, W: Write>(
    alloc: Global,
    reader: &mut Counted<R>,
    receiver: X,
    tuning: &Tuning,
    look: &Look<'_>,
    writer: &mut Counted<W>,
) -> Result<u8, ToolFault>
    ensures bytes { IfSome (R.remaining (inner_of reader.old))
        (λ bytes. ShowsFile (tuned_as (X.kind receiver) (X.field receiver) (X.tuned receiver))
        (λ sent. X.held (fold X.next receiver sent)) tuning.now.start tuning.now.slots look.now bytes (X.held receiver)
        (W.contents (inner_of writer.old)) (W.contents (inner_of writer.new)) result) }
    ensures faults { Fails (read_from AtCycle R.remaining reader.old reader.new ∷ written_to writer.old writer.new ∷ []) result }
    ensures untouched { IsUntouched is_tool_write result writer.old writer.new }
{
    let mut receiver = receiver;
    let (start, slots) = (tuning.start, tuning.slots);
    if let Err(fault) = hear_file(alloc, reader, &mut receiver, start, slots) {
        return Err(ToolFault::Files(fault));
    }
    let memory = receiver.memory();
    match shown_text(alloc, look, memory) {
        Ok(text) => write_text(writer, text.as_str(), shown_status(memory)),
        Err(_) => Err(ToolFault::Files(FilesFault::NoMemory)),
    }
}

/// Reads a packet file, gives the slots of the tuning to a receiver of the kind that is asked for, which has received nothing before,
/// round the cycle, and writes the View of what it then holds, as it is asked for: the status is 0. If no header of
/// the page came, it writes a line that says so: the status is 1.
///
/// Nothing is written before the whole file is read. After `Write` exactly the first `written` bytes of the text went out; after any
/// other fault the writer is unchanged.
pub fn run<R: Read, W: Write>(
    alloc: Global,
    reader: &mut Counted<R>,
    tuning: &Tuning,
    look: &Look<'_>,
    writer: &mut Counted<W>,
) -> Result<u8, ToolFault>
    ensures bytes { IfSome (R.remaining (inner_of reader.old))
        (λ bytes. ShowsFile (tuned_to tuning.now) (held_by tuning.now) tuning.now.start tuning.now.slots look.now bytes blank_memory
        (W.contents (inner_of writer.old)) (W.contents (inner_of writer.new)) result) }
    ensures faults { Fails (read_from AtCycle R.remaining reader.old reader.new ∷ written_to writer.old writer.new ∷ []) result }
    ensures untouched { IsUntouched is_tool_write result writer.old writer.new }
{
    let (selection, lines, blank) = (tuning.selection, tuning.lines.count(), PageMemory::blank());
    match tuning.kind {
        ReceiverKind::Eager => {
            let receiver = Eager::new(selection, lines, blank);
            show_by(alloc, reader, receiver, tuning, look, writer)
        }
        ReceiverKind::Careful => {
            let receiver = Careful::new(selection, lines, blank);
            show_by(alloc, reader, receiver, tuning, look, writer)
        }
        ReceiverKind::Cleared => {
            let receiver = Cleared::new(selection, lines, blank);
            show_by(alloc, reader, receiver, tuning, look, writer)
        }
    }
}
