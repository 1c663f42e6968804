//! `pages`: the pages of a packet file.

ghost use Rattle.std.specs.Prelude.{◌∷◌, [], IfSome};
ghost use Rattle.ttx_cycle.specs.Counters.{inner_of};
ghost use Rattle.ttx_files.specs.Answers.{IsUntouched};
ghost use Rattle.ttx_files.specs.Devices.{AtCycle};
ghost use Rattle.ttx_pages.specs.Listing.{pages_text};
ghost use Rattle.ttx_pages.specs.Paging.{WritesTextOf};
ghost use Rattle.ttx_pages.specs.Records.{pages_records};
ghost use Rattle.ttx_tool.specs.Answers.{pages_status, IsAnswered};
ghost use Rattle.ttx_faults.specs.Devices.{is_tool_write, Fails, read_from, written_to};

use std::alloc::Global;
use std::io::{Read, Write};
use ttx_cycle::Counted;
use ttx_faults::ToolFault;
use ttx_pages::{pages, pages_json};

/// Reads a packet file and writes a line for each page that has a header in it, by rising page numbers, and a line for what belongs to
/// no page. The status is 0.
///
/// Nothing is written before the whole file has been read. At a `Write` fault exactly the first `written` bytes of the text have
/// been written; at any other fault the writer is unchanged.
pub fn run<R: Read, W: Write>(
    alloc: Global,
    reader: &mut Counted<R>,
    writer: &mut Counted<W>,
) -> Result<u8, ToolFault>
    ensures bytes { IsAnswered pages_status (λ answer. IfSome (R.remaining (inner_of reader.old))
        (λ bytes. WritesTextOf pages_text bytes (W.contents (inner_of writer.old)) (W.contents (inner_of writer.new)) answer)) result }
    ensures faults { Fails (read_from AtCycle R.remaining reader.old reader.new ∷ written_to writer.old writer.new ∷ []) result }
    ensures untouched { IsUntouched is_tool_write result writer.old writer.new }
{
    pages(alloc, reader, writer)?;
    Ok(0)
}

/// The same as JSON objects with the names and values of the lines.
pub fn run_json<R: Read, W: Write>(
    alloc: Global,
    reader: &mut Counted<R>,
    writer: &mut Counted<W>,
) -> Result<u8, ToolFault>
    ensures bytes { IsAnswered pages_status (λ answer. IfSome (R.remaining (inner_of reader.old))
        (λ bytes. WritesTextOf pages_records bytes (W.contents (inner_of writer.old)) (W.contents (inner_of writer.new)) answer)) result }
    ensures faults { Fails (read_from AtCycle R.remaining reader.old reader.new ∷ written_to writer.old writer.new ∷ []) result }
    ensures untouched { IsUntouched is_tool_write result writer.old writer.new }
{
    pages_json(alloc, reader, writer)?;
    Ok(0)
}
