//! `book`: the pages of a packet file as one HTML file.

ghost use Rattle.std.specs.Prelude.{◌∷◌, [], IfSome};
ghost use Rattle.ttx_book.specs.Books.{book_text};
ghost use Rattle.ttx_cycle.specs.Counters.{inner_of};
ghost use Rattle.ttx_files.specs.Answers.{IsUntouched};
ghost use Rattle.ttx_files.specs.Devices.{AtCycle};
ghost use Rattle.ttx_pages.specs.Paging.{WritesTextOf};
ghost use Rattle.ttx_tool.specs.Answers.{pages_status, IsAnswered};
ghost use Rattle.ttx_faults.specs.Devices.{is_tool_write, Fails, read_from, written_to};

use std::alloc::Global;
use std::io::{Read, Write};
use ttx_book::book;
use ttx_cycle::Counted;
use ttx_faults::ToolFault;

/// Reads a packet file and writes all its pages to the other file as HTML: an index, and each page as it is shown by a receiver that
/// takes no choice and has received all packets of the page twice. The status is 0.
///
/// Nothing is written before the whole file has been read. At a `Write` fault exactly the first `written` bytes of the text have
/// been written; at any other fault the file is unchanged.
pub fn run<R: Read, O: Write>(
    alloc: Global,
    reader: &mut Counted<R>,
    file: &mut Counted<O>,
) -> Result<u8, ToolFault>
    ensures bytes { IsAnswered pages_status (λ answer. IfSome (R.remaining (inner_of reader.old))
        (λ bytes. WritesTextOf book_text bytes (O.contents (inner_of file.old)) (O.contents (inner_of file.new)) answer)) result }
    ensures faults { Fails (read_from AtCycle R.remaining reader.old reader.new ∷ written_to file.old file.new ∷ []) result }
    ensures untouched { IsUntouched is_tool_write result file.old file.new }
{
    book(alloc, reader, file)?;
    Ok(0)
}
