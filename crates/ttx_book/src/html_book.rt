//! The command `book`: the pages of a packet file as one HTML file.

ghost use Rattle.std.specs.Prelude.{◌∷◌, [], IfSome, IfErr};
ghost use Rattle.ttx_book.specs.Books.{book_text};
ghost use Rattle.ttx_cycle.specs.Counters.{inner_of, faults_of};
ghost use Rattle.ttx_files.specs.Answers.{IsUntouched, is_write};
ghost use Rattle.ttx_files.specs.Devices.{AtCycle, AtOutput, input, output, failed_at, IsFirstFailure, IsOf};
ghost use Rattle.ttx_pages.specs.Paging.{WritesTextOf};

use crate::books::book_text;
use std::alloc::Global;
use std::io::{Read, Write};
use ttx_cycle::Counted;
use ttx_files::{FilesFault, read_packets, write_line};

/// Reads a packet file and writes all its pages as one HTML file: an index, and each page as it is shown by a receiver that takes
/// no choice and has received all packets of the page twice.
///
/// Nothing is written before the whole file has been read. At a `Write` fault exactly the first `written` bytes of the text have
/// been written; at any other fault the writer is unchanged.
pub fn book<R: Read, W: Write>(
    alloc: Global,
    reader: &mut Counted<R>,
    writer: &mut Counted<W>,
) -> Result<(), FilesFault>
    ensures bytes { IfSome (R.remaining (inner_of reader.old))
        (λ bytes. WritesTextOf book_text bytes (W.contents (inner_of writer.old)) (W.contents (inner_of writer.new)) result) }
    ensures own { IfErr result (IsOf (AtCycle ∷ AtOutput ∷ [])) }
    ensures faults { IsFirstFailure (input AtCycle (R.remaining (inner_of reader.old)) (faults_of reader.old) (faults_of reader.new)
        ∷ output (faults_of writer.old) (faults_of writer.new) ∷ []) (failed_at result) }
    ensures untouched { IsUntouched is_write result writer.old writer.new }
{
    let cycle = read_packets(alloc, reader)?;
    let text = book_text(alloc, cycle.slots()).map_err(|_| FilesFault::NoMemory)?;
    write_line(writer, text.as_bytes())
}
