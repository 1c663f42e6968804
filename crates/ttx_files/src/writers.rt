//! Writers of a line, and of a file with a line after it.

ghost use Rattle.std.specs.Prelude.{◌∷◌, [], IfErr};
ghost use Rattle.ttx_cycle.specs.Counters.{inner_of, faults_of};
ghost use Rattle.ttx_files.specs.Devices.{AtOutput, output, failed_at, IsFirstFailure, IsOf};
ghost use Rattle.ttx_files.specs.Answers.{WritesLine, WritesBoth};

use crate::faults::FilesFault;
use std::io::Write;
use ttx_cycle::{Counted, WriteFault, write_bytes};

/// Writes a line. At `Write` exactly its first `written` bytes went out.
pub fn write_line<W: Write>(writer: &mut Counted<W>, line: &[u8]) -> Result<(), FilesFault>
    ensures bytes { WritesLine line.now (W.contents (inner_of writer.old)) (W.contents (inner_of writer.new)) result }
    ensures own { IfErr result (IsOf (AtOutput ∷ [])) }
    ensures faults { IsFirstFailure (output (faults_of writer.old) (faults_of writer.new) ∷ []) (failed_at result) }
{
    match write_bytes(writer, line) {
        Ok(()) => Ok(()),
        Err(WriteFault { written }) => Err(FilesFault::Write { written }),
    }
}

/// Writes the bytes of a file, then a line to another writer. At `Write` exactly the first `written` bytes of both together went out; the
/// line begins only after the whole file.
pub fn write_both<O: Write, W: Write>(
    file: &mut Counted<O>,
    bytes: &[u8],
    writer: &mut Counted<W>,
    line: &[u8],
) -> Result<(), FilesFault>
    ensures bytes { WritesBoth bytes.now line.now (O.contents (inner_of file.old)) (O.contents (inner_of file.new))
        (W.contents (inner_of writer.old)) (W.contents (inner_of writer.new)) result }
    ensures own { IfErr result (IsOf (AtOutput ∷ [])) }
    ensures faults { IsFirstFailure (output (faults_of file.old) (faults_of file.new) ∷ output (faults_of writer.old) (faults_of writer.new) ∷ [])
        (failed_at result) }
{
    if let Err(WriteFault { written }) = write_bytes(file, bytes) {
        return Err(FilesFault::Write { written });
    }
    match write_bytes(writer, line) {
        Ok(()) => Ok(()),
        Err(WriteFault { written }) => Err(FilesFault::Write {
            written: bytes.len() + written,
        }),
    }
}
