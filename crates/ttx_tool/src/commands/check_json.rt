//! `check --json`: what is wrong, or likely wrong, in the text of a service or of an author, as JSON objects.

ghost use Rattle.std.specs.Prelude.{◌∷◌, [], None, IfSome, IfErr};
ghost use Rattle.ttx_check.specs.Checking.{IsCheckFault};
ghost use Rattle.ttx_cycle.specs.Counters.{inner_of, faults_of};
ghost use Rattle.ttx_files.specs.Answers.{IsUntouched};
ghost use Rattle.ttx_files.specs.Devices.{AtService, input, output};
ghost use Rattle.ttx_mistake_records.specs.Checking.{Checks};
ghost use Rattle.ttx_tool.specs.Answers.{IsAnswered};
ghost use Rattle.ttx_faults.specs.Devices.{is_tool_write, Fails};

use std::alloc::Global;
use std::io::{Read, Write};
use ttx_cycle::Counted;
use ttx_faults::ToolFault;
use ttx_mistake_records::check_file_json;

/// Reads the text of a service or of an author, of at most 4,194,304 bytes, and writes each error and each warning of its long report as a
/// JSON object, and last how many there are. `file` is the name of the file. The status is 2 where the text is refused, 1 where there are
/// warnings and they count (`strict`), else 0.
///
/// Nothing is written before the text is read. After `Write` exactly the first `written` bytes went out; after any other fault the writer is
/// unchanged.
pub fn run<R: Read, W: Write>(
    alloc: Global,
    file: &str,
    strict: bool,
    reader: &mut Counted<R>,
    writer: &mut Counted<W>,
) -> Result<u8, ToolFault>
    ensures bytes { IsAnswered (λ status. status) (λ answer. IfSome (R.remaining (inner_of reader.old))
        (λ bytes. Checks file.now strict bytes (W.contents (inner_of writer.old)) (W.contents (inner_of writer.new)) answer)) result }
    ensures own { IsAnswered (λ status. status) (λ answer. IfErr answer IsCheckFault) result }
    ensures faults { Fails (input AtService None (faults_of reader.old) (faults_of reader.new)
        ∷ output (faults_of writer.old) (faults_of writer.new) ∷ []) result }
    ensures untouched { IsUntouched is_tool_write result writer.old writer.new }
{
    Ok(check_file_json(alloc, file, strict, reader, writer)?)
}
