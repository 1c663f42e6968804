//! `check`: what is wrong, or likely wrong, in the text of a service or of an author.

ghost use Rattle.std.specs.Prelude.{◌∷◌, [], None, IfSome, IfErr};
ghost use Rattle.ttx_author_files.specs.Checking.{Checks};
ghost use Rattle.ttx_check.specs.Checking.{IsCheckFault};
ghost use Rattle.ttx_cycle.specs.Counters.{inner_of, faults_of};
ghost use Rattle.ttx_files.specs.Answers.{IsUntouched};
ghost use Rattle.ttx_files.specs.Devices.{AtService, input};
ghost use Rattle.ttx_tool.specs.Answers.{IsAnswered};
ghost use Rattle.ttx_faults.specs.Devices.{is_tool_write, Fails, written_to};

use std::alloc::Global;
use std::io::{Read, Write};
pub use ttx_author_files::Style;
use ttx_author_files::check_file;
use ttx_cycle::Counted;
use ttx_faults::ToolFault;

/// Reads the text of a service or of an author, of at most 4,194,304 bytes, and writes the report on it in this style: the status is 2
/// where the text is refused, 1 where there are warnings and they count, else 0.
///
/// Nothing is written before the text is read. After `Write` exactly the first `written` bytes went out; after any other fault the
/// writer is unchanged.
pub fn run<R: Read, W: Write>(
    alloc: Global,
    style: Style<'_>,
    reader: &mut Counted<R>,
    writer: &mut Counted<W>,
) -> Result<u8, ToolFault>
    ensures bytes { IsAnswered (λ status. status) (λ answer. IfSome (R.remaining (inner_of reader.old))
        (λ bytes. Checks style.entry bytes (W.contents (inner_of writer.old)) (W.contents (inner_of writer.new)) answer)) result }
    ensures own { IsAnswered (λ status. status) (λ answer. IfErr answer IsCheckFault) result }
    ensures faults { Fails (input AtService None (faults_of reader.old) (faults_of reader.new) ∷ written_to writer.old writer.new ∷ []) result }
    ensures untouched { IsUntouched is_tool_write result writer.old writer.new }
{
    Ok(check_file(alloc, style, reader, writer)?)
}
