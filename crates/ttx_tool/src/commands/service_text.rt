//! The service text that a file stands for: `preview` takes an author's text in its place.

ghost use Rattle.std.specs.Prelude.{◌∷◌, [], None, IfSome};
ghost use Rattle.ttx_cycle.specs.Counters.{inner_of, faults_of};
ghost use Rattle.ttx_files.specs.Answers.{IsUntouched};
ghost use Rattle.ttx_files.specs.Devices.{AtService, input};
ghost use Rattle.ttx_faults.specs.Devices.{is_tool_write, Fails, written_to};
ghost use Rattle.ttx_faults.specs.Reports.{Reports};
ghost use Rattle.ttx_tool.specs.Standing.{Stands};

use std::alloc::Global;
use std::io::{Read, Write};
pub use ttx_author_files::Standing;
use ttx_author_files::read_standing;
use ttx_cycle::Counted;
use ttx_faults::{ToolFault, write_text};

/// Reads a service text or an author's text with this name, of at most 4,194,304 bytes: the service text that it stands for, or the lines
/// about an author's text that has none.
pub fn read<R: Read>(
    alloc: Global,
    name: &str,
    reader: &mut Counted<R>,
) -> Result<Standing, ToolFault>
    ensures bytes { IfSome (R.remaining (inner_of reader.old)) (λ bytes. Stands name.now bytes result) }
    ensures faults { Fails (input AtService None (faults_of reader.old) (faults_of reader.new) ∷ []) result }
{
    match read_standing(alloc, name, reader) {
        Ok(standing) => Ok(standing),
        Err(fault) => Err(ToolFault::Files(fault)),
    }
}

/// Writes the lines about an author's text that has no service text: the status is 2. At a fault the first `written` bytes of them went out.
pub fn refuse<W: Write>(writer: &mut Counted<W>, lines: &str) -> Result<u8, ToolFault>
    ensures bytes { Reports lines.now 2 (W.contents (inner_of writer.old)) (W.contents (inner_of writer.new)) result }
    ensures faults { Fails (written_to writer.old writer.new ∷ []) result }
    ensures untouched { IsUntouched is_tool_write result writer.old writer.new }
{
    write_text(writer, lines, 2)
}
