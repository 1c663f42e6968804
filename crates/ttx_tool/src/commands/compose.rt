//! `compose`: the service text of an author's text, or its mistakes.

ghost use Rattle.std.specs.Prelude.{◌∷◌, [], None, IfSome};
ghost use Rattle.ttx_author_files.specs.Composing.{IsToldBy};
ghost use Rattle.ttx_author_files.specs.Translating.{TranslatesFile};
ghost use Rattle.ttx_cycle.specs.Counters.{inner_of, faults_of};
ghost use Rattle.ttx_files.specs.Answers.{IsUntouched};
ghost use Rattle.ttx_files.specs.Devices.{AtService, input};
ghost use Rattle.ttx_tool.specs.Answers.{IsAnswered};
ghost use Rattle.ttx_faults.specs.Devices.{is_tool_write, Fails, written_to};

use std::alloc::Global;
use std::io::{Read, Write};
use ttx_author_files::{Compose, translate_file};
use ttx_cycle::Counted;
use ttx_faults::ToolFault;

/// Reads an author's text with this name, of at most 4,194,304 bytes, and writes the service text that it means; then the number of its
/// pages to the other writer: the status is 0. If the text has mistakes or is not TOML, it writes no text, but the lines of the mistakes
/// to the other writer: the status is 1.
///
/// Nothing is written before the service text is read again. After `Write` exactly the first `written` bytes of both went out, the
/// file's before the line's; after any other fault both writers are unchanged.
pub fn run<R: Read, O: Write, W: Write>(
    alloc: Global,
    name: &str,
    reader: &mut Counted<R>,
    file: &mut Counted<O>,
    writer: &mut Counted<W>,
) -> Result<u8, ToolFault>
    ensures bytes { IsAnswered (λ status. status) (λ answer. IfSome (R.remaining (inner_of reader.old)) (λ bytes.
        TranslatesFile (IsToldBy name.now bytes) (λ error. ⊥) bytes (O.contents (inner_of file.old)) (O.contents (inner_of file.new))
        (W.contents (inner_of writer.old)) (W.contents (inner_of writer.new)) answer)) result }
    ensures faults { Fails (input AtService None (faults_of reader.old) (faults_of reader.new) ∷ written_to file.old file.new
        ∷ written_to writer.old writer.new ∷ []) result }
    ensures untouched { IsUntouched is_tool_write result file.old file.new × IsUntouched is_tool_write result writer.old writer.new }
{
    Ok(translate_file::<Compose, R, O, W>(alloc, name, reader, file, writer)?)
}
