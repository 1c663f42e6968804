//! The line about an input of another kind than its place takes, after the line that refuses it.

ghost use Rattle.std.specs.Prelude.{◌≡◌, ◌∷◌, [], IfOk, string_bytes};
ghost use Rattle.ttx_cycle.specs.Counters.{inner_of, faults_of};
ghost use Rattle.ttx_files.specs.Answers.{IsUntouched};
ghost use Rattle.ttx_files.specs.Devices.{output};
ghost use Rattle.ttx_kinds.specs.Lines.{told_line};
ghost use Rattle.ttx_faults.specs.Devices.{is_tool_write, Fails};
ghost use Rattle.ttx_faults.specs.Reports.{Reports};

use std::alloc::{AllocError, Global};
use std::io::Write;
use ttx_cycle::Counted;
use ttx_faults::{ToolFault, write_text};
use ttx_kinds::{Place, push_other};

// The line, or no text.
fn told_line(alloc: Global, place: Place, bytes: &[u8]) -> Result<String, AllocError>
    ensures { IfOk result (λ text. string_bytes text ≡ told_line place bytes.now) }
{
    let mut text = String::new(alloc);
    push_other(&mut text, place, bytes)?;
    Ok(text)
}

/// Writes the line that says what an input is by its first bytes, and what its place takes, if the place does not take it; otherwise writes
/// nothing. Returns the given status.
///
/// After `Write` exactly the first `written` bytes of the line went out; after any other fault the writer is unchanged.
pub fn run<W: Write>(
    alloc: Global,
    place: Place,
    bytes: &[u8],
    status: u8,
    writer: &mut Counted<W>,
) -> Result<u8, ToolFault>
    ensures bytes { Reports (told_line place bytes.now) status (W.contents (inner_of writer.old)) (W.contents (inner_of writer.new)) result }
    ensures faults { Fails (output (faults_of writer.old) (faults_of writer.new) ∷ []) result }
    ensures untouched { IsUntouched is_tool_write result writer.old writer.new }
{
    let line = told_line(alloc, place, bytes)?;
    write_text(writer, line.as_str(), status)
}
