//! The line about bytes that are no packets of 42 bytes, after the lines of `pages`, `show`, `book` and `extract`.

ghost use Rattle.std.specs.Prelude.{◌≡◌, ◌∷◌, [], ◌++◌, IfOk, string_bytes};
ghost use Rattle.ttx_cycle.specs.Counters.{inner_of};
ghost use Rattle.ttx_files.specs.Answers.{IsUntouched};
ghost use Rattle.ttx_recognition.specs.Lines.{unlike_line};
ghost use Rattle.ttx_faults.specs.Devices.{is_tool_write, Fails, written_to};
ghost use Rattle.ttx_tool.specs.Diagnosis.{Diagnoses};

use std::alloc::{AllocError, Global};
use std::io::Write;
use ttx_cycle::Counted;
use ttx_faults::{ToolFault, write_text};
use ttx_recognition::{Unlike, push_unlike, recognise};

// The line.
fn unlike_line(alloc: Global, unlike: Unlike) -> Result<String, AllocError>
    ensures { IfOk result (λ text. string_bytes text ≡ unlike_line unlike) }
{
    let mut text = String::new(alloc);
    push_unlike(&mut text, unlike)?;
    Ok(text)
}

/// Writes what the first bytes of a packet file are if they are no packets of 42 bytes, and returns status 1; otherwise writes nothing, and returns the
/// given status.
///
/// After `Write` exactly the first `written` bytes of the line went out; after any other fault the writer is unchanged.
pub fn run<W: Write>(
    alloc: Global,
    bytes: &[u8],
    status: u8,
    writer: &mut Counted<W>,
) -> Result<u8, ToolFault>
    ensures bytes { Diagnoses bytes.now status (W.contents (inner_of writer.old)) (W.contents (inner_of writer.new)) result }
    ensures faults { Fails (written_to writer.old writer.new ∷ []) result }
    ensures untouched { IsUntouched is_tool_write result writer.old writer.new }
{
    let Some(unlike) = recognise(bytes) else {
        return Ok(status);
    };
    let line = unlike_line(alloc, unlike)?;
    write_text(writer, line.as_str(), 1)
}
