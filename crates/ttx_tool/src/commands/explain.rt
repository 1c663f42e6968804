//! `explain`: what a reason means, and what to do.

ghost use Rattle.std.specs.Prelude.{◌<◌, ◌∷◌, [], length};
ghost use Rattle.ttx_cycle.specs.Counters.{inner_of};
ghost use Rattle.ttx_faults.specs.Devices.{Fails, written_to};
ghost use Rattle.ttx_tool.specs.Explain.{Explains};

use std::alloc::Global;
use std::io::Write;
use ttx_cycle::Counted;
use ttx_faults::{ToolFault, write_text};
use ttx_reasons::{Entry, explain};

/// Writes what a reason of the table means and what to do, by its number or its name: the status is 0. For any other word it writes the
/// nearest name to `errors`: the status is 2.
pub fn run<W: Write, E: Write>(
    alloc: Global,
    table: &[Entry],
    reason: &str,
    writer: &mut Counted<W>,
    errors: &mut Counted<E>,
) -> Result<u8, ToolFault>
    requires { 0 < length table.now }
    ensures bytes { Explains table.now reason.now (W.contents (inner_of writer.old)) (W.contents (inner_of writer.new))
        (E.contents (inner_of errors.old)) (E.contents (inner_of errors.new)) result }
    ensures faults { Fails (written_to writer.old writer.new ∷ written_to errors.old errors.new ∷ []) result }
{
    let explained = explain(alloc, table, reason)?;
    if explained.known {
        write_text(writer, explained.text.as_str(), 0)
    } else {
        write_text(errors, explained.text.as_str(), 2)
    }
}
