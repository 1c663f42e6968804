//! `version`: which program this is.

ghost use Rattle.std.specs.Prelude.{◌∷◌, []};
ghost use Rattle.ttx_cycle.specs.Counters.{inner_of};
ghost use Rattle.ttx_faults.specs.Devices.{Fails, written_to};
ghost use Rattle.ttx_tool.specs.Version.{version_text, TellsVersion};

use std::io::Write;
use ttx_cycle::Counted;
use ttx_faults::ToolFault;
use ttx_files::write_line;

// What `rt version` says of the kit and the logic by which the program is proved stands behind its own version.
pub(super) const VERSION: &str = "ttx 1.0.0\nkit rattle-kit-13f\nlogic dac8208d650f15bf\n";

/// Writes the version of the program, and the kit and the logic by which it is proved.
pub fn run<W: Write>(writer: &mut Counted<W>) -> Result<(), ToolFault>
    ensures bytes { TellsVersion version_text (W.contents (inner_of writer.old)) (W.contents (inner_of writer.new)) result }
    ensures faults { Fails (written_to writer.old writer.new ∷ []) result }
{
    match write_line(writer, VERSION.as_bytes()) {
        Ok(()) => Ok(()),
        Err(fault) => Err(ToolFault::Files(fault)),
    }
}
