//! `air --replay`: an air again, from its log and the texts that were on the air.

ghost use Rattle.std.specs.Prelude.{◌≡◌, ◌∷◌, [], ◌++◌};
ghost use Rattle.ttx_cycle.specs.Counters.{inner_of, faults_of};
ghost use Rattle.ttx_files.specs.Answers.{IsUntouched};
ghost use Rattle.ttx_files.specs.Devices.{output};
ghost use Rattle.ttx_broadcast.specs.ReplayLines.{outcome_text, outcome_status, log_text};
ghost use Rattle.ttx_faults.specs.Devices.{is_tool_write, Fails};
ghost use Rattle.ttx_tool.specs.ReplayAir.{log_status};
ghost use Rattle.ttx_faults.specs.Reports.{Reports};

use std::alloc::Global;
use std::io::Write;
use ttx_broadcast::{ReplayFault, log_line, outcome_line, outcome_status};
use ttx_cycle::Counted;
use ttx_faults::{ToolFault, write_text};
use ttx_files::FilesFault;
use ttx_logbook::LogFault;

/// Writes the line that says how a replay ended, whose own log is the same as the given one as far as both go, or another one; returns the status
/// of the program.
///
/// After `Write` exactly the first `written` bytes of the line went out; after any other fault the writer is unchanged.
pub fn report<W: Write>(
    alloc: Global,
    outcome: &Result<(), ReplayFault<'_>>,
    is_same: bool,
    writer: &mut Counted<W>,
) -> Result<u8, ToolFault>
    ensures line { Reports (outcome_text is_same outcome.now ++ 10 ∷ []) (outcome_status is_same outcome.now) (W.contents (inner_of writer.old))
        (W.contents (inner_of writer.new)) result }
    ensures faults { Fails (output (faults_of writer.old) (faults_of writer.new) ∷ []) result }
    ensures untouched { IsUntouched is_tool_write result writer.old writer.new }
{
    let Ok(line) = outcome_line(alloc, outcome, is_same) else {
        return Err(ToolFault::Files(FilesFault::NoMemory));
    };
    write_text(writer, line.as_str(), outcome_status(outcome, is_same))
}

// The status of the program after a text that is no log.
fn log_status(fault: &LogFault) -> u8
    ensures { result ≡ log_status fault.now }
{
    match fault {
        LogFault::Line { line: _ } => 2,
        LogFault::NoMemory => 3,
    }
}

/// Writes the line that says why a text is no log, and returns the status of the program. The same holds of faults.
pub fn report_log<W: Write>(
    alloc: Global,
    fault: &LogFault,
    writer: &mut Counted<W>,
) -> Result<u8, ToolFault>
    ensures line { Reports (log_text fault.now ++ 10 ∷ []) (log_status fault.now) (W.contents (inner_of writer.old)) (W.contents (inner_of writer.new)) result }
    ensures faults { Fails (output (faults_of writer.old) (faults_of writer.new) ∷ []) result }
    ensures untouched { IsUntouched is_tool_write result writer.old writer.new }
{
    let Ok(line) = log_line(alloc, fault) else {
        return Err(ToolFault::Files(FilesFault::NoMemory));
    };
    write_text(writer, line.as_str(), log_status(fault))
}
