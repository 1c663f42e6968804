//! `plan`: the cycle that carries a service.

ghost use Rattle.std.specs.Prelude.{◌≡◌, ◌∷◌, [], IfSome, IfOk, string_bytes};
ghost use Rattle.ttx_cycle.specs.Counters.{inner_of};
ghost use Rattle.ttx_files.specs.Answers.{IsUntouched};
ghost use Rattle.ttx_files.specs.Devices.{AtService};
ghost use Rattle.ttx_faults.specs.Devices.{is_tool_write, Fails, Reads, read_from, written_to};
ghost use Rattle.ttx_tool.specs.Plan.{PlansText, planned_line, Plans};

use std::alloc::{AllocError, Global};
use std::io::{Read, Write};
use ttx_cycle::{Counted, Cycle};
use ttx_faults::ToolFault;
use ttx_files::{read_definition, write_both};
use ttx_plan::{Receivers, plan_with};

// The cycle that carries the service of a text.
fn plan_text<R: Read>(
    alloc: Global,
    reader: &mut Counted<R>,
    receivers: Receivers,
) -> Result<Cycle, ToolFault>
    ensures bytes { IfSome (R.remaining (inner_of reader.old)) (λ bytes. PlansText bytes receivers.late receivers.class result) }
    ensures faults { Reads (read_from AtService R.remaining reader.old reader.new ∷ []) result }
{
    let service = match read_definition(alloc, reader) {
        Ok(service) => service,
        Err(fault) => return Err(ToolFault::Files(fault)),
    };
    match plan_with(alloc, &service, receivers) {
        Ok(cycle) => Ok(cycle),
        Err(fault) => Err(ToolFault::Plan(fault)),
    }
}

// The line that says how many slots a cycle has.
pub(super) fn planned_line(alloc: Global, count: usize) -> Result<String, AllocError>
    ensures { IfOk result (λ line. string_bytes line ≡ planned_line count) }
{
    format!(in alloc; "planned {count} slots\n")
}

/// Reads the text of a service, and writes the packet file of a cycle that carries it to these receivers; then the
/// number of its slots to the other writer.
///
/// Nothing is written before the whole plan is made. After `Write` exactly the first `written` bytes of both went out, the
/// file's before the line's; after any other fault both writers are unchanged. The status is 0.
pub fn run<R: Read, O: Write, W: Write>(
    alloc: Global,
    reader: &mut Counted<R>,
    receivers: Receivers,
    file: &mut Counted<O>,
    writer: &mut Counted<W>,
) -> Result<u8, ToolFault>
    ensures bytes { IfSome (R.remaining (inner_of reader.old)) (λ bytes. Plans bytes receivers.late receivers.class
        (O.contents (inner_of file.old)) (O.contents (inner_of file.new)) (W.contents (inner_of writer.old)) (W.contents (inner_of writer.new))
        result) }
    ensures faults { Fails (read_from AtService R.remaining reader.old reader.new ∷ written_to file.old file.new ∷ written_to writer.old writer.new
        ∷ []) result }
    ensures untouched { IsUntouched is_tool_write result file.old file.new × IsUntouched is_tool_write result writer.old writer.new }
{
    let cycle = plan_text(alloc, reader, receivers)?;
    let slots = cycle.slots();
    let line = planned_line(alloc, slots.len())?;
    write_both(file, slots.as_flattened(), writer, line.as_bytes())?;
    Ok(0)
}
