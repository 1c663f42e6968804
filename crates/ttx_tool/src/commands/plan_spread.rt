//! `plan --spread`: the cycle that carries a service in rounds of about the same length, and keeps its promises and its stays.

ghost use Rattle.std.specs.Prelude.{◌≡◌, ◌≤◌, ◌∷◌, [], IfSome, IfOk, IfErr, Ok, Err};
ghost use Rattle.ttx_cycle.specs.Counters.{inner_of};
ghost use Rattle.ttx_cycle.specs.Cycles.{slots_of};
ghost use Rattle.ttx_files.specs.Answers.{IsUntouched};
ghost use Rattle.ttx_files.specs.Devices.{AtService};
ghost use Rattle.ttx_faults.specs.Devices.{is_tool_write, Fails, Reads, read_from, written_to};
ghost use Rattle.ttx_faults.specs.Reports.{Reports};
ghost use Rattle.ttx_tool.specs.SpreadPlans.{SaysFault, Spreads, WritesPlan, PlansSpread};

use super::plan::planned_line;
use super::stays::read_staying;
use std::alloc::{AllocError, Global};
use std::io::{Read, Write};
use ttx_carousel::{StayFault, missed_line, plan_stays, stay_lines};
use ttx_cycle::{Counted, Cycle};
use ttx_faults::{ToolFault, write_text};
use ttx_files::{FilesFault, write_both};
use ttx_plan::PlanFault;
use ttx_promise::{PromiseFault, Viewers, late_lines};

// The result of planning.
#[derive(Drop)]
enum Spread {
    // All is kept.
    Kept(Cycle),
    // The lines of what is not kept.
    Missed(String),
}

// The result for lines.
fn missed(lines: Result<String, AllocError>) -> Result<Spread, ToolFault>
    ensures lines { IfOk lines (λ text. result ≡ Ok (Spread.Missed text)) }
    ensures memory { IfErr lines (λ _. result ≡ Err (ToolFault.Files FilesFault.NoMemory)) }
{
    match lines {
        Ok(text) => Ok(Spread::Missed(text)),
        Err(_) => Err(ToolFault::Files(FilesFault::NoMemory)),
    }
}

// The result if there is no plan.
fn say(alloc: Global, fault: StayFault) -> Result<Spread, ToolFault>
    ensures { SaysFault fault result }
{
    match fault {
        StayFault::Promise {
            fault: PromiseFault::Late { pages },
        } => missed(late_lines(alloc, &pages)),
        StayFault::Promise {
            fault: PromiseFault::NoPages,
        } => Err(ToolFault::Plan(PlanFault::NoPages)),
        StayFault::Promise {
            fault: PromiseFault::TooLong,
        } => Err(ToolFault::Plan(PlanFault::TooLong)),
        StayFault::TooLong => Err(ToolFault::Plan(PlanFault::TooLong)),
        StayFault::Short { numbers } => missed(stay_lines(alloc, &numbers)),
        StayFault::Missed { missed: what } => missed(missed_line(alloc, what)),
        _ => Err(ToolFault::Files(FilesFault::NoMemory)),
    }
}

// The plan of the service of a text, or the lines of what no plan keeps.
fn spread_text<R: Read>(
    alloc: Global,
    reader: &mut Counted<R>,
    viewers: Viewers,
) -> Result<Spread, ToolFault>
    requires some { 1 ≤ viewers.repeat }
    requires few { viewers.repeat ≤ 8 }
    ensures bytes { IfSome (R.remaining (inner_of reader.old)) (λ bytes. Spreads bytes viewers result) }
    ensures faults { Reads (read_from AtService R.remaining reader.old reader.new ∷ []) result }
{
    let mut staying = match read_staying(alloc, reader) {
        Ok(staying) => staying,
        Err(fault) => return Err(fault),
    };
    match plan_stays(
        alloc,
        &mut staying.promised.service,
        viewers,
        &staying.promised.promises,
        &staying.stays,
    ) {
        Ok(cycle) => Ok(Spread::Kept(cycle)),
        Err(fault) => say(alloc, fault),
    }
}

// Writes the packet file of a plan, and the line of its slots.
fn write_plan<O: Write, W: Write>(
    alloc: Global,
    cycle: &Cycle,
    file: &mut Counted<O>,
    writer: &mut Counted<W>,
) -> Result<u8, ToolFault>
    ensures bytes { WritesPlan (slots_of cycle.now) (O.contents (inner_of file.old)) (O.contents (inner_of file.new))
        (W.contents (inner_of writer.old)) (W.contents (inner_of writer.new)) result }
    ensures faults { Fails (written_to file.old file.new ∷ written_to writer.old writer.new ∷ []) result }
    ensures untouched { IsUntouched is_tool_write result file.old file.new × IsUntouched is_tool_write result writer.old writer.new }
{
    let slots = cycle.slots();
    let Ok(line) = planned_line(alloc, slots.len()) else {
        return Err(ToolFault::Files(FilesFault::NoMemory));
    };
    match write_both(file, slots.as_flattened(), writer, line.as_bytes()) {
        Ok(()) => Ok(0),
        Err(fault) => Err(ToolFault::Files(fault)),
    }
}

/// Reads the text of a service with its promises and its stays, and writes the packet file of a spread plan that keeps all of them to these
/// viewers; then the number of its slots to the other writer: the status is 0. If there is no such plan, writes nothing to the file, and to
/// the other writer a line for each page that comes too late, for each number that stays too short, or for what else is missed in a cycle
/// that keeps the stays: the status is 1. `repeat` of the viewers is 1 to 8.
///
/// Nothing is written before the whole plan is made. After `Write` exactly the first `written` bytes of both went out, the file's before the
/// line's; after any other fault both writers are unchanged.
pub fn run<R: Read, O: Write, W: Write>(
    alloc: Global,
    reader: &mut Counted<R>,
    viewers: Viewers,
    file: &mut Counted<O>,
    writer: &mut Counted<W>,
) -> Result<u8, ToolFault>
    requires some { 1 ≤ viewers.repeat }
    requires few { viewers.repeat ≤ 8 }
    ensures bytes { IfSome (R.remaining (inner_of reader.old)) (λ bytes. PlansSpread bytes viewers
        (O.contents (inner_of file.old)) (O.contents (inner_of file.new)) (W.contents (inner_of writer.old)) (W.contents (inner_of writer.new))
        result) }
    ensures faults { Fails (read_from AtService R.remaining reader.old reader.new ∷ written_to file.old file.new ∷ written_to writer.old writer.new
        ∷ []) result }
    ensures untouched { IsUntouched is_tool_write result file.old file.new × IsUntouched is_tool_write result writer.old writer.new }
{
    match spread_text(alloc, reader, viewers) {
        Ok(Spread::Kept(cycle)) => write_plan(alloc, &cycle, file, writer),
        Ok(Spread::Missed(lines)) => write_text(writer, lines.as_str(), 1),
        Err(fault) => Err(fault),
    }
}
