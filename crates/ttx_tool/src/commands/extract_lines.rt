//! `extract` without `--lines`: the lines of a field with which the pages of a cycle have a deadline.

ghost use Rattle.std.specs.Prelude.{◌≡◌, ◌∷◌, [], IfSome, IfOk, IfErr, string_bytes};
ghost use Rattle.ttx_cycle.specs.Counters.{inner_of, faults_of};
ghost use Rattle.ttx_cycle.specs.Cycles.{slots_of};
ghost use Rattle.ttx_extract.specs.Extracts.{AnswersFault};
ghost use Rattle.ttx_files.specs.Answers.{IsUntouched};
ghost use Rattle.ttx_files.specs.Devices.{AtCycle, input, output, IsRight};
ghost use Rattle.ttx_possible.specs.Lines.{values_line};
ghost use Rattle.ttx_tool.specs.Extract.{IsExtractFault, is_extraction_write, FailsExtract};
ghost use Rattle.ttx_tool.specs.ExtractLines.{IsNamedOf, IsNamed, NamesText, NamesLines};

use std::alloc::{AllocError, Global};
use std::io::{Read, Write};
use ttx_cycle::{Counted, Cycle};
use ttx_extract::Extracted;
use ttx_faults::{ExtractionFault, ToolFault};
use ttx_files::{FilesFault, read_packets, write_line};
use ttx_possible::{Values, first_values, push_values};

// The status of the program: no lines were given.
const NO_LINES: u8 = 1;

// Any lines of a field: the pages of a cycle do not depend on them.
const ANY_LINES: u8 = 1;

// The line.
fn values_line(alloc: Global, values: Option<Values>) -> Result<String, AllocError>
    ensures { IfOk result (λ line. string_bytes line ≡ values_line values) }
{
    let mut text = String::new(alloc);
    push_values(&mut text, values)?;
    Ok(text)
}

// The line about the pages of a cycle.
fn name(alloc: Global, cycle: &Cycle, extracted: &Extracted) -> Result<String, ExtractionFault>
    ensures named { IfOk result (λ line. IsNamedOf (slots_of cycle.now) extracted.now.service (string_bytes line)) }
    ensures fault { IfErr result (IsExtractFault (AnswersFault (slots_of cycle.now) 1)) }
{
    let Ok(found) = first_values(alloc, cycle, &extracted.service) else {
        return Err(ExtractionFault::Tool(ToolFault::Files(FilesFault::NoMemory)));
    };
    match values_line(alloc, found) {
        Ok(line) => Ok(line),
        Err(_) => Err(ExtractionFault::Tool(ToolFault::Files(FilesFault::NoMemory))),
    }
}

// The line about a cycle.
fn tell(alloc: Global, cycle: &Cycle) -> Result<String, ExtractionFault>
    ensures named { IfOk result (λ line. IsNamed (slots_of cycle.now) (string_bytes line)) }
    ensures fault { IfErr result (IsExtractFault (AnswersFault (slots_of cycle.now) 1)) }
{
    match ttx_extract::extract(alloc, cycle, ANY_LINES) {
        Ok(extracted) => name(alloc, cycle, &extracted),
        Err(fault) => Err(ExtractionFault::Refused(fault)),
    }
}

// The same of a packet file.
fn line_of<R: Read>(alloc: Global, reader: &mut Counted<R>) -> Result<String, ExtractionFault>
    ensures bytes { IfSome (R.remaining (inner_of reader.old)) (λ bytes. NamesText bytes result) }
    ensures right { IfOk result (λ _. IsRight AtCycle (R.remaining (inner_of reader.old))) }
    ensures faults { FailsExtract (input AtCycle (R.remaining (inner_of reader.old)) (faults_of reader.old) (faults_of reader.new) ∷ []) result }
{
    let cycle = match read_packets(alloc, reader) {
        Ok(cycle) => cycle,
        Err(fault) => return Err(ExtractionFault::Tool(ToolFault::Files(fault))),
    };
    match tell(alloc, &cycle) {
        Ok(line) => Ok(line),
        Err(fault) => Err(fault),
    }
}

/// Reads a packet file, and writes the line that says with which lines of a field the pages that it sends have a deadline.
///
/// After `Write` exactly the first `written` bytes of the line went out; after any other fault the writer is unchanged. The status is 1, since
/// nothing is extracted. `report_extraction` has the lines of faults.
pub fn run<R: Read, W: Write>(
    alloc: Global,
    reader: &mut Counted<R>,
    writer: &mut Counted<W>,
) -> Result<u8, ExtractionFault>
    ensures bytes { IfSome (R.remaining (inner_of reader.old)) (λ bytes. NamesLines bytes
        (W.contents (inner_of writer.old)) (W.contents (inner_of writer.new)) result) }
    ensures faults { FailsExtract (input AtCycle (R.remaining (inner_of reader.old)) (faults_of reader.old) (faults_of reader.new)
        ∷ output (faults_of writer.old) (faults_of writer.new) ∷ []) result }
    ensures untouched { IsUntouched is_extraction_write result writer.old writer.new }
{
    let line = match line_of(alloc, reader) {
        Ok(line) => line,
        Err(fault) => return Err(fault),
    };
    match write_line(writer, line.as_bytes()) {
        Ok(()) => Ok(NO_LINES),
        Err(fault) => Err(ExtractionFault::Tool(ToolFault::Files(fault))),
    }
}
