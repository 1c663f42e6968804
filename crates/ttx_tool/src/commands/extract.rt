//! `extract`: the service definition that a cycle sends.

ghost use Rattle.std.specs.Prelude.{◌≡◌, ◌∷◌, [], ℕ, List, IfSome, IfOk, IfErr, string_bytes};
ghost use Rattle.ttx_cycle.specs.Counters.{inner_of};
ghost use Rattle.ttx_cycle.specs.Cycles.{slots_of};
ghost use Rattle.ttx_extract.specs.Extracts.{AnswersFault};
ghost use Rattle.ttx_extract.specs.declared.faults.ExtractFault.{ExtractFault as TheFault};
ghost use Rattle.ttx_files.specs.Answers.{IsUntouched};
ghost use Rattle.ttx_files.specs.Devices.{AtCycle, IsRight};
ghost use Rattle.ttx_faults.specs.Devices.{read_from, written_to};
ghost use Rattle.ttx_tool.specs.Extract.{extracted_line, IsExtracted, IsExtractFault, ExtractsText, ExtractsFile, is_extraction_write, FailsExtract};

use std::alloc::{AllocError, Global};
use std::io::{Read, Write};
use ttx_cycle::{Counted, Cycle};
use ttx_faults::{ExtractionFault, ToolFault};
use ttx_files::{Filed, FilesFault, read_packets, write_both};

// The line that says how many pages there are.
fn extracted_line(alloc: Global, count: usize) -> Result<String, AllocError>
    ensures { IfOk result (λ line. string_bytes line ≡ extracted_line count) }
{
    format!(in alloc; "extracted {count} pages\n")
}

/// What is made of a cycle with these lines of a field. `says` is the text for its slots, and the lines about it; `refuses` why there is none.
pub trait Extraction {
    ghost says: { ℕ → List (List ℕ) → List ℕ → List ℕ → Type 0 };

    ghost refuses: { ℕ → List (List ℕ) → TheFault → Type 0 };

    /// The text of what a cycle sends, and the lines about it.
    fn tell(alloc: Global, cycle: &Cycle, lines: u8) -> Result<Filed<()>, ExtractionFault>
        ensures told { IfOk result (λ told. says lines (slots_of cycle.now) told.file.items (string_bytes told.line)) }
        ensures fault { IfErr result (IsExtractFault (refuses lines (slots_of cycle.now))) };
}

/// The service that a cycle sends, and the number of its pages. `read_service` reads the text, and each of its pages is sent unchanged: none
/// of the certifier's reasons 2 to 7 is true of it.
pub struct Whole;

impl Extraction for Whole {
    ghost says = { λ lines slots. IsExtracted slots lines };

    ghost refuses = { λ lines slots. AnswersFault slots lines };

    fn tell(alloc: Global, cycle: &Cycle, lines: u8) -> Result<Filed<()>, ExtractionFault> {
        let extracted = match ttx_extract::extract(alloc, cycle, lines) {
            Ok(extracted) => extracted,
            Err(fault) => return Err(ExtractionFault::Refused(fault)),
        };
        let count = extracted.service.pages().len();
        match extracted_line(alloc, count) {
            Ok(line) => Ok(Filed {
                verdict: (),
                file: extracted.text.into_bytes(),
                line,
            }),
            Err(_) => Err(ExtractionFault::Tool(ToolFault::Files(FilesFault::NoMemory))),
        }
    }
}

// The same of a packet file.
fn extract_text<E: Extraction, R: Read>(
    alloc: Global,
    reader: &mut Counted<R>,
    lines: u8,
) -> Result<Filed<()>, ExtractionFault>
    ensures bytes { IfSome (R.remaining (inner_of reader.old)) (λ bytes. ExtractsText (E.says lines) (E.refuses lines) bytes result) }
    ensures right { IfOk result (λ _. IsRight AtCycle (R.remaining (inner_of reader.old))) }
    ensures faults { FailsExtract (read_from AtCycle R.remaining reader.old reader.new ∷ []) result }
{
    let cycle = match read_packets(alloc, reader) {
        Ok(cycle) => cycle,
        Err(fault) => return Err(ExtractionFault::Tool(ToolFault::Files(fault))),
    };
    match E::tell(alloc, &cycle, lines) {
        Ok(told) => Ok(told),
        Err(fault) => Err(fault),
    }
}

/// Reads a packet file, and writes the text of what its cycle sends, with these lines of a field; then the lines about it to the other writer.
///
/// Nothing is written before the text is compared with the cycle. After `Write` exactly the first `written` bytes of both went out, the
/// file's before the lines'; after any other fault both writers are unchanged. The status is 0. `report_extraction` has the lines of faults.
pub fn run<E: Extraction, R: Read, O: Write, W: Write>(
    alloc: Global,
    reader: &mut Counted<R>,
    lines: u8,
    file: &mut Counted<O>,
    writer: &mut Counted<W>,
) -> Result<u8, ExtractionFault>
    ensures bytes { IfSome (R.remaining (inner_of reader.old)) (λ bytes. ExtractsFile (E.says lines) (E.refuses lines) bytes
        (O.contents (inner_of file.old)) (O.contents (inner_of file.new)) (W.contents (inner_of writer.old)) (W.contents (inner_of writer.new))
        result) }
    ensures faults { FailsExtract (read_from AtCycle R.remaining reader.old reader.new ∷ written_to file.old file.new
        ∷ written_to writer.old writer.new ∷ []) result }
    ensures untouched { IsUntouched is_extraction_write result file.old file.new × IsUntouched is_extraction_write result writer.old writer.new }
{
    let told = match extract_text::<E, R>(alloc, reader, lines) {
        Ok(told) => told,
        Err(fault) => return Err(fault),
    };
    match write_both(file, told.file.as_slice(), writer, told.line.as_bytes()) {
        Ok(()) => Ok(0),
        Err(fault) => Err(ExtractionFault::Tool(ToolFault::Files(fault))),
    }
}
