//! `extract --partial`: the service definition that a cycle sends, without the pages that no text can have.

ghost use Rattle.std.specs.Prelude.{◌≡◌, IfOk, string_bytes};
ghost use Rattle.ttx_cycle.specs.Cycles.{slots_of};
ghost use Rattle.ttx_partial.specs.Others.{others};
ghost use Rattle.ttx_partial.specs.Lines.{partial_lines};
ghost use Rattle.ttx_tool.specs.ExtractPartly.{IsPartlyTold, IsRefusedPartly};

use super::extract::Extraction;
use std::alloc::{AllocError, Global};
use ttx_cycle::Cycle;
use ttx_faults::{ExtractionFault, ToolFault};
use ttx_files::{Filed, FilesFault};
use ttx_partial::{LeftOut, extract_partly, others, push_partial};

// The lines about what was extracted and what was left out.
fn partial_lines(
    alloc: Global,
    cycle: &Cycle,
    left: &[LeftOut],
    pages: usize,
) -> Result<String, AllocError>
    ensures { IfOk result (λ lines. string_bytes lines ≡ partial_lines left.now pages (others (slots_of cycle.now))) }
{
    let mut text = String::new(alloc);
    push_partial(&mut text, left, pages, others(cycle))?;
    Ok(text)
}

/// The service that a cycle sends without the pages that are not sent unchanged; a line for each page number that is left out, the number of
/// pages, and how many other packets there are.
pub struct Partly;

impl Extraction for Partly {
    ghost says = { λ lines slots. IsPartlyTold slots lines };

    ghost refuses = { λ lines slots. IsRefusedPartly slots lines };

    fn tell(alloc: Global, cycle: &Cycle, lines: u8) -> Result<Filed<()>, ExtractionFault> {
        let partial = match extract_partly(alloc, cycle, lines) {
            Ok(partial) => partial,
            Err(fault) => return Err(ExtractionFault::Refused(fault)),
        };
        let pages = partial.extracted.service.pages().len();
        match partial_lines(alloc, cycle, partial.left.as_slice(), pages) {
            Ok(line) => Ok(Filed {
                verdict: (),
                file: partial.extracted.text.into_bytes(),
                line,
            }),
            Err(_) => Err(ExtractionFault::Tool(ToolFault::Files(FilesFault::NoMemory))),
        }
    }
}
