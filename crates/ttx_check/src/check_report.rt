//! Reads a text, and writes the report on it.

ghost use Rattle.std.specs.Prelude.{◌∷◌, [], ℕ, List, None, IfSome, IfOk, IfErr};
ghost use Rattle.ttx_cycle.specs.Counters.{inner_of, faults_of};
ghost use Rattle.ttx_files.specs.Answers.{IsUntouched, is_write};
ghost use Rattle.ttx_files.specs.Devices.{AtService, input, output, failed_at, IsFirstFailure};
ghost use Rattle.ttx_check.specs.Checking.{IsCheckFault, Checks};

use std::alloc::{AllocError, Global};
use std::io::{Read, Write};
use ttx_cycle::Counted;
use ttx_files::{FilesFault, read_service_text, write_line};

/// A report and its status.
#[derive(Drop)]
pub struct Reported {
    pub text: Vec<u8>,
    /// 2 if the text is refused, 1 if a warning counts as strict, otherwise 0.
    pub status: u8,
}

/// How a text is reported on. `says` is the report on the bytes of a text, and its status.
pub trait Reporter {
    ghost says: { Self → List ℕ → List ℕ → ℕ → Type 0 };

    /// The report on a text. `Err` if memory runs out.
    fn report(&self, alloc: Global, bytes: &[u8]) -> Result<Reported, AllocError>
        ensures { IfOk result (λ report. says self.now bytes.now report.text.items report.status) };
}

/// Reads a text of at most 4,194,304 bytes, and writes the report on it. Returns the status.
///
/// Nothing is written before the whole text has been read. After `Write` exactly the first `written` bytes went out; after any other
/// fault the writer is unchanged.
pub fn check<T: Reporter, R: Read, W: Write>(
    alloc: Global,
    reporter: &T,
    reader: &mut Counted<R>,
    writer: &mut Counted<W>,
) -> Result<u8, FilesFault>
    ensures bytes { IfSome (R.remaining (inner_of reader.old))
        (λ bytes. Checks (T.says reporter.now) bytes (W.contents (inner_of writer.old)) (W.contents (inner_of writer.new)) result) }
    ensures own { IfErr result IsCheckFault }
    ensures faults { IsFirstFailure (input AtService None (faults_of reader.old) (faults_of reader.new)
        ∷ output (faults_of writer.old) (faults_of writer.new) ∷ []) (failed_at result) }
    ensures untouched { IsUntouched is_write result writer.old writer.new }
{
    let text = match read_service_text(alloc, reader) {
        Ok(text) => text,
        Err(fault) => return Err(fault),
    };
    let Ok(report) = reporter.report(alloc, text.as_slice()) else {
        return Err(FilesFault::NoMemory);
    };
    match write_line(writer, report.text.as_slice()) {
        Ok(()) => Ok(report.status),
        Err(fault) => Err(fault),
    }
}
