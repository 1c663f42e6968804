//! The answer to files: a verdict and its line, alone or with a file.

ghost use Rattle.ttx_cycle.specs.Counters.{inner_of, faults_of};
ghost use Rattle.ttx_files.specs.Answers.{IsUntouched, is_write};
ghost use Rattle.ttx_files.specs.Telling.{Tells};

use crate::faults::FilesFault;
use crate::writers::write_line;
use std::io::Write;
use ttx_cycle::Counted;

/// A verdict, and its line.
#[derive(Drop)]
pub struct Told<V> {
    pub verdict: V,
    pub line: String,
}

/// A verdict, the bytes of the file that goes with it, and the line that says it.
#[derive(Drop)]
pub struct Filed<V> {
    pub verdict: V,
    pub file: Vec<u8>,
    pub line: String,
}

/// Writes the line and returns the verdict. A fault is returned as it is, and nothing is written. At `Write` exactly the first `written`
/// bytes of the line went out.
pub fn write_told<V: Drop, W: Write>(
    told: Result<Told<V>, FilesFault>,
    writer: &mut Counted<W>,
) -> Result<V, FilesFault>
    ensures told { Tells told (W.contents (inner_of writer.old)) (W.contents (inner_of writer.new)) (faults_of writer.old)
        (faults_of writer.new) result }
    ensures untouched { IsUntouched is_write result writer.old writer.new }
{
    let Told { verdict, line } = told?;
    write_line(writer, line.as_bytes())?;
    Ok(verdict)
}
