//! A log that is written twice.

ghost use Rattle.std.specs.Prelude.{◌≡◌};
ghost use Rattle.ttx_air.specs.Airings.{written_of, Logs};

use std::io;
use std::io::Write;
use ttx_cycle::{Counted, write_bytes};

/// Adds bytes to a log. If that fails, the air goes on.
pub(crate) fn note<L: Write>(log: &mut Counted<L>, line: &[u8])
    ensures { Logs (written_of L.contents log.old) (written_of L.contents log.new) line.now }
{
    if let Err(_) = write_bytes(log, line) {}
}

/// A log in a file, and a copy of it. The copy gets what the file takes, as long as its own writes do not fail.
#[derive(Drop)]
pub struct LogCopy<A, B> {
    file: A,
    copy: Counted<B>,
}

impl<A, B> LogCopy<A, B> {
    ghost use Rattle.ttx_cycle.specs.Counters.{inner_of};

    /// A log to `file`, with a copy.
    pub fn new(file: A, copy: B) -> LogCopy<A, B>
        ensures file { result.file ≡ file }
        ensures copy { inner_of result.copy ≡ copy }
    {
        LogCopy {
            file,
            copy: Counted::new(copy),
        }
    }
}

impl<A: Write, B: Write> Write for LogCopy<A, B> {
    ghost use Rattle.std.specs.Prelude.{take, IfOk};
    ghost use Rattle.std.specs.Io.{WritesAtMost};
    ghost use Rattle.std.specs.Io.KnownBytes.{WriteAppends, Keeps};
    ghost use Rattle.ttx_air.specs.Airings.{written_of, Logs};

    ghost contents = { λ s. A.contents s.file };

    fn write(&mut self, buf: &[u8]) -> io::Result<usize>
        ensures bound { WritesAtMost result buf.now }
        ensures bytes { WriteAppends (A.contents self.old.file) (A.contents self.new.file) result buf.now }
        ensures copied { IfOk result (λ count. Logs (written_of B.contents self.old.copy) (written_of B.contents self.new.copy) (take count buf.now)) }
    {
        let count = self.file.write(buf)?;
        note(&mut self.copy, &buf[..count]);
        Ok(count)
    }

    fn flush(&mut self) -> io::Result<()>
        ensures bytes { Keeps (A.contents self.old.file) (A.contents self.new.file) }
    {
        self.file.flush()
    }
}
