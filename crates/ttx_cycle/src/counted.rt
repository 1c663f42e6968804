//! Readers and writers that count their calls and faults.

ghost use Rattle.std.specs.Prelude.{◌≡◌, is_ok, if◌then◌else◌, OnErr, IsTrue};
ghost use Rattle.std.specs.Io.{ReadsAtMost, WritesAtMost};
ghost use Rattle.std.specs.Io.KnownBytes.{ReadConsumes, WriteAppends, Keeps};
ghost use Rattle.ttx_cycle.specs.Counters.{inner_of, calls_of, faults_of};
ghost use Rattle.ttx_cycle.specs.Counts.{next_count, is_write_fault, HasRisen};

use std::io;
use std::io::{Read, Write};

/// A reader or a writer, with a count of its calls and of the calls that failed.
///
/// Each count stops at the largest `u64`. An interrupted call counts as a failed one.
#[derive(Drop)]
pub struct Counted<T> {
    inner: T,
    calls: u64,
    faults: u64,
}

impl<T> Counted<T> {
    /// Begins both counts at 0.
    pub fn new(inner: T) -> Counted<T>
        ensures inner { inner_of result ≡ inner }
        ensures calls { calls_of result ≡ 0 }
        ensures faults { faults_of result ≡ 0 }
    {
        Counted {
            inner,
            calls: 0,
            faults: 0,
        }
    }

    /// The inner reader or writer.
    pub fn get_ref(&self) -> &T
        ensures { result.now ≡ inner_of self.now }
    {
        &self.inner
    }

    /// Gives back the inner reader or writer.
    pub fn into_inner(self) -> T
        ensures { result ≡ inner_of self }
    {
        let Counted {
            inner,
            calls: _,
            faults: _,
        } = self;
        inner
    }

    /// How many times `read` or `write` has been called.
    pub fn calls(&self) -> u64
        ensures { result ≡ calls_of self.now }
    {
        self.calls
    }

    /// How many of these calls returned an error, or wrote 0 bytes where there were bytes to write.
    pub fn faults(&self) -> u64
        ensures { result ≡ faults_of self.now }
    {
        self.faults
    }
}

impl<R: Read> Read for Counted<R> {
    ghost remaining = { λ s. R.remaining s.inner };

    fn read(&mut self, buf: &mut [u8]) -> io::Result<usize>
        ensures bound { ReadsAtMost result buf.new }
        ensures bytes { ReadConsumes (R.remaining (inner_of self.old)) (R.remaining (inner_of self.new)) result buf.new }
        ensures calls { calls_of self.new ≡ next_count (calls_of self.old) }
        ensures faults { faults_of self.new ≡ (if is_ok result then faults_of self.old else next_count (faults_of self.old)) }
        ensures risen { OnErr result (HasRisen (faults_of self.old) (faults_of self.new)) }
    {
        self.calls = self.calls.saturating_add(1);
        let result = self.inner.read(buf);
        if result.is_err() {
            self.faults = self.faults.saturating_add(1);
        }
        result
    }
}

impl<W: Write> Write for Counted<W> {
    ghost contents = { λ s. W.contents s.inner };

    fn write(&mut self, buf: &[u8]) -> io::Result<usize>
        ensures bound { WritesAtMost result buf.now }
        ensures bytes { WriteAppends (W.contents (inner_of self.old)) (W.contents (inner_of self.new)) result buf.now }
        ensures calls { calls_of self.new ≡ next_count (calls_of self.old) }
        ensures faults { faults_of self.new ≡ (if is_write_fault result buf.now then next_count (faults_of self.old) else faults_of self.old) }
        ensures risen { IsTrue (is_write_fault result buf.now) → HasRisen (faults_of self.old) (faults_of self.new) }
    {
        self.calls = self.calls.saturating_add(1);
        let result = self.inner.write(buf);
        let is_fault = match &result {
            Ok(count) => *count == 0 && !buf.is_empty(),
            Err(_) => true,
        };
        if is_fault {
            self.faults = self.faults.saturating_add(1);
        }
        result
    }

    fn flush(&mut self) -> io::Result<()>
        ensures bytes { Keeps (W.contents (inner_of self.old)) (W.contents (inner_of self.new)) }
        ensures calls { calls_of self.new ≡ calls_of self.old }
        ensures faults { faults_of self.new ≡ faults_of self.old }
    {
        self.inner.flush()
    }
}
