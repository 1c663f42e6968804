//! A reader that keeps the first bytes that are read.

ghost use Rattle.std.specs.Prelude.{◌≡◌, ◌+◌, ◌≤◌, ◌++◌, take, length};

use std::io;
use std::io::Read;

/// A reader that keeps the first 2,688 bytes that are read through it.
#[derive(Drop)]
pub struct Recorded<R> {
    inner: R,
    kept: [u8; 2688],
    len: usize,
    ghost few: { len ≤ 2688 },
}

impl<R> Recorded<R> {
    ghost use Rattle.std.specs.Prelude.{◌≡◌, length};
    ghost use Rattle.ttx_recognition.specs.Recorded.{inner_of, kept_of};

    /// Keeps what will be read through a reader.
    pub fn new(inner: R) -> Recorded<R>
        ensures inner { inner_of result ≡ inner }
        ensures kept { length (kept_of result) ≡ 0 }
    {
        Recorded {
            inner,
            kept: [0; 2688],
            len: 0,
        }
    }

    /// The bytes that have been kept.
    pub fn kept(&self) -> &[u8]
        ensures { result.now ≡ kept_of self.now }
    {
        &self.kept[..self.len]
    }
}

// Writes some bytes over others.
#[tactic(auto, using(std::proofs::lemmas::Slice::overwrites))]
fn put(bytes: &mut [u8; 2688], at: usize, part: &[u8])
    requires { at + length part.now ≤ 2688 }
    ensures { take (at + length part.now) bytes.new ≡ take at bytes.old ++ part.now }
{
    bytes[at..at + part.len()].copy_from_slice(part);
}

impl<R: Read> Read for Recorded<R> {
    ghost use Rattle.std.specs.Prelude.{◌≡◌, ◌++◌, take, IfOk};
    ghost use Rattle.std.specs.Io.{ReadsAtMost};
    ghost use Rattle.std.specs.Io.KnownBytes.{ReadConsumes};
    ghost use Rattle.ttx_recognition.specs.Recorded.{inner_of, kept_of};

    ghost remaining = { λ s. R.remaining s.inner };

    fn read(&mut self, buf: &mut [u8]) -> io::Result<usize>
        ensures bound { ReadsAtMost result buf.new }
        ensures bytes { ReadConsumes (R.remaining (inner_of self.old)) (R.remaining (inner_of self.new)) result buf.new }
        ensures kept { IfOk result (λ n. kept_of self.new ≡ take 2688 (kept_of self.old ++ take n buf.new)) }
    {
        let count = self.inner.read(buf)?;
        let room = (2688 - self.len).min(count);
        put(&mut self.kept, self.len, &buf[..room]);
        self.len += room;
        Ok(count)
    }
}
