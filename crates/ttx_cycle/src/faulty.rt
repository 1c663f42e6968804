//! A reader and a writer over borrowed bytes that move a few bytes at a time and fail at one call, for tests.

ghost use Rattle.std.specs.Prelude.{◌≤◌, length};

use std::io;
use std::io::{Read, Write};

/// Reads from borrowed bytes, at most `piece` a call (but at least one if any are left), and fails at call `at`, counted from 1.
#[derive(Drop)]
pub struct FaultyReader<'a> {
    rest: &'a [u8],
    piece: usize,
    at: Option<u64>,
    calls: u64,
}

/// How a call of `write` fails. Calls are counted from 1.
#[derive(Clone, Copy)]
pub enum Failure {
    /// Call `at` returns an error.
    Error { at: u64 },
    /// Call `at` writes nothing and returns 0.
    Nothing { at: u64 },
}

/// Writes into a borrowed slice, at most `piece` bytes a call (but at least one if there is room), and fails as `failure` says.
///
/// Returns 0 when the slice is full. The bytes written are at the front of the slice.
#[derive(Drop)]
pub struct FaultyWriter<'a> {
    room: &'a mut [u8],
    taken: usize,
    piece: usize,
    failure: Option<Failure>,
    calls: u64,
    ghost within: { taken ≤ length room.now },
}

impl<'a> FaultyReader<'a> {
    ghost use Rattle.std.specs.Prelude.{◌≡◌};
    ghost use Rattle.ttx_cycle.specs.Faulty.{source_of};

    /// A reader before its first call.
    pub fn new(bytes: &'a [u8], piece: usize, at: Option<u64>) -> FaultyReader<'a>
        ensures { source_of result ≡ record { left = bytes.entry.now; piece = piece; at = at; calls = 0 } }
    {
        FaultyReader {
            rest: bytes,
            piece,
            at,
            calls: 0,
        }
    }
}

impl Read for FaultyReader<'_> {
    ghost use Rattle.std.specs.Prelude.{Some};
    ghost use Rattle.std.specs.Io.{ReadsAtMost};
    ghost use Rattle.std.specs.Io.KnownBytes.{ReadConsumes};
    ghost use Rattle.ttx_cycle.specs.Faulty.{source_of, Gives};

    ghost remaining = { λ s. Some s.rest.now };

    fn read(&mut self, buf: &mut [u8]) -> io::Result<usize>
        ensures bound { ReadsAtMost result buf.new }
        ensures bytes { ReadConsumes (Some (source_of self.old).left) (Some (source_of self.new).left) result buf.new }
        ensures gives { Gives (source_of self.old) (source_of self.new) (length buf.new) result }
    {
        self.calls = self.calls.saturating_add(1);
        if self.at == Some(self.calls) {
            return Err(io::Error::from(io::ErrorKind::Other));
        }
        let count = self.piece.max(1).min(self.rest.len()).min(buf.len());
        let (given, rest) = self.rest.split_at(count);
        buf[..count].copy_from_slice(given);
        self.rest = rest;
        Ok(count)
    }
}

impl<'a> FaultyWriter<'a> {
    ghost use Rattle.std.specs.Prelude.{◌≡◌, []};
    ghost use Rattle.ttx_cycle.specs.Faulty.{sink_of};

    /// A writer before its first call.
    pub fn new(room: &'a mut [u8], piece: usize, failure: Option<Failure>) -> FaultyWriter<'a>
        ensures { sink_of result ≡ record { taken = []; free = length room.entry.now; piece = piece; failure = failure; calls = 0 } }
    {
        FaultyWriter {
            room,
            taken: 0,
            piece,
            failure,
            calls: 0,
        }
    }

    /// The bytes written so far.
    pub fn taken(&self) -> &[u8]
        ensures { result.now ≡ (sink_of self.now).taken }
    {
        &self.room[..self.taken]
    }
}

impl Write for FaultyWriter<'_> {
    ghost use Rattle.std.specs.Prelude.{◌≡◌, Some, take, is_ok, true};
    ghost use Rattle.std.specs.Io.{WritesAtMost};
    ghost use Rattle.std.specs.Io.KnownBytes.{WriteAppends, Keeps};
    ghost use Rattle.ttx_cycle.specs.Faulty.{sink_of, Takes};

    ghost contents = { λ s. Some (take s.taken s.room.now) };

    fn write(&mut self, buf: &[u8]) -> io::Result<usize>
        ensures bound { WritesAtMost result buf.now }
        ensures bytes { WriteAppends (Some (sink_of self.old).taken) (Some (sink_of self.new).taken) result buf.now }
        ensures takes { Takes (sink_of self.old) (sink_of self.new) buf.now result }
    {
        self.calls = self.calls.saturating_add(1);
        match self.failure {
            Some(Failure::Error { at }) if at == self.calls => {
                return Err(io::Error::from(io::ErrorKind::Other));
            }
            Some(Failure::Nothing { at }) if at == self.calls => return Ok(0),
            _ => {}
        }
        let free = self.room.len() - self.taken;
        let count = self.piece.max(1).min(free).min(buf.len());
        let end = self.taken + count;
        self.room[self.taken..end].copy_from_slice(&buf[..count]);
        self.taken = end;
        Ok(count)
    }

    fn flush(&mut self) -> io::Result<()>
        ensures bytes { Keeps (Some (sink_of self.old).taken) (Some (sink_of self.new).taken) }
        ensures sink { sink_of self.new ≡ sink_of self.old }
        ensures answer { is_ok result ≡ true }
    {
        Ok(())
    }
}
