//! Writes bytes. A fault reports how many were written.

ghost use Rattle.std.specs.Prelude.{◌≡◌, ◌+◌, ◌≤◌, length, MatchResult};
ghost use Rattle.ttx_cycle.specs.Counters.{inner_of, calls_of, faults_of};
ghost use Rattle.ttx_cycle.specs.Counts.{HasRisen};
ghost use Rattle.ttx_cycle.specs.Cycles.{slots_of};
ghost use Rattle.ttx_cycle.specs.Files.{file_of};
ghost use Rattle.ttx_cycle.specs.Writing.{Writes};

use crate::counted::Counted;
use crate::cycles::Cycle;
use crate::faults::WriteFault;
use std::io::Write;

/// Writes all bytes. If it fails, exactly the first `written` bytes have been written.
pub fn write_bytes<W: Write>(writer: &mut Counted<W>, bytes: &[u8]) -> Result<(), WriteFault>
    ensures bytes { Writes bytes.now (W.contents (inner_of writer.old)) (W.contents (inner_of writer.new)) result }
    ensures faults { MatchResult result (λ _. faults_of writer.new ≡ faults_of writer.old)
        (λ _. HasRisen (faults_of writer.old) (faults_of writer.new)) }
    ensures calls { calls_of writer.new ≤ calls_of writer.old + length bytes.now }
{
    let mut written = 0;
    while written < bytes.len() {
        match writer.write(&bytes[written..]) {
            Ok(0) | Err(_) => return Err(WriteFault { written }),
            Ok(count) => written += count,
        }
    }
    Ok(())
}

/// Writes the packet file of a cycle. If it fails, exactly the first `written` bytes have been written.
pub fn write_cycle<W: Write>(writer: &mut Counted<W>, cycle: &Cycle) -> Result<(), WriteFault>
    ensures bytes { Writes (file_of (slots_of cycle.now)) (W.contents (inner_of writer.old)) (W.contents (inner_of writer.new)) result }
    ensures faults { MatchResult result (λ _. faults_of writer.new ≡ faults_of writer.old)
        (λ _. HasRisen (faults_of writer.old) (faults_of writer.new)) }
    ensures calls { calls_of writer.new ≤ calls_of writer.old + length (file_of (slots_of cycle.now)) }
{
    write_bytes(writer, cycle.slots().as_flattened())
}
