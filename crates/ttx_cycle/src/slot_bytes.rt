//! Reads the bytes of one slot.

ghost use Rattle.std.specs.Prelude.{◌≡◌, ◌+◌, ◌<◌, ◌≤◌, take, length, true, false, IfOk, OnErr, IfSome, MatchResult, Err};
ghost use Rattle.std.specs.Io.KnownBytes.{Consumes, IsAtEnd};
ghost use Rattle.ttx_cycle.specs.Counters.{inner_of, calls_of, faults_of};
ghost use Rattle.ttx_cycle.specs.Reading.{CountsRead};

use crate::counted::Counted;
use crate::faults::CycleFault;
use std::io::Read;

// Reads until the slot is full or the reader ends. Returns the number of bytes read.
pub(crate) fn fill<R: Read>(
    reader: &mut Counted<R>,
    slot: &mut [u8; 42],
) -> Result<usize, CycleFault>
    ensures count { IfOk result (λ n. n ≤ 42) }
    ensures bytes { IfOk result (λ n. Consumes (R.remaining (inner_of reader.old)) (R.remaining (inner_of reader.new)) (take n slot.new)) }
    ensures end { IfOk result (λ n. n < 42 → IsAtEnd (R.remaining (inner_of reader.new))) }
    ensures calls { calls_of reader.new ≤ calls_of reader.old + 42 }
    ensures faults { CountsRead result (faults_of reader.old) (faults_of reader.new) }
    ensures read { OnErr result (result ≡ Err CycleFault.Read) }
{
    let mut at = 0;
    while at < 42 {
        match reader.read(&mut slot[at..]) {
            Ok(0) => return Ok(at),
            Ok(count) => at += count,
            Err(_) => return Err(CycleFault::Read),
        }
    }
    Ok(at)
}

// Reads until the block is full or the reader ends. Returns the number of bytes read.
pub(crate) fn fill_block<R: Read>(
    reader: &mut Counted<R>,
    block: &mut [u8],
) -> Result<usize, CycleFault>
    ensures count { IfOk result (λ n. n ≤ length block.old) }
    ensures size { length block.new ≡ length block.old }
    ensures bytes { IfOk result (λ n. Consumes (R.remaining (inner_of reader.old)) (R.remaining (inner_of reader.new)) (take n block.new)) }
    ensures end { IfOk result (λ n. n < length block.old → IsAtEnd (R.remaining (inner_of reader.new))) }
    ensures calls { calls_of reader.new ≤ calls_of reader.old + length block.old }
    ensures faults { CountsRead result (faults_of reader.old) (faults_of reader.new) }
    ensures read { OnErr result (result ≡ Err CycleFault.Read) }
{
    let mut at = 0;
    while at < block.len() {
        match reader.read(&mut block[at..]) {
            Ok(0) => return Ok(at),
            Ok(count) => at += count,
            Err(_) => return Err(CycleFault::Read),
        }
    }
    Ok(at)
}

// Whether no byte is left. If one is left, it is read and dropped.
pub(crate) fn is_at_end<R: Read>(reader: &mut Counted<R>) -> Result<bool, CycleFault>
    ensures end { result ≡ Ok true → IsAtEnd (R.remaining (inner_of reader.old)) }
    ensures more { result ≡ Ok false → IfSome (R.remaining (inner_of reader.old)) (λ bytes. 0 < length bytes) }
    ensures calls { calls_of reader.new ≤ calls_of reader.old + 1 }
    ensures faults { CountsRead result (faults_of reader.old) (faults_of reader.new) }
    ensures read { OnErr result (result ≡ Err CycleFault.Read) }
{
    let mut more = [0; 1];
    match reader.read(&mut more) {
        Ok(count) => Ok(count == 0),
        Err(_) => Err(CycleFault::Read),
    }
}
