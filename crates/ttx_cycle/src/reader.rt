//! Reads packet files.

ghost use Rattle.std.specs.Prelude.{◌≡◌, ◌+◌, ◌*◌, ◌/◌, ◌<◌, ◌≤◌, ◌++◌, length, take, drop, vec_len, OnOk, IfOk, IfErr, IfSome, Err, List, ℕ};
ghost use Rattle.std.specs.Io.KnownBytes.{Consumes, IsAtEnd};
ghost use Rattle.ttx_cycle.specs.Files.{file_of};
ghost use Rattle.ttx_cycle.specs.Counters.{inner_of, calls_of, faults_of};
ghost use Rattle.ttx_cycle.specs.Reading.{Judged, CountsRead};

use crate::counted::Counted;
use crate::cycles::Cycle;
use crate::faults::CycleFault;
use crate::slot_bytes::{fill_block, is_at_end};
use std::alloc::{AllocError, Global};
use std::io::Read;

// A buffer for the 32 slots that are read at once.
fn block_of_zeros() -> [u8; 1344]
    ensures { length result ≡ 1344 }
{
    [0; 1344]
}

// The first 42 bytes.
fn first_slot(bytes: &[u8]) -> &[u8; 42]
    requires { 42 ≤ length bytes.now }
    ensures { result.now ≡ take 42 bytes.now }
{
    bytes.first_chunk::<42>().unwrap()
}

// Slot `i`: 42 bytes from byte 42 * i on.
fn slot_at(bytes: &[u8], i: usize) -> &[u8; 42]
    requires { 42 * i + 42 ≤ length bytes.now }
    ensures { result.now ≡ take 42 (drop (42 * i) bytes.now) }
{
    first_slot(&bytes[42 * i..])
}

// Appends the whole slots in some bytes.
fn add_slots(slots: &mut Vec<[u8; 42]>, bytes: &[u8]) -> Result<(), AllocError>
    ensures count { OnOk result (vec_len slots.new ≡ vec_len slots.old + length bytes.now / 42) }
    ensures bytes { OnOk result (file_of slots.new.items ++ drop (42 * (length bytes.now / 42)) bytes.now ≡ file_of slots.old.items ++ bytes.now) }
{
    for i in 0..bytes.len() / 42 {
        slots.push(*slot_at(bytes, i))?;
    }
    Ok(())
}

// The cycle of all slots of a file.
fn cycle_of(slots: Vec<[u8; 42]>) -> Result<Cycle, CycleFault>
    requires { vec_len slots ≤ 65536 }
    ensures bytes { Judged (file_of slots.items) result }
    ensures faults { (n : ℕ) → CountsRead result n n }
{
    Cycle::of(slots).ok_or(CycleFault::Empty)
}

// Reads a block and appends its whole slots. Returns the number of bytes read.
fn add_block<R: Read>(
    reader: &mut Counted<R>,
    slots: &mut Vec<[u8; 42]>,
    block: &mut [u8; 1344],
) -> Result<usize, CycleFault>
    ensures most { IfOk result (λ n. n ≤ 1344) }
    ensures size { length block.new ≡ 1344 }
    ensures count { IfOk result (λ n. vec_len slots.new ≡ vec_len slots.old + n / 42) }
    ensures read { IfOk result (λ n. Consumes (R.remaining (inner_of reader.old)) (R.remaining (inner_of reader.new)) (take n block.new)) }
    ensures is { IfOk result (λ n. file_of slots.new.items ++ drop (42 * (n / 42)) (take n block.new) ≡ file_of slots.old.items ++ take n block.new) }
    ensures end { IfOk result (λ n. n < 1344 → IsAtEnd (R.remaining (inner_of reader.new))) }
    ensures judged { IfErr result (λ fault. (file : List ℕ) → Judged file (Err fault)) }
    ensures faults { CountsRead result (faults_of reader.old) (faults_of reader.new) }
    ensures calls { calls_of reader.new ≤ calls_of reader.old + 1344 }
{
    let count = fill_block(reader, block)?;
    add_slots(slots, &block[..count]).map_err(|_| CycleFault::NoMemory)?;
    Ok(count)
}

/// Reads a packet file to its end: slots of 42 bytes, end to end, with no header.
///
/// A file with several faults is refused in this order: `TooLong`, `Truncated`, `Empty`. `Read` and `NoMemory` are returned
/// as soon as they occur. Makes at most 2,752,514 calls of `read`.
pub fn read_cycle<R: Read>(alloc: Global, reader: &mut Counted<R>) -> Result<Cycle, CycleFault>
    ensures bytes { IfSome (R.remaining (inner_of reader.old)) (λ bytes. Judged bytes result) }
    ensures faults { CountsRead result (faults_of reader.old) (faults_of reader.new) }
    ensures calls { calls_of reader.new ≤ calls_of reader.old + 2752514 }
{
    let mut slots = Vec::new(alloc);
    let mut block = block_of_zeros();
    for i in 0..2048usize {
        let count = add_block(reader, &mut slots, &mut block)?;
        if count < 1344 {
            if count % 42 > 0 {
                return Err(CycleFault::Truncated { rest: count % 42 });
            }
            return cycle_of(slots);
        }
    }
    if is_at_end(reader)? {
        cycle_of(slots)
    } else {
        Err(CycleFault::TooLong)
    }
}
