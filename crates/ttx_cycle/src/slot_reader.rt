//! Reads the slots of a packet file one by one.

ghost use Rattle.std.specs.Prelude.{◌≤◌};

use crate::arrays::is_slot;
use crate::counted::Counted;
use crate::faults::CycleFault;
use crate::slot_bytes::{fill, is_at_end};
use std::io::Read;

/// Reads a packet file slot by slot and keeps no slot. Allocates no memory.
#[derive(Drop)]
pub struct SlotReader {
    given: usize,
    is_over: bool,
    ghost most: { given ≤ 65536 },
}

impl SlotReader {
    ghost use Rattle.std.specs.Prelude.{◌≡◌, ◌+◌, ◌<◌, true, false, not, if◌then◌else◌, Ok};
    ghost use Rattle.ttx_packet.specs.Slots.{IsSlot};
    ghost use Rattle.ttx_cycle.specs.Counters.{inner_of, calls_of, faults_of};
    ghost use Rattle.ttx_cycle.specs.Reading.{AnswersNext, CountsRead, has_slot};
    ghost use Rattle.ttx_cycle.specs.SlotReaders.{given_of, is_over};

    /// A reader at the beginning of a packet file.
    pub fn new() -> SlotReader
        ensures given { given_of result ≡ 0 }
        ensures over { is_over result ≡ false }
    {
        SlotReader {
            given: 0,
            is_over: false,
        }
    }

    /// Reads the next slot into `slot` and returns true, or returns false at the end of the file.
    ///
    /// After false or an error, every further call returns false and reads nothing; `slot` may then hold anything. The faults are
    /// those of `read_cycle`, except `NoMemory`.
    pub fn next<R: Read>(
        &mut self,
        reader: &mut Counted<R>,
        slot: &mut [u8; 42],
    ) -> Result<bool, CycleFault>
        ensures answer { is_over self.old ≡ false →
            AnswersNext (given_of self.old) (R.remaining (inner_of reader.old)) (R.remaining (inner_of reader.new)) slot.new result }
        ensures over { is_over self.old ≡ true → (result ≡ Ok false) × (reader.new ≡ reader.old) }
        ensures goes_on { is_over self.new ≡ not (has_slot result) }
        ensures given { given_of self.new ≡ (if has_slot result then given_of self.old + 1 else given_of self.old) }
        ensures slot { result ≡ Ok true → IsSlot slot.new }
        ensures faults { CountsRead result (faults_of reader.old) (faults_of reader.new) }
        ensures calls { calls_of reader.new ≤ calls_of reader.old + 42 }
        ensures last_call { given_of self.old ≡ 65536 → calls_of reader.new ≤ calls_of reader.old + 1 }
    {
        if self.is_over {
            return Ok(false);
        }
        self.is_over = true;
        if self.given == 65_536 {
            return if is_at_end(reader)? {
                Ok(false)
            } else {
                Err(CycleFault::TooLong)
            };
        }
        match fill(reader, slot)? {
            42 => {
                is_slot(slot);
                self.given += 1;
                self.is_over = false;
                Ok(true)
            }
            0 if self.given > 0 => Ok(false),
            0 => Err(CycleFault::Empty),
            rest => Err(CycleFault::Truncated { rest }),
        }
    }
}
