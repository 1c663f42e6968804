//! Reads a packet file slot by slot, without keeping its slots.

ghost use Rattle.std.specs.Prelude.{◌≡◌, ◌<◌, ◌++◌, ◌∷◌, [], ℕ, List, IfSome, IfErr, length};
ghost use Rattle.ttx_cycle.specs.Counters.{inner_of, faults_of};
ghost use Rattle.ttx_files.specs.Devices.{AtCycle, input, failed_at, IsFirstFailure, IsOf};
ghost use Rattle.ttx_files.specs.Texts.{ReadsSlots};

use crate::faults::FilesFault;
use std::io::Read;
use ttx_cycle::{Counted, SlotReader};

/// Takes the slots of a packet file one by one. `took` is what it has become by taking these slots.
pub trait SlotTaker {
    ghost took: { Self → Self → List (List ℕ) → Type 0 };

    /// Takes the next slot, of at most 65,536.
    fn take(&mut self, slot: &[u8; 42])
        ensures { (start : Self) (slots : List (List ℕ)) → length slots < 65536 → took start self.old slots →
            took start self.new (slots ++ slot.now ∷ []) };

    ghost none: { (start : Self) → took start start [] };
}

/// Reads a packet file and gives its slots to a taker, one by one. Its faults are those of `read_cycle`, as `Cycle`, except
/// `NoMemory`: no slot is kept, and no memory is allocated.
pub fn read_slots<R: Read, T: SlotTaker>(
    reader: &mut Counted<R>,
    taker: &mut T,
) -> Result<(), FilesFault>
    ensures bytes { IfSome (R.remaining (inner_of reader.old)) (λ bytes. ReadsSlots (T.took taker.old taker.new) bytes result) }
    ensures own { IfErr result (IsOf (AtCycle ∷ [])) }
    ensures faults { IsFirstFailure (input AtCycle (R.remaining (inner_of reader.old)) (faults_of reader.old) (faults_of reader.new) ∷ [])
        (failed_at result) }
{
    ttx_cycle::laws::slots_are_given();
    let mut slot = [0; 42];
    let mut slots = SlotReader::new();
    loop {
        match slots.next(reader, &mut slot) {
            Ok(true) => taker.take(&slot),
            Ok(false) => return Ok(()),
            Err(fault) => return Err(FilesFault::Cycle(fault)),
        }
    }
}
