//! Facts about arrays of 42 bytes, for proofs. These functions do nothing at run time.

ghost use Rattle.std.specs.Prelude.{All};
ghost use Rattle.ttx_packet.specs.Slots.{IsSlot};

fn told(slot: &[u8; 42])
    requires { IsSlot slot.now }
    ensures { IsSlot slot.now }
{}

/// An array of 42 bytes is a slot. Calling this does nothing at run time; it gives the caller's proof the fact.
pub fn is_slot(slot: &[u8; 42])
    ensures { IsSlot slot.now }
{
    told(slot);
}

/// Each array of a list is a slot.
pub fn are_slots(slots: &[[u8; 42]])
    ensures { All IsSlot slots.now }
{
    for i in 0..slots.len() {
        is_slot(&slots[i]);
    }
}
