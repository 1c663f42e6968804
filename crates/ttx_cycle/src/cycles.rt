//! Cycles of slots.

ghost use Rattle.ttx_cycle.specs.Files.{IsCycle};

use crate::arrays::are_slots;

/// A cycle: 1 to 65,536 slots of 42 bytes that are sent again and again.
#[derive(Drop)]
pub struct Cycle {
    slots: Vec<[u8; 42]>,
    ghost is_cycle: { IsCycle slots.items },
}

impl Cycle {
    ghost use Rattle.std.specs.Prelude.{◌≡◌, vec_len, IfSome, is_some, ◌&&◌, nat_le};
    ghost use Rattle.ttx_cycle.specs.Cycles.{slots_of};

    /// The most slots that a cycle may have.
    pub const MOST: usize = 65_536;

    /// A cycle of these slots. `None` if and only if there are none, or more than 65,536.
    pub fn of(slots: Vec<[u8; 42]>) -> Option<Cycle>
        ensures some { is_some result ≡ (nat_le 1 (vec_len slots) && nat_le (vec_len slots) 65536) }
        ensures slots { IfSome result (λ cycle. slots_of cycle ≡ slots.items) }
    {
        are_slots(slots.as_slice());
        if slots.is_empty() || slots.len() > Self::MOST {
            return None;
        }
        Some(Cycle { slots })
    }

    /// The slots of the cycle, slot 0 first.
    pub fn slots(&self) -> &[[u8; 42]]
        ensures slots { result.now ≡ slots_of self.now }
        ensures cycle { IsCycle result.now }
    {
        self.slots.as_slice()
    }
}
