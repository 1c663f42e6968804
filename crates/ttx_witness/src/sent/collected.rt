//! The transmissions of one period of a cycle.

ghost use Rattle.std.specs.Prelude.{ℕ};
ghost use Rattle.std.specs.List.{All};
ghost use Rattle.ttx_witness.specs.runs.Tracks.{AreInOrder, IsWithin};
ghost use Rattle.ttx_witness.specs.sent.Collected.{held};

use crate::runs::transmissions::Transmission;
use smallvec::SmallVec;

/// The transmissions of an item. Most items are sent once or twice in a cycle, and so few need no allocation.
pub type Transmissions = SmallVec<Transmission, 2>;

/// For each item of a list of pages, its transmissions in one period of a cycle.
#[derive(Drop)]
pub struct Collected {
    pub(crate) lists: Vec<Transmissions>,
    ghost within: { (n : ℕ) → All (IsWithin 65536) (held lists.items n) },
    ghost in_order: { (n : ℕ) → AreInOrder (held lists.items n) },
}
