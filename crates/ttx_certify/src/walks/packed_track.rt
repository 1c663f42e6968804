//! What is kept of the track of an item.

ghost use Rattle.std.specs.Prelude.{◌≤◌};

use crate::walks::packed_transmissions::PackedTransmission;
use std::mem::size_of;

/// The track of an item in 92 bytes. `next`, `previous`, `first_end` and `late` are its progress. `count` is the number of transmissions in
/// its window; of the first ones there are as many, but at most one fewer than a run has.
#[derive(Clone, Copy)]
pub struct PackedTrack {
    pub next: u32,
    pub previous: i32,
    pub first_end: i32,
    pub late: Option<u16>,
    pub count: u8,
    pub window: [PackedTransmission; 8],
    pub firsts: [PackedTransmission; 7],
    ghost few: { count ≤ 8 },
}

const _: () = prove!(size_of::<PackedTrack>() == 92);
