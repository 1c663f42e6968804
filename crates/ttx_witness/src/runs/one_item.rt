//! The transmissions of one item in a period: searched for starts, or compared with named ones.

ghost use Rattle.std.specs.Prelude.{◌≡◌, ◌≤◌, ◌-◌, ℕ, List, [], IfOk};
ghost use Rattle.std.specs.List.{AllByRecursion};
ghost use Rattle.ttx_witness.specs.runs.Transmissions.{runs};
ghost use Rattle.ttx_witness.specs.runs.Confirming.{after_runs, not_begun};
ghost use Rattle.ttx_witness.specs.runs.SureStarts.{IsFound};
ghost use Rattle.ttx_witness.specs.runs.Tracks.{held_in, IsRecent, IsTrack, IsWithin};

use crate::runs::confirmation::Progress;
use crate::runs::named_starts::{self, Track};
use crate::runs::ring::{Ring, begin};
use crate::runs::sure_starts::{self, SureRuns};
use crate::runs::transmissions::Transmission;
use crate::runs::window::Recent;
use arrayvec::ArrayVec;
use std::alloc::Global;
use ttx_certificate::{NoMemory, Starts};

// The state before the first transmission of an item whose runs have `repeat` transmissions.
fn nothing_sent(repeat: usize) -> Recent
    requires some { 1 ≤ repeat }
    ensures { IsRecent (repeat - 1) [] (held_in result) }
{
    Recent {
        repeat,
        window: ArrayVec::new(),
        firsts: ArrayVec::new(),
    }
}

/// The track of an item before its first transmission. Its runs have `repeat` transmissions.
pub fn nothing_confirmed(repeat: usize) -> Track
    requires some { 1 ≤ repeat }
    ensures { (limit : ℕ) (starts : List ℕ) → IsTrack (repeat - 1) limit starts [] result }
{
    let progress = Progress {
        next: 0,
        previous: 0,
        first_end: 0,
        late: None,
    };
    Track {
        recent: nothing_sent(repeat),
        progress,
    }
}

/// The starts of all sure runs among the transmissions of a period, and how far apart these runs are. What the ring held is lost.
pub fn search_item(
    alloc: Global,
    ring: &mut Ring,
    sent: &[Transmission],
    repeat: usize,
    period: u32,
) -> Result<SureRuns, NoMemory>
    requires some { 1 ≤ repeat }
    requires few { repeat ≤ 8 }
    requires small { AllByRecursion (IsWithin 65536) sent.now }
    requires short { period ≤ 65536 }
    ensures { IfOk result (λ s. IsFound (runs period (repeat - 1) sent.now) s.starts.items s.spread) }
{
    begin(alloc, ring, repeat)?;
    let Ok(starts) = Starts::with_capacity(alloc, sent.len()) else {
        return Err(NoMemory);
    };
    let mut found = SureRuns {
        starts,
        spread: None,
    };
    for i in 0..sent.len() {
        sure_starts::note(ring, &mut found, sent[i])?;
    }
    sure_starts::finish(ring, &mut found, period)?;
    Ok(found)
}

/// How many of the named starts the transmissions of a period confirm, and which are late. Allocates no memory.
pub fn judge_item(
    sent: &[Transmission],
    starts: &[u32],
    repeat: usize,
    limit: u32,
    period: u32,
) -> Progress
    requires some { 1 ≤ repeat }
    requires few { repeat ≤ 8 }
    requires small { AllByRecursion (IsWithin 65536) sent.now }
    requires short { period ≤ 65536 }
    ensures { result ≡ after_runs limit starts.now not_begun (runs period (repeat - 1) sent.now) }
{
    let mut track = nothing_confirmed(repeat);
    for i in 0..sent.len() {
        named_starts::note(&mut track, sent[i], starts, limit);
    }
    named_starts::finish(&mut track, period, starts, limit);
    track.progress
}
