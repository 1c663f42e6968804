//! Takes the transmissions of an item that follow a period.

ghost use Rattle.std.specs.Prelude.{◌≡◌, ◌↔◌, IsTrue, ◌<◌, ◌≤◌, ℕ, List};
ghost use Rattle.std.specs.List.{All};
ghost use Rattle.ttx_witness.specs.declared.runs.transmissions.Transmission.{Transmission};
ghost use Rattle.ttx_witness.specs.runs.Confirming.{after_runs, not_begun};
ghost use Rattle.ttx_witness.specs.runs.Tracks.{IsTrack, IsWithin};
ghost use Rattle.ttx_witness.specs.runs.Transmissions.{runs};

use crate::walks::packed_transmissions::is_small;
use ttx_witness::Transmission;
use ttx_witness::named_starts::{self, Track};

// Whether the numbers of all transmissions are small.
fn are_small(ts: &[Transmission]) -> bool
    ensures { IsTrue result ↔ All (IsWithin 65536) ts.now }
{
    for i in 0..ts.len() {
        if !is_small(ts[i]) {
            return false;
        }
    }
    true
}

/// Takes the transmissions that follow the period, round the cycle.
pub fn finish(track: &mut Track, period: u32, starts: &[u32], limit: u32)
    ensures { (k : ℕ) (ts : List Transmission) → k < 8 → period ≤ 65536 → All (IsWithin 65536) ts → IsTrack k limit starts.now ts track.old →
        track.new.progress ≡ after_runs limit starts.now not_begun (runs period k ts) }
{
    let repeat = track.recent.repeat;
    let firsts = track.recent.firsts.len();
    let is_short = 1 <= repeat && repeat <= 8 && firsts <= 7 && period <= 65536;
    if is_short && are_small(track.recent.firsts.as_slice()) {
        named_starts::finish(track, period, starts, limit);
    }
}
