//! The transmissions of one item, compared with the starts that a certificate names.

ghost use Rattle.std.specs.Prelude.{◌≡◌, ◌≤◌, ℕ, List, [], ◌∷◌, ◌++◌, length};
ghost use Rattle.std.specs.List.{AllByRecursion};
ghost use Rattle.ttx_witness.specs.runs.Transmissions.{runs};
ghost use Rattle.ttx_witness.specs.runs.Confirming.{after_runs, not_begun};
ghost use Rattle.ttx_witness.specs.runs.Tracks.{listed, IsTrack, IsWithin};

use crate::runs::confirmation::{Progress, confirm};
use crate::runs::transmissions::{Run, Transmission};
use crate::runs::window::{Recent, push, push_further};

/// The transmissions of an item that are held, and how far its named starts are confirmed.
#[derive(Drop)]
pub struct Track {
    pub recent: Recent,
    pub progress: Progress,
}

// The progress after `run`; unchanged if no run has ended.
#[tactic(auto, unfolding(crate::specs::runs::Confirming::after_runs))]
fn progress_after(progress: Progress, run: Option<Run>, starts: &[u32], limit: u32) -> Progress
    ensures { result ≡ after_runs limit starts.now progress (listed run) }
{
    match run {
        Some(run) => confirm(progress, run, starts, limit),
        None => progress,
    }
}

/// Takes the next transmission of the period.
pub fn note(track: &mut Track, t: Transmission, starts: &[u32], limit: u32)
    requires room { track.old.recent.repeat ≤ 8 }
    ensures { (k : ℕ) (ts : List Transmission) → IsTrack k limit starts.now ts track.old → IsTrack k limit starts.now (ts ++ t ∷ []) track.new }
{
    let run = push(&mut track.recent, t);
    track.progress = progress_after(track.progress, run, starts, limit);
}

/// Takes the transmissions that follow the period, round the cycle.
pub fn finish(track: &mut Track, period: u32, starts: &[u32], limit: u32)
    requires some { 1 ≤ track.old.recent.repeat }
    requires room { track.old.recent.repeat ≤ 8 }
    requires firsts { length track.old.recent.firsts.items ≤ 7 }
    requires small { AllByRecursion (IsWithin 65536) track.old.recent.firsts.items }
    requires short { period ≤ 65536 }
    ensures { (k : ℕ) (ts : List Transmission) → IsTrack k limit starts.now ts track.old →
        track.new.progress ≡ after_runs limit starts.now not_begun (runs period k ts) }
{
    if track.recent.firsts.is_empty() {
        return;
    }
    let count = track.recent.repeat - 1;
    for i in 0..count {
        let run = push_further(&mut track.recent, period);
        track.progress = progress_after(track.progress, run, starts, limit);
    }
}
