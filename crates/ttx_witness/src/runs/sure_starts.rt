//! The starts of all sure runs of one item, and how far apart they are.

ghost use Rattle.std.specs.Prelude.{◌≡◌, ◌≤◌, ℕ, List, [], ◌∷◌, ◌++◌, length, OnOk, ◌-ℤ◌, Some, None};
ghost use Rattle.std.specs.List.{AllByRecursion};
ghost use Rattle.ttx_witness.specs.runs.Transmissions.{Transmission, runs};
ghost use Rattle.ttx_witness.specs.runs.SureStarts.{above_zero, widened, sure_starts, spread_of, IsFound};
ghost use Rattle.ttx_witness.specs.runs.Tracks.{listed, IsSearch, IsWithin};

use crate::runs::ring::{Ring, push, push_further};
use crate::runs::transmissions::{Run, Transmission};
use ttx_certificate::{NoMemory, Starts};

/// How far apart the sure runs are: the end of the first, the owner of the last, and the greatest distance in slots from an owner to
/// the end of the next run.
#[derive(Clone, Copy)]
pub struct Spread {
    pub first_end: i32,
    pub previous: i32,
    pub widest: u32,
}

/// The starts of all sure runs of an item, and how far apart these runs are.
#[derive(Drop)]
pub struct SureRuns {
    pub starts: Starts,
    pub spread: Option<Spread>,
}

// The slots from an owner to the end of a run; 0 if the run ends before the owner.
fn distance(owner: i32, end: i32) -> u32
    ensures { result ≡ above_zero (end -ℤ owner) }
{
    if end < owner { 0 } else { end.abs_diff(owner) }
}

// The spread with one more sure run.
fn widened(spread: Option<Spread>, run: Run) -> Spread
    ensures { result ≡ widened spread run }
{
    match spread {
        None => Spread {
            first_end: run.end,
            previous: run.owner,
            widest: 0,
        },
        Some(s) => Spread {
            first_end: s.first_end,
            previous: run.owner,
            widest: s.widest.max(distance(s.previous, run.end)),
        },
    }
}

// Keeps the start of a run if the run is sure.
#[tactic(auto, unfolding(crate::specs::runs::SureStarts::sure_runs, crate::specs::runs::SureStarts::spread_of))]
fn keep_sure(found: &mut SureRuns, run: Run) -> Result<(), NoMemory>
    ensures starts { OnOk result (found.new.starts.items ≡ found.old.starts.items ++ sure_starts (run ∷ [])) }
    ensures spread { OnOk result (found.new.spread ≡ spread_of found.old.spread (run ∷ [])) }
{
    if !run.sure {
        return Ok(());
    }
    if found.starts.push(run.start.unsigned_abs()).is_err() {
        return Err(NoMemory);
    }
    found.spread = Some(widened(found.spread, run));
    Ok(())
}

// Keeps the start of the run that has just ended, if one has.
#[tactic(auto, unfolding(crate::specs::runs::SureStarts::sure_runs, crate::specs::runs::SureStarts::spread_of))]
fn keep_start(found: &mut SureRuns, run: Option<Run>) -> Result<(), NoMemory>
    ensures starts { OnOk result (found.new.starts.items ≡ found.old.starts.items ++ sure_starts (listed run)) }
    ensures spread { OnOk result (found.new.spread ≡ spread_of found.old.spread (listed run)) }
{
    match run {
        Some(run) => keep_sure(found, run),
        None => Ok(()),
    }
}

/// Takes the next transmission of the period.
pub fn note(ring: &mut Ring, found: &mut SureRuns, t: Transmission) -> Result<(), NoMemory>
    requires room { ring.old.window.capacity ≤ 8 }
    ensures { OnOk result ((k : ℕ) (ts : List Transmission) → IsSearch k ts ring.old found.old → IsSearch k (ts ++ t ∷ []) ring.new found.new) }
{
    let run = push(ring, t);
    keep_start(found, run)?;
    Ok(())
}

/// Takes the transmissions that follow the period, round the cycle.
pub fn finish(ring: &mut Ring, found: &mut SureRuns, period: u32) -> Result<(), NoMemory>
    requires some { 1 ≤ ring.old.window.capacity }
    requires room { ring.old.window.capacity ≤ 8 }
    requires firsts { length ring.old.firsts.items ≤ 7 }
    requires small { AllByRecursion (IsWithin 65536) ring.old.firsts.items }
    requires short { period ≤ 65536 }
    ensures { OnOk result ((k : ℕ) (ts : List Transmission) → IsSearch k ts ring.old found.old →
        IsFound (runs period k ts) found.new.starts.items found.new.spread) }
{
    if ring.firsts.is_empty() {
        return Ok(());
    }
    let count = ring.window.capacity() - 1;
    for i in 0..count {
        let run = push_further(ring, period);
        keep_start(found, run)?;
    }
    Ok(())
}
