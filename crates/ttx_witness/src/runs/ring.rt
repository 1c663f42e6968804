//! The transmissions of one item that are held while starts are searched.

ghost use Rattle.std.specs.Prelude.{◌≡◌, ◌≤◌, ◌<◌, ◌+◌, ◌-◌, ◌*◌, ℕ, List, [], ◌∷◌, ◌++◌, length, if◌then◌else◌, ◌==◌, Some, None, IfOk, OnOk};
ghost use Rattle.std.specs.List.{AllByRecursion, list_all};
ghost use Rattle.ttx_witness.specs.runs.Transmissions.{run_of};
ghost use Rattle.ttx_witness.specs.runs.Tracks.{ended, held_in_ring, keep_last, listed, IsRecent, IsRound, IsWithin};

use crate::runs::transmissions::{Run, Transmission, each_sure, run_from};
use crate::runs::window::{keep_first, turn};
use arrayvec::ArrayVec;
use circular_buffer::HeapCircularBuffer;
use std::alloc::Global;
use ttx_certificate::NoMemory;

/// The last transmissions, as many as a run has, and the first ones, one fewer.
#[derive(Drop)]
pub struct Ring {
    pub window: HeapCircularBuffer<Transmission>,
    pub firsts: ArrayVec<Transmission, 7>,
}

/// The ring before the first transmission, for runs of `repeat` transmissions. Allocates all memory.
pub fn empty_ring(alloc: Global, repeat: usize) -> Result<Ring, NoMemory>
    requires some { 1 ≤ repeat }
    ensures held { IfOk result (λ ring. IsRecent (repeat - 1) [] (held_in_ring ring)) }
    ensures repeat { IfOk result (λ ring. ring.window.capacity ≡ repeat) }
{
    let Ok(window) = HeapCircularBuffer::with_capacity(alloc, repeat) else {
        return Err(NoMemory);
    };
    Ok(Ring {
        window,
        firsts: ArrayVec::new(),
    })
}

/// Empties the ring for the next item, whose runs have `repeat` transmissions. Allocates only if those of the item before had another
/// number.
pub fn begin(alloc: Global, ring: &mut Ring, repeat: usize) -> Result<(), NoMemory>
    requires some { 1 ≤ repeat }
    ensures held { OnOk result (IsRecent (repeat - 1) [] (held_in_ring ring.new)) }
{
    if ring.window.capacity() != repeat {
        *ring = empty_ring(alloc, repeat)?;
        return Ok(());
    }
    ring.window.clear();
    ring.firsts.clear();
    Ok(())
}

// Whether all transmissions in the window are sure.
fn all_sure(window: &HeapCircularBuffer<Transmission>) -> bool
    ensures { result ≡ list_all (λ t. t.sure) window.now.items }
{
    let (front, back) = window.as_slices();
    each_sure(front) && each_sure(back)
}

// The run of the transmissions in the window.
fn run_held(window: &HeapCircularBuffer<Transmission>) -> Run
    ensures { result ≡ run_of window.now.items }
{
    let sure = all_sure(window);
    let (Some(first), Some(last)) = (window.front(), window.back()) else {
        return Run {
            start: 0,
            owner: 0,
            end: 0,
            sure: false,
        };
    };
    run_from(*first, *last, sure)
}

// Takes the next transmission, and returns the run that ends with it.
fn take_next(window: &mut HeapCircularBuffer<Transmission>, t: Transmission) -> Option<Run>
    ensures repeat { window.new.capacity ≡ window.old.capacity }
    ensures kept { window.new.items ≡ keep_last window.old.capacity (window.old.items ++ t ∷ []) }
    ensures run { result ≡ (if length window.new.items == window.old.capacity then Some (run_of window.new.items) else None) }
{
    window.push_back(t);
    if window.is_full() {
        Some(run_held(window))
    } else {
        None
    }
}

/// Takes the next transmission of the period, and returns the run that ends with it, if there is one.
pub fn push(ring: &mut Ring, t: Transmission) -> Option<Run>
    requires room { ring.old.window.capacity ≤ 8 }
    ensures repeat { ring.new.window.capacity ≡ ring.old.window.capacity }
    ensures held { (k : ℕ) (ts : List Transmission) → IsRecent k ts (held_in_ring ring.old) →
        IsRecent k (ts ++ t ∷ []) (held_in_ring ring.new) }
    ensures run { (k : ℕ) (ts : List Transmission) → IsRecent k ts (held_in_ring ring.old) →
        ended k (ts ++ t ∷ []) ≡ ended k ts ++ listed result }
{
    keep_first(&mut ring.firsts, ring.window.capacity(), t);
    take_next(&mut ring.window, t)
}

/// Takes the next of the transmissions that follow the period, round the cycle, and returns the run that ends with it.
pub fn push_further(ring: &mut Ring, period: u32) -> Option<Run>
    requires some { 1 ≤ length ring.old.firsts.items }
    requires room { length ring.old.firsts.items ≤ 7 }
    requires small { AllByRecursion (IsWithin (8 * 65536)) ring.old.firsts.items }
    requires short { period ≤ 65536 }
    ensures repeat { ring.new.window.capacity ≡ ring.old.window.capacity }
    ensures count { length ring.new.firsts.items ≡ length ring.old.firsts.items }
    ensures within { (bound : ℕ) → AllByRecursion (IsWithin bound) ring.old.firsts.items →
        AllByRecursion (IsWithin (bound + 65536)) ring.new.firsts.items }
    ensures round { (k i : ℕ) (ts : List Transmission) (rs : List Run) → i < k → IsRound k period i ts rs (held_in_ring ring.old) →
        IsRound k period (i + 1) ts (rs ++ listed result) (held_in_ring ring.new) }
{
    let t = turn(&mut ring.firsts, period);
    take_next(&mut ring.window, t)
}
