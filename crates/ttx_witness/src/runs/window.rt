//! The transmissions of one item that are held while a period is read.

ghost use Rattle.std.specs.Prelude.{◌≡◌, ◌≤◌, ◌<◌, ◌+◌, ◌*◌, ℕ, List, [], ◌∷◌, ◌++◌, length, nat_lt, if◌then◌else◌};
ghost use Rattle.std.specs.Prelude.{◌==◌, Option, Some, None};
ghost use Rattle.std.specs.List.{AllByRecursion};
ghost use Rattle.ttx_witness.specs.runs.Transmissions.{later, run_of};
ghost use Rattle.ttx_witness.specs.runs.Tracks.{ended, held_in, keep_last, listed, IsRecent, IsRound, IsWithin, IsTurn};

use crate::runs::transmissions::{Run, Transmission, run_in};
use arrayvec::ArrayVec;

/// The last transmissions, as many as a run has (`repeat`), and the first ones, one fewer.
#[derive(Drop)]
pub struct Recent {
    pub repeat: usize,
    pub window: ArrayVec<Transmission, 8>,
    pub firsts: ArrayVec<Transmission, 7>,
}

// Takes the next transmission into the window.
fn slide(window: &mut ArrayVec<Transmission, 8>, repeat: usize, t: Transmission)
    requires { repeat ≤ 8 }
    ensures { 1 ≤ repeat → length window.old.items ≤ repeat → window.new.items ≡ keep_last repeat (window.old.items ++ t ∷ []) }
{
    if !window.is_empty() && window.len() >= repeat {
        window.remove(0);
    }
    window.push(t);
}

// Takes the next transmission, and returns the run that ends with it.
fn take_next(window: &mut ArrayVec<Transmission, 8>, repeat: usize, t: Transmission) -> Option<Run>
    requires { repeat ≤ 8 }
    ensures kept { 1 ≤ repeat → length window.old.items ≤ repeat → window.new.items ≡ keep_last repeat (window.old.items ++ t ∷ []) }
    ensures run { result ≡ (if length window.new.items == repeat then Some (run_of window.new.items) else None) }
{
    slide(window, repeat, t);
    if window.len() == repeat {
        Some(run_in(window.as_slice()))
    } else {
        None
    }
}

/// Keeps the transmission if it is one of the first of the period.
pub fn keep_first(firsts: &mut ArrayVec<Transmission, 7>, repeat: usize, t: Transmission)
    requires { repeat ≤ 8 }
    ensures { firsts.new.items ≡ (if nat_lt (length firsts.old.items + 1) repeat then firsts.old.items ++ t ∷ [] else firsts.old.items) }
{
    if firsts.len() + 1 < repeat {
        firsts.push(t);
    }
}

/// Takes the next transmission of the period, and returns the run that ends with it, if there is one.
pub fn push(recent: &mut Recent, t: Transmission) -> Option<Run>
    requires room { recent.old.repeat ≤ 8 }
    ensures held { (k : ℕ) (ts : List Transmission) → IsRecent k ts (held_in recent.old) → IsRecent k (ts ++ t ∷ []) (held_in recent.new) }
    ensures run { (k : ℕ) (ts : List Transmission) → IsRecent k ts (held_in recent.old) → ended k (ts ++ t ∷ []) ≡ ended k ts ++ listed result }
{
    keep_first(&mut recent.firsts, recent.repeat, t);
    take_next(&mut recent.window, recent.repeat, t)
}

// The same transmission one period later.
fn later(t: Transmission, period: u32) -> Transmission
    requires small { IsWithin (8 * 65536) t }
    requires short { period ≤ 65536 }
    ensures { result ≡ later period t }
{
    Transmission {
        slot: t.slot + period as i32,
        owner: t.owner + period as i32,
        sure: t.sure,
    }
}

/// Removes the first transmission, moves it one period later, and appends it at the end.
pub fn turn(firsts: &mut ArrayVec<Transmission, 7>, period: u32) -> Transmission
    requires some { 1 ≤ length firsts.old.items }
    requires room { length firsts.old.items ≤ 7 }
    requires small { AllByRecursion (IsWithin (8 * 65536)) firsts.old.items }
    requires short { period ≤ 65536 }
    ensures { IsTurn period firsts.old.items result firsts.new.items }
{
    let slots = firsts.as_mut_slice();
    let t = later(slots[0], period);
    slots[0] = t;
    slots.rotate_left(1);
    t
}

/// Takes the next of the transmissions that follow the period, round the cycle, and returns the run that ends with it.
pub fn push_further(recent: &mut Recent, period: u32) -> Option<Run>
    requires some { 1 ≤ length recent.old.firsts.items }
    requires few { recent.old.repeat ≤ 8 }
    requires room { length recent.old.firsts.items ≤ 7 }
    requires small { AllByRecursion (IsWithin (8 * 65536)) recent.old.firsts.items }
    requires short { period ≤ 65536 }
    ensures repeat { recent.new.repeat ≡ recent.old.repeat }
    ensures count { length recent.new.firsts.items ≡ length recent.old.firsts.items }
    ensures within { (bound : ℕ) → AllByRecursion (IsWithin bound) recent.old.firsts.items →
        AllByRecursion (IsWithin (bound + 65536)) recent.new.firsts.items }
    ensures round { (k i : ℕ) (ts : List Transmission) (rs : List Run) → i < k → IsRound k period i ts rs (held_in recent.old) →
        IsRound k period (i + 1) ts (rs ++ listed result) (held_in recent.new) }
{
    let t = turn(&mut recent.firsts, period);
    take_next(&mut recent.window, recent.repeat, t)
}
