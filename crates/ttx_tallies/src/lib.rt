//! How often numbers occur in a list.
#![tactic(auto)]

ghost use Rattle.std.specs.Prelude.{◌≡◌, ◌==◌, ℕ, IfOk, if◌then◌else◌};
ghost use Rattle.ttx_tallies.specs.Tallies.{times_among, times_in};

use std::alloc::{AllocError, Global};
use std::collections::BTreeMap;

/// How often each number occurs in the list. `Err` if memory runs out.
#[tactic(auto, using(std::proofs::lemmas::Grind::common_steps))]
pub fn tally(alloc: Global, numbers: &[usize]) -> Result<BTreeMap<usize, usize>, AllocError>
    ensures { IfOk result (λ counts. (n : ℕ) → times_in counts n ≡ times_among numbers.now n) }
{
    let mut counts: BTreeMap<usize, usize> = BTreeMap::new(alloc);
    for number in numbers {
        let before = counts.get(number).copied().unwrap_or(0);
        counts.insert(*number, before + 1)?;
    }
    Ok(counts)
}

/// How often a number was counted.
pub fn count_of(counts: &BTreeMap<usize, usize>, number: usize) -> usize
    ensures { result ≡ times_in counts.now number }
{
    counts.get(&number).copied().unwrap_or(0)
}

/// How often a number was counted. From now on it was counted no times, and each other number as often as before.
#[tactic(auto, using(std::proofs::lemmas::Grind::common_steps))]
pub fn take_count(counts: &mut BTreeMap<usize, usize>, number: usize) -> usize
    ensures count { result ≡ times_in counts.old number }
    ensures rest { (n : ℕ) → times_in counts.new n ≡ (if number == n then 0 else times_in counts.old n) }
{
    counts.remove(&number).unwrap_or(0)
}
