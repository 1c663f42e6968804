//! Hits as numbers, in the order of their slots and bytes.

ghost use Rattle.std.specs.Prelude.{◌≡◌, ℕ, ◌<◌, ◌≤◌, ◌↔◌, IsTrue, IfOk, length, map, IsPermutation};
ghost use Rattle.std.specs.List.Sorted.{IsNonDecreasing};
ghost use Rattle.ttx_counter.specs.Counters.{flipped};
ghost use Rattle.ttx_counter.specs.Keys.{hit_key, key_at, byte_in, bit_in, byte_place, slot_in, AreHitOnce, IsKey, AreSlotKeys, AreFlipped};
ghost use Rattle.ttx_counter.specs.Keys.{AreOfOtherBytes};

use crate::counter::Hit;
use std::alloc::Global;
use ttx_witness::NoMemory;

/// The hits of one slot: the keys from place `from` to before place `to`.
#[derive(Clone, Copy)]
pub struct SlotKeys<'a> {
    pub keys: &'a [u64],
    pub from: usize,
    pub to: usize,
}

// A hit as one number.
fn hit_key(hit: Hit) -> u64
    ensures { result ≡ hit_key hit }
{
    u64::from(hit.index) * 65536 + u64::from(hit.byte) * 256 + u64::from(hit.bit)
}

// The numbers of the hits, in the order of the list.
fn keys_of(alloc: Global, hits: &[Hit]) -> Result<Vec<u64>, NoMemory>
    ensures { IfOk result (λ keys. keys.items ≡ map hit_key hits.now) }
{
    let mut keys = Vec::new(alloc);
    for hit in hits {
        if keys.push(hit_key(*hit)).is_err() {
            return Err(NoMemory);
        }
    }
    Ok(keys)
}

/// The numbers of the hits, sorted.
pub fn sorted_keys(alloc: Global, hits: &[Hit]) -> Result<Vec<u64>, NoMemory>
    ensures same { IfOk result (λ keys. IsPermutation (map hit_key hits.now) keys.items) }
    ensures sorted { IfOk result (λ keys. IsNonDecreasing keys.items) }
{
    let mut keys = keys_of(alloc, hits)?;
    keys.sort_unstable();
    Ok(keys)
}

/// Whether no byte of any slot is hit twice.
pub fn are_apart(keys: &[u64]) -> bool
    requires { IsNonDecreasing keys.now }
    ensures { IsTrue result ↔ AreHitOnce keys.now }
{
    for i in 1..keys.len() {
        if keys[i - 1] / 256 == keys[i] / 256 {
            return false;
        }
    }
    true
}

/// The byte of a hit's number.
pub fn byte_in(key: u64) -> usize
    ensures { result ≡ byte_in key }
{
    (key / 256 % 256) as usize
}

/// The place after the keys of slot `n`, which begin at place `from`.
pub fn end_of(keys: &[u64], from: usize, n: u32) -> usize
    requires { from ≤ length keys.now }
    ensures { AreSlotKeys keys.now n from result }
{
    for i in from..keys.len() {
        if keys[i] / 65536 != u64::from(n) {
            return i;
        }
    }
    keys.len()
}

// A byte with one bit flipped.
fn flipped(byte: u8, bit: u8) -> u8
    requires some { 1 ≤ bit }
    requires few { bit ≤ 8 }
    ensures { result ≡ flipped bit byte }
{
    byte ^ (1u8 << (bit - 1))
}

// The bit of a hit's number.
fn bit_in(key: u64) -> u8
    ensures { result ≡ bit_in key }
{
    (key % 256) as u8
}

/// The slot with the bits of its hits flipped.
pub fn hit_slot(slot: &[u8; 42], hits: &SlotKeys<'_>) -> [u8; 42]
    requires up { hits.now.from ≤ hits.now.to }
    requires within { hits.now.to ≤ length hits.now.keys.now }
    requires keys { (i : ℕ) → i < length hits.now.keys.now → IsKey (key_at hits.now.keys.now i) }
    requires apart { AreOfOtherBytes hits.now.keys.now hits.now.from hits.now.to }
    ensures { AreFlipped hits.now.keys.now hits.now.from hits.now.to slot.now result }
{
    let keys = hits.keys;
    let mut received = *slot;
    for i in hits.from..hits.to {
        let x = byte_in(keys[i]);
        received[x] = flipped(received[x], bit_in(keys[i]));
    }
    received
}
