//! Streaks: in how many successive transmissions each text byte of a page has been received wrong.

ghost use Rattle.std.specs.Prelude.{◌≡◌, ℕ, ◌+◌, ◌<◌, ◌≤◌, ◌^◌, Bool, true, false, IsTrue, MatchOption, ⊤, List, length, slice_index};
ghost use Rattle.std.specs.Prelude.{slice_index_or, IfOk};
ghost use Rattle.ttx_counter.specs.Keys.{key_at, byte_in, IsKey, AreOfOtherBytes};
ghost use Rattle.ttx_counter.specs.Cells.{is_text, running, streak_of, AreCounted, IsStreakReached, TellsSlot, AreStreaks, StreaksAfter};

use crate::keys::{SlotKeys, byte_in};
use std::alloc::Global;
use ttx_witness::NoMemory;

/// The streak of a byte: the number of slots up to the latest transmission in which it was wrong, and the length of the streak.
#[derive(Clone, Copy)]
pub struct Streak {
    pub last: u32,
    pub count: u32,
}

/// The streaks of the 42 bytes of 25 rows, and for each row the number of slots up to its latest transmission.
#[derive(Drop)]
pub struct Streaks {
    pub latest: Vec<u32>,
    pub cells: Vec<Streak>,
}

// A transmission of a row, with the number of slots up to the row's previous transmission, and up to this one.
#[derive(Clone, Copy)]
struct RowTransmission {
    row: usize,
    latest: u32,
    now: u32,
}

// Whether the byte is a text byte of the row.
fn is_text(row: usize, x: usize) -> bool
    ensures { result ≡ is_text row x }
{
    if row == 0 {
        10 <= x && x < 34
    } else {
        2 <= x && x < 42
    }
}

// The length of a byte's streak; 0 if it was right in the latest transmission of its row.
fn running(latest: u32, cell: Streak) -> u32
    ensures { result ≡ running latest cell }
{
    if cell.last == latest { cell.count } else { 0 }
}

// Counts the wrong bytes of one transmission of a row. `false` if a streak has reached `repeat`.
fn count_hits(
    cells: &mut Vec<Streak>,
    sent: RowTransmission,
    hits: &SlotKeys<'_>,
    repeat: u8,
) -> bool
    requires row { sent.row < 25 }
    requires places { length cells.old.items ≡ 1050 }
    requires some { 1 ≤ repeat }
    requires up { hits.now.from ≤ hits.now.to }
    requires within { hits.now.to ≤ length hits.now.keys.now }
    requires keys { (i : ℕ) → i < length hits.now.keys.now → IsKey (key_at hits.now.keys.now i) }
    requires apart { AreOfOtherBytes hits.now.keys.now hits.now.from hits.now.to }
    ensures places { length cells.new.items ≡ 1050 }
    ensures counted { result ≡ true → AreCounted sent.row sent.latest sent.now repeat hits.now.keys.now hits.now.from hits.now.to cells.old.items
        cells.new.items }
    ensures over { result ≡ false → IsStreakReached sent.row sent.latest repeat hits.now.keys.now hits.now.from hits.now.to cells.old.items }
{
    let keys = hits.keys;
    for i in hits.from..hits.to {
        let x = byte_in(keys[i]);
        if is_text(sent.row, x) {
            let at = 42 * sent.row + x;
            let count = running(sent.latest, cells[at]);
            if count >= u32::from(repeat) - 1 {
                return false;
            }
            cells[at] = Streak {
                last: sent.now,
                count: count + 1,
            };
        }
    }
    true
}

/// Notes slot `n`: the row that it sends, if any, and its wrong bytes. `false` if a streak has reached `repeat`.
pub fn note(streaks: &mut Streaks, row: Option<u8>, n: u32, hits: &SlotKeys<'_>, repeat: u8) -> bool
    requires row { MatchOption row ⊤ (λ r. r < 25) }
    requires rows { length streaks.old.latest.items ≡ 25 }
    requires places { length streaks.old.cells.items ≡ 1050 }
    requires small { n + 1 < 2 ^ 32 }
    requires some { 1 ≤ repeat }
    requires up { hits.now.from ≤ hits.now.to }
    requires within { hits.now.to ≤ length hits.now.keys.now }
    requires keys { (i : ℕ) → i < length hits.now.keys.now → IsKey (key_at hits.now.keys.now i) }
    requires apart { AreOfOtherBytes hits.now.keys.now hits.now.from hits.now.to }
    ensures rows { length streaks.new.latest.items ≡ 25 }
    ensures places { length streaks.new.cells.items ≡ 1050 }
    ensures noted { (sent wrong : ℕ → ℕ → Bool) → AreStreaks sent wrong repeat n streaks.old.latest.items streaks.old.cells.items →
        TellsSlot sent wrong row hits.now.keys.now hits.now.from hits.now.to n →
        StreaksAfter result sent wrong repeat (n + 1) streaks.new.latest.items streaks.new.cells.items }
{
    let Some(row) = row else {
        return true;
    };
    let row = usize::from(row);
    let latest = streaks.latest[row];
    streaks.latest[row] = n + 1;
    let sent = RowTransmission {
        row,
        latest,
        now: n + 1,
    };
    count_hits(&mut streaks.cells, sent, hits, repeat)
}

// `count` zeros.
fn zeros(alloc: Global, count: usize) -> Result<Vec<u32>, NoMemory>
    ensures count { IfOk result (λ v. length v.items ≡ count) }
    ensures zero { IfOk result (λ v. (i : ℕ) → slice_index v.items i ≡ 0) }
{
    let mut zeros = Vec::new(alloc);
    for _i in 0..count {
        if zeros.push(0).is_err() {
            return Err(NoMemory);
        }
    }
    Ok(zeros)
}

// `count` bytes that were never wrong.
fn empty_cells(alloc: Global, count: usize) -> Result<Vec<Streak>, NoMemory>
    ensures count { IfOk result (λ v. length v.items ≡ count) }
    ensures none { IfOk result (λ v. (i : ℕ) → slice_index_or v.items i (streak_of 0 0) ≡ streak_of 0 0) }
{
    let mut cells = Vec::new(alloc);
    for _i in 0..count {
        if cells.push(Streak { last: 0, count: 0 }).is_err() {
            return Err(NoMemory);
        }
    }
    Ok(cells)
}

/// The streaks before the first slot.
pub fn no_streaks(alloc: Global) -> Result<Streaks, NoMemory>
    ensures rows { IfOk result (λ s. length s.latest.items ≡ 25) }
    ensures places { IfOk result (λ s. length s.cells.items ≡ 1050) }
    ensures none { IfOk result (λ s. (sent wrong : ℕ → ℕ → Bool) (k : ℕ) → 1 ≤ k → AreStreaks sent wrong k 0 s.latest.items s.cells.items) }
{
    let latest = zeros(alloc, 25)?;
    let cells = empty_cells(alloc, 1050)?;
    Ok(Streaks { latest, cells })
}
