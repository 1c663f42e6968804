//! The named starts of an item, confirmed by the runs of a period in their order.

ghost use Rattle.std.specs.Prelude.{◌≡◌, ◌≤◌, ◌+ℤ◌, pos, int_lt, length};
ghost use Rattle.ttx_witness.specs.runs.Confirming.{is_next, late_after, confirmed};

use crate::runs::transmissions::Run;

/// How far the named starts of an item are confirmed: how many, the owner of the latest one, the end of the first one's run, and the
/// least start whose next one comes too late.
#[derive(Clone, Copy)]
pub struct Progress {
    pub next: usize,
    pub previous: i32,
    pub first_end: i32,
    pub late: Option<u32>,
}

// Whether the run confirms the next named start.
fn is_next(starts: &[u32], next: usize, run: Run) -> bool
    ensures { result ≡ is_next starts.now next run }
{
    next < starts.len() && i64::from(starts[next]) == i64::from(run.start) && run.sure
}

// Whether a run ends more than `limit` slots after the slot.
fn is_past(slot: i32, limit: u32, end: i64) -> bool
    ensures { result ≡ int_lt (slot +ℤ pos limit) end }
{
    i64::from(slot) + i64::from(limit) < end
}

// The least named start so far whose next run ends more than `limit` slots after its owner. The run that comes next ends at `end`.
fn late_after(limit: u32, starts: &[u32], progress: Progress, end: i64) -> Option<u32>
    requires { progress.next ≤ length starts.now }
    ensures { result ≡ late_after limit starts.now progress end }
{
    if progress.next == 0 || progress.late.is_some() {
        return progress.late;
    }
    if is_past(progress.previous, limit, end) {
        Some(starts[progress.next - 1])
    } else {
        progress.late
    }
}

/// Confirms the next named start if the run is sure and begins there.
#[tactic(auto, unfolding(crate::specs::runs::Confirming::confirmed))]
pub fn confirm(progress: Progress, run: Run, starts: &[u32], limit: u32) -> Progress
    ensures { result ≡ confirmed limit starts.now progress run }
{
    if !is_next(starts, progress.next, run) {
        return progress;
    }
    let first_end = if progress.next == 0 {
        run.end
    } else {
        progress.first_end
    };
    let late = late_after(limit, starts, progress, i64::from(run.end));
    Progress {
        next: progress.next + 1,
        previous: run.owner,
        first_end,
        late,
    }
}

/// The least named start whose next run ends more than `limit` slots after its owner. The start after the last one is the first one,
/// a period later.
pub fn late_at_end(progress: Progress, period: u32, starts: &[u32], limit: u32) -> Option<u32>
    requires { progress.next ≤ length starts.now }
    ensures { result ≡ late_after limit starts.now progress (progress.first_end +ℤ pos period) }
{
    let end = i64::from(progress.first_end) + i64::from(period);
    late_after(limit, starts, progress, end)
}
