//! Packs the track of an item, and takes its next transmission.

ghost use Rattle.std.specs.Prelude.{◌≡◌, ◌≤◌, ◌<◌, ◌+◌, ◌-◌, ◌^◌, ◌++◌, ◌∷◌, [], ℕ, List, IfSome, length, map};
ghost use Rattle.std.specs.List.{All};
ghost use Rattle.ttx_witness.specs.declared.runs.transmissions.Transmission.{Transmission};
ghost use Rattle.ttx_witness.specs.runs.Tracks.{held_in, IsWithin};
ghost use Rattle.ttx_certify.specs.walks.PackedTracks.{transmission_of, held_of, progress_of, IsPackable, AreSlots, IsPacked};

use crate::walks::packed_track::PackedTrack;
use crate::walks::packed_transmissions::{PackedTransmission, pack_all, unpack};
use arrayvec::ArrayVec;
use ttx_witness::named_starts::{self, Track};
use ttx_witness::{Progress, Transmission, nothing_confirmed};

/// The track of an item before its first transmission.
pub fn nothing_packed() -> PackedTrack
    ensures { (k limit : ℕ) (starts : List ℕ) → IsPacked k limit starts [] result }
{
    PackedTrack {
        next: 0,
        previous: 0,
        first_end: 0,
        late: None,
        count: 0,
        window: [PackedTransmission::default(); 8],
        firsts: [PackedTransmission::default(); 7],
    }
}

// Appends the transmissions that are packed.
fn unpack_all<const N: usize>(list: &mut ArrayVec<Transmission, N>, packed: &[PackedTransmission])
    requires room { length list.old.items + length packed.now ≤ N }
    ensures { list.new.items ≡ list.old.items ++ map transmission_of packed.now }
{
    for i in 0..packed.len() {
        list.push(unpack(packed[i]));
    }
}

// The progress that is packed.
fn progress_in(packed: &PackedTrack) -> Progress
    ensures { result ≡ progress_of packed.now }
{
    Progress {
        next: packed.next as usize,
        previous: packed.previous,
        first_end: packed.first_end,
        late: match packed.late {
            Some(start) => Some(u32::from(start)),
            None => None,
        },
    }
}

/// The track that is packed, of an item whose runs have `repeat` transmissions.
pub fn unpack_track(packed: &PackedTrack, repeat: usize) -> Track
    requires some { 1 ≤ repeat }
    requires few { repeat ≤ 8 }
    ensures recent { held_in result.recent ≡ held_of repeat packed.now }
    ensures progress { result.progress ≡ progress_of packed.now }
{
    let mut track = nothing_confirmed(repeat);
    let count = usize::from(packed.count);
    unpack_all(&mut track.recent.window, &packed.window[..count]);
    let firsts = count.min(repeat - 1);
    unpack_all(&mut track.recent.firsts, &packed.firsts[..firsts]);
    track.progress = progress_in(packed);
    track
}

// A start in two bytes.
fn in_two_bytes(late: Option<u32>) -> Option<u16>
    ensures { IfSome late (λ start. start < 65536) → result ≡ late }
{
    match late {
        Some(start) => u16::try_from(start).ok(),
        None => None,
    }
}

// A count in four bytes.
fn in_four_bytes(count: usize) -> u32
    ensures { count < 2 ^ 32 → result ≡ count }
{
    match u32::try_from(count) {
        Ok(count) => count,
        Err(_) => 0,
    }
}

/// Packs a track.
pub fn pack_track(track: &Track) -> PackedTrack
    ensures recent { IsPackable track.now → held_of track.now.recent.repeat result ≡ held_in track.now.recent }
    ensures progress { IsPackable track.now → progress_of result ≡ track.now.progress }
{
    let mut window = [PackedTransmission::default(); 8];
    let mut firsts = [PackedTransmission::default(); 7];
    pack_all(&mut window, track.recent.window.as_slice());
    pack_all(&mut firsts, track.recent.firsts.as_slice());
    PackedTrack {
        next: in_four_bytes(track.progress.next),
        previous: track.progress.previous,
        first_end: track.progress.first_end,
        late: in_two_bytes(track.progress.late),
        count: track.recent.window.len() as u8,
        window,
        firsts,
    }
}

/// Takes the next transmission of the item, whose runs have `repeat` transmissions.
pub fn take_next(
    packed: &mut PackedTrack,
    t: Transmission,
    repeat: usize,
    starts: &[u32],
    limit: u32,
)
    requires some { 1 ≤ repeat }
    requires few { repeat ≤ 8 }
    ensures { (ts : List Transmission) → AreSlots starts.now → All (IsWithin 65536) (ts ++ t ∷ []) →
        IsPacked (repeat - 1) limit starts.now ts packed.old → IsPacked (repeat - 1) limit starts.now (ts ++ t ∷ []) packed.new }
{
    let mut track = unpack_track(packed, repeat);
    named_starts::note(&mut track, t, starts, limit);
    *packed = pack_track(&track);
}
