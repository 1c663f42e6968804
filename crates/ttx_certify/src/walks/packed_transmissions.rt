//! Transmissions in five bytes each.

ghost use Rattle.std.specs.Prelude.{◌≡◌, ◌≤◌, ◌↔◌, IsTrue, ◌+◌, ◌*◌, ◌/◌, if◌then◌else◌, pos, ◌+ℤ◌, ◌-ℤ◌, ◌≤ℤ◌, map, take, length};
ghost use Rattle.std.specs.List.{All};
ghost use Rattle.ttx_witness.specs.runs.Tracks.{IsWithin};
ghost use Rattle.ttx_certify.specs.walks.PackedTracks.{transmission_of};

use ttx_witness::Transmission;

/// A transmission in five bytes. Its slot and its owner are numbers from -65,536 to 65,536. Both are kept 65,536 higher, as a low byte, a
/// middle byte, and two bits of `high`. Bit 4 of `high` is set if the transmission is sure.
#[derive(Clone, Copy, Default)]
pub struct PackedTransmission {
    pub slot_low: u8,
    pub slot_middle: u8,
    pub owner_low: u8,
    pub owner_middle: u8,
    pub high: u8,
}

/// Whether the slot and owner of a transmission are in the range in which they are packed and no sum overflows.
pub fn is_small(t: Transmission) -> bool
    ensures { IsTrue result ↔ IsWithin 65536 t }
{
    -65536 <= t.slot && t.slot <= 65536 && -65536 <= t.owner && t.owner <= 65536
}

// A number from -65,536 to 65,536, as one from 0 to 131,072.
fn raised(number: i32) -> u32
    requires low { pos 0 ≤ℤ (number +ℤ pos 65536) }
    ensures { pos result ≡ number +ℤ pos 65536 }
{
    number.abs_diff(-65536)
}

// Two bits of each number, and whether the transmission is sure.
fn high_bits(slot: u32, owner: u32, sure: bool) -> u8
    requires slot { slot ≤ 131072 }
    requires owner { owner ≤ 131072 }
    ensures { result ≡ slot / 65536 + 4 * (owner / 65536) + (if sure then 16 else 0) }
{
    let high = (slot / 65536 + 4 * (owner / 65536)) as u8;
    if sure { high + 16 } else { high }
}

/// Packs a transmission whose numbers are small.
pub fn pack(t: Transmission) -> PackedTransmission
    ensures { IsWithin 65536 t → transmission_of result ≡ t }
{
    if !is_small(t) {
        return PackedTransmission::default();
    }
    let slot = raised(t.slot);
    let owner = raised(t.owner);
    PackedTransmission {
        slot_low: (slot % 256) as u8,
        slot_middle: (slot / 256 % 256) as u8,
        owner_low: (owner % 256) as u8,
        owner_middle: (owner / 256 % 256) as u8,
        high: high_bits(slot, owner, t.sure),
    }
}

// The number with these bytes, 65,536 lower.
fn number(low: u8, middle: u8, high: u8) -> i32
    ensures { result ≡ pos (low + 256 * middle + 65536 * high) -ℤ pos 65536 }
{
    i32::from(low) + 256 * i32::from(middle) + 65536 * i32::from(high) - 65536
}

/// The transmission that is packed.
pub fn unpack(packed: PackedTransmission) -> Transmission
    ensures { result ≡ transmission_of packed }
{
    Transmission {
        slot: number(packed.slot_low, packed.slot_middle, packed.high % 4),
        owner: number(packed.owner_low, packed.owner_middle, packed.high / 4 % 4),
        sure: packed.high / 16 == 1,
    }
}

/// Packs transmissions whose numbers are small into the first places of `packed`.
pub fn pack_all(packed: &mut [PackedTransmission], transmissions: &[Transmission])
    requires room { length transmissions.now ≤ length packed.old }
    ensures count { length packed.new ≡ length packed.old }
    ensures packed { All (IsWithin 65536) transmissions.now → map transmission_of (take (length transmissions.now) packed.new) ≡ transmissions.now }
{
    for i in 0..transmissions.len() {
        packed[i] = pack(transmissions[i]);
    }
}
