//! Pieces: whole fields within one second that are written together, and the room for their bytes.

ghost use Rattle.std.specs.Prelude.{◌≡◌, ℕ, ◌+◌, ◌*◌, ◌/◌, ◌≤◌, ◌<◌, ◌++◌, length, take};

// The most slots in one write.
const ROOM: usize = 128;

/// Room for the bytes of 128 slots.
pub fn room() -> [u8; 5376]
    ensures { length result ≡ 5376 }
{
    [0; 5376]
}

/// Writes a slot, from byte `at` on. The bytes before it stay.
#[tactic(auto, using(std::proofs::lemmas::Slice::overwrites))]
pub fn put_slot(bytes: &mut [u8; 5376], at: usize, slot: &[u8; 42])
    requires { at + 42 ≤ 5376 }
    ensures { take (at + 42) bytes.new ≡ take at bytes.old ++ slot.now }
{
    bytes[at..at + 42].copy_from_slice(slot);
}

/// A number of whole fields within one second that are written together, and the slots of these fields.
#[derive(Clone, Copy)]
pub struct Piece {
    pub fields: u32,
    pub slots: usize,
}

/// The next piece, beginning at a field that is still to be sent: as many fields as fit into the room, up to the end of the second. A field
/// has 1 to 32 lines, and a second 50 fields.
pub fn next_piece(field: u32, fields: u32, lines: usize) -> Piece
    requires before { field < fields }
    requires some { 0 < lines }
    requires most { lines ≤ 32 }
    ensures some { 0 < result.fields }
    ensures inside { field + result.fields ≤ fields }
    ensures second { (n : ℕ) → n < result.fields → (field + n) / 50 ≡ field / 50 }
    ensures slots { result.slots ≡ result.fields * lines }
    ensures fits { result.slots ≤ 128 }
{
    let left = (50 - field % 50).min(fields - field);
    let fields = left.min((ROOM / lines) as u32);
    Piece {
        fields,
        slots: fields as usize * lines,
    }
}
