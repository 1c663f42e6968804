//! Moves owners some slots back.

ghost use Rattle.std.specs.Prelude.{◌<◌, ℕ, None, get_or};
ghost use Rattle.ttx_witness.specs.sent.Collected.{IsForeign};
ghost use Rattle.ttx_certify.specs.walks.EarlierOwners.{IsMoved};

use ttx_witness::Owner;

// The owner, `by` slots earlier.
fn moved(owner: Option<Owner>, by: u32) -> Option<Owner>
    ensures moved { IsMoved by owner result }
    ensures foreign { (i : ℕ) → IsForeign i owner → IsForeign i result }
{
    let o = owner?;
    match i32::try_from(i64::from(o.slot) - i64::from(by)) {
        Ok(slot) => Some(Owner {
            slot,
            page: o.page,
            tainted: o.tainted,
        }),
        Err(_) => None,
    }
}

/// The owners of the eight magazines, `by` slots earlier.
pub fn all_moved(owners: &[Option<Owner>; 8], by: u32) -> [Option<Owner>; 8]
    ensures moved { (m : ℕ) → m < 8 → IsMoved by (get_or owners.now m None) (get_or result m None) }
    ensures foreign { (m i : ℕ) → m < 8 → IsForeign i (get_or owners.now m None) → IsForeign i (get_or result m None) }
{
    let mut earlier = *owners;
    for m in 0..8usize {
        earlier[m] = moved(owners[m], by);
    }
    earlier
}
