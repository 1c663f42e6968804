//! Decides whether an item is bridged.

ghost use Rattle.std.specs.Prelude.{◌≡◌, ◌≤◌, ◌↔◌, IsTrue, IfOk, true};
ghost use Rattle.ttx_page.specs.Pages.{Page, needed};
ghost use Rattle.ttx_page.specs.declared.item.Item.{Item};
ghost use Rattle.ttx_proof.specs.Splices.{Splice, IsCommon, IsBridged, NumbersAgree};
ghost use Rattle.ttx_proof.specs.NamedStarts.{AreSentOf, AreStartsOf};
ghost use Rattle.ttx_proof.specs.Laws.{IsSplice, BothAccepted};

use crate::joined_items::{ItemSent, join};
use crate::run_order::follow;
use crate::starts::NamedStarts;
use ttx_witness::{NoMemory, Transmission};

/// Whether an item of a common page, which a viewer sees, is bridged. Takes one walk over its transmissions near the splice, for which
/// `room` is overwritten. A run has `repeat` transmissions, and `limit` is the deadline in slots.
pub fn is_bridged(
    room: &mut Vec<Transmission>,
    sent: &ItemSent,
    starts: &NamedStarts,
    repeat: usize,
    limit: u32,
) -> Result<bool, NoMemory>
    requires some { 1 ≤ repeat }
    requires few { repeat ≤ 8 }
    ensures { IfOk result (λ bridged. (c : Splice) (p : Page) (item : Item) → IsSplice c → BothAccepted c →
        NumbersAgree c.old_certificate c.new_certificate → IsCommon c p → needed p item ≡ true →
        AreSentOf c p item sent.now → AreStartsOf c p item starts.now repeat limit → IsTrue bridged ↔ IsBridged c p item) }
{
    crate::laws::walks_decide();
    crate::laws::joined_are_listed();
    join(room, sent, starts.old_period, starts.new_period, repeat)?;
    Ok(follow(room.as_slice(), starts, repeat, limit))
}
