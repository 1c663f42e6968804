//! Headers of other subpages, noted slot by slot.

ghost use Rattle.std.specs.Prelude.{◌≡◌, ◌≤◌, ◌<◌, ℕ, List, None, get_or, length};
ghost use Rattle.ttx_header.specs.Ids.{Id};
ghost use Rattle.ttx_page.specs.Packets.{packet_of};
ghost use Rattle.ttx_witness.specs.faults.OtherSubpages.{place, first_of, heads_other};
ghost use Rattle.ttx_witness.specs.sent.IndexedHeaders.{IsHeaderOf};

use ttx_witness::subcodes::Subcodes;
use ttx_witness::{IndexedHeader, note_other};

/// The listed subcodes of each page number, and the first header of each number with another subcode.
#[derive(Drop)]
pub struct OtherHeaders {
    pub subcodes: Vec<Subcodes>,
    pub first: Vec<Option<u32>>,
    ghost subcodes_size: { length subcodes.items ≡ 2048 },
    ghost first_size: { length first.items ≡ 2048 },
}

/// Notes the header in slot `j`, if there is one.
pub fn note_other_header(others: &mut OtherHeaders, header: &Option<IndexedHeader>, j: u32)
    ensures subcodes { others.new.subcodes ≡ others.old.subcodes }
    ensures noted { (ids : List Id) (slot : List ℕ) → IsHeaderOf ids slot header.now →
        (mag number : ℕ) → 1 ≤ mag → mag ≤ 8 → number < 256 →
        get_or others.new.first.items (place mag number) None
        ≡ first_of (get_or others.old.first.items (place mag number) None) (heads_other others.old.subcodes.items mag number (packet_of slot)) j }
{
    note_other(&mut others.first, &others.subcodes, header, j);
}
