//! A walk in its first and in its second pass, slot by slot.

ghost use Rattle.std.specs.Prelude.{◌≡◌, ◌<◌, ◌+◌, ◌++◌, ◌∷◌, [], Option, List, ℕ, length};
ghost use Rattle.ttx_header.specs.Ids.{Id};
ghost use Rattle.ttx_certify.specs.walks.Passing.{AreReady, AreSeen, AreKept};
ghost use Rattle.ttx_witness.specs.sent.ItemTransmissions.{PageOwner};

use crate::walks::earlier_owners::all_moved;
use crate::walks::numbered_slot::NumberedSlot;
use crate::walks::other_headers::{OtherHeaders, note_other_header};
use crate::walks::page_facts::{Facts, note_sent};
use crate::walks::page_results::EndedWalk;
use crate::walks::returning_owners::are_steady;
use crate::walks::tracks::Tracks;
use thiserror::Error;
use ttx_certificate::{Certificate, limit};
use ttx_packet::clean;
use ttx_page::Page;
use ttx_witness::one_slot::sent_in_slot;
use ttx_witness::{Owner, PageIndex, first_of, indexed_header, note_owner};

/// Why a walk refuses a slot.
#[derive(Clone, Copy, PartialEq, Eq, Debug, Error)]
pub enum WalkFault {
    /// Fault 1: the first list already has 65,536 slots.
    #[error("more than 65536 slots")]
    TooLong,
}

/// A walk in its first pass. Only the owners of the magazines and the count change in it.
#[derive(Drop)]
pub struct Walk<'a> {
    pub(crate) pages: &'a [Page],
    pub(crate) certificate: &'a Certificate,
    pub(crate) index: PageIndex,
    pub(crate) others: OtherHeaders,
    pub(crate) tracks: Tracks,
    pub(crate) facts: Vec<Facts>,
    pub(crate) owners: [Option<Owner>; 8],
    pub(crate) count: u32,
}

/// A walk in its second pass. It also keeps the owners before its slot 0, the first bad slot, and whether the second list has more than
/// 65,536 slots.
#[derive(Drop)]
pub struct Second<'a> {
    pub(crate) walk: Walk<'a>,
    pub(crate) entry: [Option<Owner>; 8],
    pub(crate) bad: Option<u32>,
    pub(crate) over: bool,
}

// Takes one more slot: updates the track of the item that it sends, the facts, and then the owners.
fn take_slot(walk: &mut Walk, slot: &[u8; 42])
    requires few { walk.old.count < 65536 }
    ensures taken { (entry : Id → Option PageOwner) (y : List (List ℕ)) → AreReady walk.old → walk.old.count ≡ length y →
        AreSeen walk.old entry y walk.old.owners → AreKept walk.old entry y →
        AreSeen walk.new entry (y ++ slot.now ∷ []) walk.new.owners × AreKept walk.new entry (y ++ slot.now ∷ []) }
    ensures ready { AreReady walk.old → AreReady walk.new }
    ensures count { walk.new.count ≡ walk.old.count + 1 }
    ensures pages { walk.new.pages.now ≡ walk.old.pages.now }
    ensures certificate { walk.new.certificate.now ≡ walk.old.certificate.now }
{
    ttx_page::laws::pages_keep_their_rules();
    ttx_certificate::certificate_laws::certificates_keep_their_rules();
    let (j, limit, lines) = (
        walk.count,
        limit(walk.certificate),
        walk.certificate.lines(),
    );
    let header = indexed_header(&walk.index, slot);
    let sent = sent_in_slot(&walk.owners, &header, slot, j as i32, lines);
    walk.tracks.note(walk.pages, walk.certificate, sent);
    let numbered = NumberedSlot { bytes: slot, at: j };
    note_sent(&mut walk.facts, walk.pages, sent, &numbered, limit);
    note_other_header(&mut walk.others, &header, j);
    note_owner(&mut walk.owners, &header, j as i32);
    walk.count += 1;
}

impl<'a> Walk<'a> {
    ghost use Rattle.std.specs.Prelude.{◌≡◌, ◌++◌, ◌∷◌, [], ℕ, List, IfErr, MatchResult, length};
    ghost use Rattle.ttx_certify.specs.walks.Passing.{Starts, Stands, walk_pages, walk_certificate, second_pages, second_certificate};

    /// Takes the next slot of the first list, of at most 65,536. After `TooLong` the walk is unchanged. Allocates no memory.
    pub fn first(&mut self, slot: &[u8; 42]) -> Result<(), WalkFault>
        ensures kept { IfErr result (λ _. self.new ≡ self.old) }
        ensures stands { (x : List (List ℕ)) → Starts self.old x →
            MatchResult result (λ u. Starts self.new (x ++ slot.now ∷ [])) (λ f. length x ≡ 65536) }
        ensures pages { walk_pages self.new ≡ walk_pages self.old }
        ensures certificate { walk_certificate self.new ≡ walk_certificate self.old }
    {
        if self.count >= 65536 {
            return Err(WalkFault::TooLong);
        }
        let header = indexed_header(&self.index, slot);
        note_owner(&mut self.owners, &header, self.count as i32);
        self.count += 1;
        Ok(())
    }

    /// Ends the first list and begins the second. The owners before the second list are those at the end of the first, moved back by the
    /// length of that list. Allocates no memory.
    pub fn begin_second(self) -> Second<'a>
        ensures stands { (x : List (List ℕ)) → Starts self.entry x → Stands result x [] }
        ensures pages { second_pages result ≡ walk_pages self.entry }
        ensures certificate { second_certificate result ≡ walk_certificate self.entry }
    {
        let entry = all_moved(&self.owners, self.count);
        let mut walk = self;
        walk.owners = entry;
        walk.count = 0;
        Second {
            walk,
            entry,
            bad: None,
            over: false,
        }
    }
}

impl<'a> Second<'a> {
    ghost use Rattle.std.specs.Prelude.{◌≡◌, ◌++◌, ◌∷◌, [], ℕ, List};
    ghost use Rattle.ttx_certify.specs.walks.Passing.{Stands, EndsAs, second_pages, second_certificate};

    /// Takes the next slot of the second list, of any length. Allocates no memory.
    pub fn second(&mut self, slot: &[u8; 42])
        ensures stands { (x y : List (List ℕ)) → Stands self.old x y → Stands self.new x (y ++ slot.now ∷ []) }
        ensures pages { second_pages self.new ≡ second_pages self.old }
        ensures certificate { second_certificate self.new ≡ second_certificate self.old }
    {
        if self.walk.count >= 65536 {
            self.over = true;
            return;
        }
        ttx_cycle::arrays::is_slot(slot);
        self.bad = first_of(self.bad, !clean(slot), self.walk.count);
        take_slot(&mut self.walk, slot);
    }

    /// The results, if the second list leaves the same owners as it began with. `None` exactly if it does not, is empty, or has more
    /// than 65,536 slots.
    pub(crate) fn end(self) -> Option<EndedWalk<'a>>
        ensures { (x y : List (List ℕ)) → Stands self.entry x y → EndsAs x y self.entry result }
    {
        ttx_page::laws::pages_keep_their_rules();
        let (pages, certificate) = (self.walk.pages, self.walk.certificate);
        let period = self.walk.count;
        let is_steady = are_steady(pages, &self.entry, &self.walk.owners, period);
        if self.over || period == 0 || !is_steady {
            return None;
        }
        let bad = self.bad;
        let walk = self.walk;
        Some(EndedWalk {
            pages,
            certificate,
            period,
            bad,
            others: walk.others,
            tracks: walk.tracks,
            facts: walk.facts,
        })
    }
}
