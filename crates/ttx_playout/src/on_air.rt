//! The edition on the air, which only an accepted change replaces.

ghost use Rattle.std.specs.Prelude.{◌≡◌, ℕ, ◌-◌, List, [], ◌∷◌, ◌++◌, ◌+◌, ◌^◌, ◌↔◌, min, length, nat_lt, if◌then◌else◌, IsTrue, IfOk};
ghost use Rattle.ttx_playout.specs.Schedules as schedule;
ghost use Rattle.ttx_playout.specs.Schedules.{taken};
ghost use Rattle.ttx_playout.specs.Takeovers.{edition_of, current_of, IsCertified, IsChangeVerdict, IsStart, IsChange, IsTime, IsTaken, TakesOver, HasSent, after_slot, after_place, after_hold, at_of, held_of};
ghost use Rattle.ttx_playout.specs.LateChanges.{IsLateChange};
ghost use Rattle.ttx_proof.specs.declared.verdict.SpliceVerdict.TheVariants.{Yes};
ghost use Rattle.ttx_witness.specs.Coverage.{limit};

use crate::edition::Edition;
use crate::faults::{ChangeFault, StartFault};
use crate::late_change::LateChange;
use crate::state::OnAir;
use crate::unfollowed_pages::followed_change;
use std::alloc::Global;
use std::mem;
use ttx_certify::{Verdict, certify};
use ttx_page::Class;
use ttx_proof::{SpliceVerdict, splice};
use ttx_witness::{NoMemory, limit};

// The parts of an edition are in their ranges.
fn has_ranges(edition: &Edition)
    ensures { schedule.IsEdition (edition_of edition.now) }
{
    ttx_page::laws::pages_keep_their_rules();
    ttx_witness::certificate_laws::certificates_keep_their_rules();
    let _ = edition.service.pages();
}

// The certifier's verdict on an edition.
fn certified(alloc: Global, edition: &Edition) -> Result<Verdict, NoMemory>
    ensures { IfOk result (IsCertified (edition_of edition.now)) }
{
    certify(
        alloc,
        &edition.cycle,
        edition.service.pages(),
        &edition.certificate,
    )
}

// The verdict on a change from one edition to another.
fn judged(alloc: Global, old: &Edition, new: &Edition) -> Result<SpliceVerdict, NoMemory>
    ensures { IfOk result (IsChangeVerdict (edition_of old.now) (edition_of new.now)) }
{
    splice(
        alloc,
        &old.cycle,
        &new.cycle,
        old.service.pages(),
        new.service.pages(),
        &old.certificate,
        &new.certificate,
    )
}

// How many more slots the edition has to be sent before another may take over, when it has been sent for `held` slots.
fn left(edition: &Edition, held: u32) -> u32
    ensures { result ≡ limit (edition_of edition.now).certificate - held }
{
    limit(&edition.certificate).saturating_sub(held)
}

// Whether the next edition may take over now; if not, why.
fn permits(alloc: Global, on_air: &OnAir, next: &Edition) -> Result<(), ChangeFault>
    ensures { IsChange on_air.now (edition_of next.now) result }
{
    let left = left(&on_air.current, on_air.held);
    if left > 0 {
        return Err(ChangeFault::TooSoon { left });
    }
    if on_air.at > 0 {
        let slots = on_air.current.cycle.slots().len() as u32;
        return Err(ChangeFault::Amid {
            left: slots - on_air.at,
        });
    }
    match judged(alloc, &on_air.current, next) {
        Ok(SpliceVerdict::Yes) => Ok(()),
        Ok(SpliceVerdict::No(reason)) => Err(ChangeFault::Refused(reason)),
        Err(_) => Err(ChangeFault::NoMemory),
    }
}

impl OnAir {
    /// Puts a first edition on the air if the certifier accepts it, with a certificate that does not assume that receivers clear pages.
    pub fn start(alloc: Global, first: Edition) -> Result<OnAir, StartFault>
        ensures exact { IsStart (edition_of first) result }
        ensures on_air { IfOk result (λ on_air. HasSent [] on_air (edition_of first) []) }
    {
        has_ranges(&first);
        match certified(alloc, &first) {
            Ok(Verdict::Yes) => {}
            Ok(Verdict::No(reason)) => return Err(StartFault::Refused(reason)),
            Err(_) => return Err(StartFault::NoMemory),
        }
        match first.certificate.class() {
            Class::Any => Ok(OnAir {
                current: first,
                at: 0,
                held: u32::MAX,
            }),
            Class::Clearing => Err(StartFault::Clearing),
        }
    }

    /// The edition on the air.
    pub fn current(&self) -> &Edition
        ensures { edition_of result.now ≡ current_of self.now }
    {
        &self.current
    }

    /// Whether the next slot is the first one of a period.
    pub fn is_between(&self) -> bool
        ensures { IsTrue result ↔ at_of self.now ≡ 0 }
    {
        self.at == 0
    }

    /// Whether another edition may take over now: a period has ended, and the edition on the air has been sent for at least a deadline.
    pub fn is_time(&self) -> bool
        ensures { IsTrue result ↔ IsTime self.now }
    {
        self.at == 0 && left(&self.current, self.held) == 0
    }

    /// The next slot to send. All slots returned so far are part of what a handed-on schedule sends.
    pub fn next_slot(&mut self) -> [u8; 42]
        ensures same { current_of self.new ≡ current_of self.old }
        ensures place { at_of self.new ≡ after_place self.old }
        ensures held { held_of self.new ≡ after_hold self.old }
        ensures on_air { (log : List (List ℕ)) (first : schedule.Edition) (later : List schedule.Showing) → HasSent log self.old first later →
            HasSent (log ++ result ∷ []) self.new first (after_slot self.old later) }
    {
        ttx_page::laws::each_slot_turns();
        let slots = self.current.cycle.slots();
        let slot = slots[self.at as usize];
        let count = slots.len() as u32;
        let next = self.at + 1;
        if next < count {
            self.at = next;
        } else {
            self.at = 0;
            self.held = self.held.saturating_add(count);
        }
        slot
    }

    /// The verdict on a change to a next edition. It depends only on the two editions, so it can be obtained at any time.
    pub fn judge(&self, alloc: Global, next: &Edition) -> Result<SpliceVerdict, NoMemory>
        ensures { IfOk result (IsChangeVerdict (current_of self.now) (edition_of next.now)) }
    {
        judged(alloc, &self.current, next)
    }

    /// The verdict on a change to a next edition, for receivers that may show pages late: in the next edition and across the change, at most `gap`
    /// slots after each header of a page the next header of its magazine has to come, with another page number.
    pub fn judge_late(
        &self,
        alloc: Global,
        next: &Edition,
        gap: usize,
    ) -> Result<LateChange, NoMemory>
        ensures { IfOk result (IsLateChange (current_of self.now) (edition_of next.now) gap) }
    {
        match judged(alloc, &self.current, next)? {
            SpliceVerdict::Yes => Ok(followed_change(&self.current, next, gap)),
            SpliceVerdict::No(reason) => Ok(LateChange::No(reason)),
        }
    }

    /// Puts on the air the next edition, the change to which is accepted. Returns the edition that leaves the air.
    pub fn take(&mut self, next: Edition) -> Edition
        requires time { IsTime self.old }
        requires accepted { IsChangeVerdict (current_of self.old) (edition_of next) Yes }
        ensures exact { IsTaken self.old (edition_of next) self.new result }
        ensures on_air { (log : List (List ℕ)) (first : schedule.Edition) (later : List schedule.Showing) → HasSent log self.old first later →
            HasSent log self.new first (taken later (edition_of next)) }
    {
        ttx_page::laws::each_slot_turns();
        has_ranges(&next);
        let old = mem::replace(
            self,
            OnAir {
                current: next,
                at: 0,
                held: 0,
            },
        );
        old.current
    }

    /// Puts the next edition on the air and returns the one that leaves it, if a period has ended, the edition on the air has been sent for at
    /// least a deadline, and the change is accepted. Otherwise nothing changes, and the fault says why. What is sent remains part of what a
    /// handed-on schedule sends.
    pub fn follow(&mut self, alloc: Global, next: Edition) -> Result<Edition, ChangeFault>
        ensures exact { TakesOver self.old (edition_of next) self.new result }
        ensures on_air { (log : List (List ℕ)) (first : schedule.Edition) (later : List schedule.Showing) → HasSent log self.old first later →
            IfOk result (λ _. HasSent log self.new first (taken later (edition_of next))) }
    {
        match permits(alloc, self, &next) {
            Ok(()) => Ok(self.take(next)),
            Err(fault) => Err(fault),
        }
    }
}
