//! The service text of a cycle.

ghost use Rattle.std.specs.Prelude.{◌≡◌, ◌≤◌, ℕ, IfOk, IfErr, MatchOption, MatchResult, length, string_bytes};
ghost use Rattle.ttx_cycle.specs.Bounded.{most_bytes};
ghost use Rattle.ttx_cycle.specs.Cycles.{slots_of};
ghost use Rattle.ttx_source.specs.Services.{pages_of};
ghost use Rattle.ttx_witness.specs.sent.AllSent.{AreAllSent};
ghost use Rattle.ttx_witness.specs.faults.OtherSubpages.{AreOtherSubpages};
ghost use Rattle.ttx_extract.specs.Drafts.{draft_of, sent_draft};
ghost use Rattle.ttx_extract.specs.Extracts.{AreSteady, Blames, Extracts, IsExtract, IsSaid, IsSentService};
ghost use Rattle.ttx_extract.specs.Gathering.{AreSentOf, IsBlame};
ghost use Rattle.ttx_extract.specs.Made.{IsNotMade, Makes};
ghost use Rattle.ttx_extract.specs.ServiceTexts.{service_text};

use crate::conflicts::why;
use crate::draft::Draft;
use crate::drafts::is_draft;
use crate::faults::ExtractFault;
use crate::gathered::gather;
use crate::service_texts::service_text;
use crate::unlike_pages::first_reason;
use std::alloc::Global;
use ttx_cycle::{Cycle, MOST_BYTES};
use ttx_source::{Service, read_service};
use ttx_witness::{Collected, NoMemory, OtherSubpages};

/// A text, and its service.
#[derive(Drop)]
pub struct Extracted {
    pub text: String,
    pub service: Service,
}

// Why the pages of a service are not sent unchanged; `None` if they are.
fn blame(
    cycle: &Cycle,
    service: &Service,
    collected: &Collected,
    others: &OtherSubpages,
) -> Option<ExtractFault>
    ensures { (lines : ℕ) → AreAllSent (slots_of cycle.now) (pages_of service.now) lines collected.now →
        AreOtherSubpages (slots_of cycle.now) (pages_of service.now) others.now → IsSentService (slots_of cycle.now) lines service.now →
        MatchOption result (AreSteady (slots_of cycle.now) service.now) (Blames (slots_of cycle.now) lines) }
{
    match first_reason(cycle, service.pages(), collected, others) {
        Some(told) => Some(why(cycle, collected, told)),
        None => None,
    }
}

// The service of a cycle has what the cycle sends first. It does nothing at run time; it gives this to the caller's proof.
fn is_sent(cycle: &Cycle, service: &Service)
    ensures { (lines : ℕ) → service.now ≡ sent_draft (slots_of cycle.now) lines → IsSentService (slots_of cycle.now) lines service.now }
{
    ttx_witness::judging_laws::transmissions_are_listed();
    // the lengths and ranges of both
    let _slots = cycle.slots();
    let _lines = service.lines();
}

// Headers of other subpages than those of the service.
fn others_of(alloc: Global, cycle: &Cycle, service: &Service) -> Result<OtherSubpages, NoMemory>
    ensures { IfOk result (λ others. AreOtherSubpages (slots_of cycle.now) (pages_of service.now) others) }
{
    OtherSubpages::of(alloc, cycle, service.pages())
}

// Whether each page of the service that the cycle sends is sent unchanged.
fn check(
    alloc: Global,
    cycle: &Cycle,
    service: &Service,
    collected: &Collected,
) -> Result<(), ExtractFault>
    ensures { (lines : ℕ) → service.now ≡ sent_draft (slots_of cycle.now) lines → AreSentOf (slots_of cycle.now) lines collected.now →
        MatchResult result (λ _. IsExtract (slots_of cycle.now) lines service.now) (IsBlame (slots_of cycle.now) lines) }
{
    is_sent(cycle, service);
    let Ok(others) = others_of(alloc, cycle, service) else {
        return Err(ExtractFault::NoMemory);
    };
    match blame(cycle, service, collected, &others) {
        Some(fault) => Err(fault),
        None => Ok(()),
    }
}

// The text of a draft.
fn text_of(alloc: Global, draft: &Draft) -> Result<String, ExtractFault>
    ensures text { IfOk result (λ text. string_bytes text ≡ service_text (draft_of draft.now)) }
    ensures most { IfOk result (λ text. length (string_bytes text) ≤ most_bytes) }
    ensures fault { IfErr result (IsNotMade (draft_of draft.now)) }
{
    let Ok(text) = service_text(alloc, draft) else {
        return Err(ExtractFault::NoMemory);
    };
    if text.len() <= MOST_BYTES {
        Ok(text)
    } else {
        Err(ExtractFault::TooLong)
    }
}

// The text of a draft, and its service, which is the draft.
fn make(alloc: Global, draft: &Draft) -> Result<Extracted, ExtractFault>
    ensures { Makes (draft_of draft.now) result }
{
    let text = match text_of(alloc, draft) {
        Ok(text) => text,
        Err(fault) => return Err(fault),
    };
    let service = match read_service(alloc, text.as_bytes()) {
        Ok(service) => service,
        Err(error) => return Err(ExtractFault::Service(error)),
    };
    if is_draft(&service, draft) {
        Ok(Extracted { text, service })
    } else {
        Err(ExtractFault::Unsaid)
    }
}

/// The text of the service that a cycle sends, with these lines of a field, and the service. Pages stand in the order of their first
/// headers, with the first transmission of each item; a row that isn't sent is spaces. Before it is returned, the text is read, and
/// the cycle is compared with it as the certifier does.
///
/// The first of these that holds is returned: `Info`, a minus zero in the packet 8/30; `Service`, more than 2,000 pages or one with
/// subcode 3F7F; `TooLong`, `Service` and `Unsaid`, of the text; `Conflict` or `Reason`, the first page that isn't sent unchanged.
pub fn extract(alloc: Global, cycle: &Cycle, lines: u8) -> Result<Extracted, ExtractFault>
    ensures answer { Extracts (slots_of cycle.now) lines result }
    ensures sent { IfOk result (λ e. e.service ≡ sent_draft (slots_of cycle.now) lines) }
    ensures text { IfOk result (λ e. string_bytes e.text ≡ service_text e.service) }
    ensures said { IfOk result (λ e. IsSaid (slots_of cycle.now) lines) }
{
    let gathered = match gather(alloc, cycle, lines) {
        Ok(gathered) => gathered,
        Err(fault) => return Err(fault),
    };
    let made = match make(alloc, &gathered.draft) {
        Ok(made) => made,
        Err(fault) => return Err(fault),
    };
    match check(alloc, cycle, &made.service, &gathered.collected) {
        Ok(()) => Ok(made),
        Err(fault) => Err(fault),
    }
}
