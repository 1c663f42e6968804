//! What follows the edition on the air: the planned edition or, where only an item that comes too late through the change is in the way, the
//! same cycle begun at another page header.

ghost use Rattle.std.specs.Prelude.{◌≡◌, ◌⊎◌, ◌↔◌, IsTrue, IfOk, take};
ghost use Rattle.ttx_certificate.specs.Certificates.{fields_of, certificate_of};
ghost use Rattle.ttx_cycle.specs.Cycles.{slots_of};
ghost use Rattle.ttx_deadline.specs.Deadlines.{IsFoundWith};
ghost use Rattle.ttx_playout.specs.Takeovers.{edition_of};
ghost use Rattle.ttx_source.specs.Services.{pages_of};
ghost use Rattle.ttx_press.specs.Houses as terms;
ghost use Rattle.ttx_press.specs.Turns as order;
ghost use Rattle.ttx_press.specs.Successors.{Suits, TriesTurn, TakesTurn, IsItemLate, Succeeds};

use crate::changes::{ends_between_pages, may_follow, spliced};
use crate::house::House;
use crate::terms::asked_of;
use crate::turns::{turned, turns};
use std::alloc::Global;
use std::mem;
use ttx_air::Receivers;
use ttx_certify::Verdict;
use ttx_cycle::Cycle;
use ttx_deadline::{FoundWith, find_with};
use ttx_playout::Edition;
use ttx_proof::{SpliceReason, SpliceVerdict};
use ttx_witness::{Certificate, NoMemory};

// How many turns are tried at most.
const MOST_TURNS: usize = 64;

// A turned cycle, with the certificate that is found for it and the verdict on it.
#[derive(Drop)]
struct Turn {
    cycle: Cycle,
    certificate: Certificate,
    verdict: Verdict,
}

// Whether only an item that comes too late through the change is in the way.
fn is_item_late(alloc: Global, on_air: &Edition, planned: &Edition) -> Result<bool, NoMemory>
    ensures { IfOk result (IsItemLate (edition_of on_air.now) (edition_of planned.now)) }
{
    match spliced(alloc, on_air, planned) {
        Ok(SpliceVerdict::No(SpliceReason::SeamLate { page: _, item: _ })) => Ok(true),
        Ok(_) => Ok(false),
        Err(fault) => Err(fault),
    }
}

// The cycle of the edition, begun at this slot.
fn turn_at(alloc: Global, house: House, edition: &Edition, at: usize) -> Result<Turn, NoMemory>
    ensures cycle { IfOk result (λ turn. slots_of turn.cycle ≡ order.turned at (slots_of edition.now.cycle)) }
    ensures found { IfOk result (λ turn. IsFoundWith (slots_of turn.cycle) (pages_of edition.now.service) edition.now.service.lines
        (terms.asked_of house) (fields_of turn.certificate) turn.verdict) }
{
    let Ok(cycle) = turned(alloc, &edition.cycle, at) else {
        return Err(NoMemory);
    };
    let FoundWith {
        certificate,
        verdict,
    } = find_with(alloc, &cycle, &edition.service, asked_of(house))?;
    Ok(Turn {
        cycle,
        certificate,
        verdict,
    })
}

// Exchanges the cycle and the certificate of the edition for those of the turn.
fn exchange(edition: &mut Edition, turn: &mut Turn)
    ensures edition { edition.new ≡ record edition.old { cycle = turn.old.cycle; certificate = turn.old.certificate } }
    ensures turn { turn.new ≡ record turn.old { cycle = edition.old.cycle; certificate = edition.old.certificate } }
{
    mem::swap(&mut edition.cycle, &mut turn.cycle);
    mem::swap(&mut edition.certificate, &mut turn.certificate);
}

// Whether a turned edition, with this verdict on its cycle and certificate, suits.
fn suits(
    alloc: Global,
    receivers: Receivers,
    on_air: &Edition,
    next: &Edition,
    verdict: Verdict,
) -> Result<bool, NoMemory>
    ensures { IfOk result (λ suits. IsTrue suits ↔ Suits receivers (edition_of on_air.now) (edition_of next.now) verdict) }
{
    match verdict {
        Verdict::Yes => {
            if !ends_between_pages(receivers, next) {
                return Ok(false);
            }
            may_follow(alloc, receivers, on_air, next)
        }
        Verdict::No(_) => Ok(false),
    }
}

// Begins the edition at this slot if it then suits. Otherwise it stays as it is.
fn tried(
    alloc: Global,
    house: House,
    on_air: &Edition,
    edition: &mut Edition,
    at: usize,
) -> Result<bool, NoMemory>
    requires { (certificate_of edition.old.certificate).lines ≡ edition.old.service.lines }
    ensures tried { IfOk result (λ taken. TriesTurn taken house (edition_of on_air.now) (edition_of edition.old) at (edition_of edition.new)) }
    ensures kept { IfOk result (λ taken. IsTrue taken ⊎ (edition.new ≡ edition.old)) }
{
    let mut turn = turn_at(alloc, house, edition, at)?;
    exchange(edition, &mut turn);
    if suits(alloc, house.receivers, on_air, edition, turn.verdict)? {
        return Ok(true);
    }
    exchange(edition, &mut turn);
    Ok(false)
}

// The planned edition, begun at the first of these slots with which it suits. Without one it is as it is.
fn first_turn(
    alloc: Global,
    house: House,
    on_air: &Edition,
    planned: Edition,
    places: &[usize],
) -> Result<Edition, NoMemory>
    requires { (certificate_of planned.certificate).lines ≡ planned.service.lines }
    ensures { IfOk result (λ next. TakesTurn house (edition_of on_air.now) (edition_of planned) places.now (edition_of next)) }
{
    let mut next = planned;
    for at in places {
        if tried(alloc, house, on_air, &mut next, *at)? {
            return Ok(next);
        }
    }
    Ok(next)
}

// The first places of a list.
#[tactic(auto, using(std::proofs::lemmas::List::take_min))]
fn front(places: &[usize]) -> &[usize]
    ensures { result.now ≡ take 64 places.now }
{
    &places[..MOST_TURNS.min(places.len())]
}

/// What follows the edition on the air: the planned edition or, if only an item that comes too late through the change is in the way, the first
/// of at most 64 turns of it that is accepted, may follow, and does not end amid a page. Without such a turn it is the planned edition.
/// `Err` if memory runs out.
pub(crate) fn successor(
    alloc: Global,
    house: House,
    on_air: &Edition,
    planned: Edition,
) -> Result<Edition, NoMemory>
    requires { (certificate_of planned.certificate).lines ≡ planned.service.lines }
    ensures { IfOk result (λ next. Succeeds house (edition_of on_air.now) (edition_of planned) (edition_of next)) }
{
    if !is_item_late(alloc, on_air, &planned)? {
        return Ok(planned);
    }
    let Ok(places) = turns(alloc, &on_air.cycle, &planned.cycle) else {
        return Err(NoMemory);
    };
    first_turn(alloc, house, on_air, planned, front(&places))
}
