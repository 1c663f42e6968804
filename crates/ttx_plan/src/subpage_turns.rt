//! What the places of a page are judged by: the pages of its number, its turn among those that are sent as often, and packets.

ghost use Rattle.std.specs.Prelude.{◌≡◌, ℕ, ◌/◌, ◌^◌, ◌<◌, ◌≤◌, ◌==◌, ◌%◌, length, option_map, slice_get, slice_index, Some, IfSome};
ghost use Rattle.ttx_source.specs.Services.{Authored};
ghost use Rattle.ttx_plan.specs.Spreading.{AreNumbered, number_of};
ghost use Rattle.ttx_plan.specs.SubpageTurns as rule;

use crate::bounds::times;
use ttx_header::PageId;
use ttx_source::Service;

// The id of the page at `index`.
fn id_at(service: &Service, index: usize) -> PageId
    requires { index < length service.now.pages }
    ensures { option_map (λ p. p.page.id) (slice_get service.now.pages index) ≡ Some result }
{
    service.pages()[index].id()
}

// Whether two pages have one page number.
fn share_number(service: &Service, index: usize, other: usize) -> bool
    requires index { index < length service.now.pages }
    requires other { other < length service.now.pages }
    ensures { (p q : Authored) → slice_get service.now.pages index ≡ Some p → slice_get service.now.pages other ≡ Some q →
        result ≡ rule.share_number p q }
{
    let one = id_at(service, index);
    let two = id_at(service, other);
    one.mag() == two.mag() && one.page() == two.page()
}

// Whether they are sent equally often too.
fn take_turns(service: &Service, index: usize, other: usize) -> bool
    requires index { index < length service.now.pages }
    requires other { other < length service.now.pages }
    ensures { (p q : Authored) → slice_get service.now.pages index ≡ Some p → slice_get service.now.pages other ≡ Some q →
        result ≡ rule.take_turns p q }
{
    share_number(service, index, other) && times(service, index) == times(service, other)
}

// Whether the page at `other` is one of these, and has a smaller subcode than the page at `index`.
fn has_smaller_subcode(service: &Service, index: usize, other: usize) -> bool
    requires index { index < length service.now.pages }
    requires other { other < length service.now.pages }
    ensures { (p q : Authored) → slice_get service.now.pages index ≡ Some p → slice_get service.now.pages other ≡ Some q →
        result ≡ rule.has_smaller_subcode p q }
{
    take_turns(service, index, other) && id_at(service, other).sub() < id_at(service, index).sub()
}

// How many pages take turns with the page at `index`; it is one of them.
fn count_of_turns(service: &Service, index: usize) -> usize
    requires { index < length service.now.pages }
    ensures value { (p : Authored) → slice_get service.now.pages index ≡ Some p → result ≡ rule.count_of_turns service.now.pages p }
    ensures some { 1 ≤ result }
    ensures few { result ≤ 2000 }
{
    let count_of_pages = service.pages().len();
    let mut count: usize = 0;
    for other in 0..count_of_pages {
        count += usize::from(take_turns(service, index, other));
    }
    count
}

// How many of them have a smaller subcode.
fn rank(service: &Service, index: usize) -> usize
    requires { index < length service.now.pages }
    ensures value { (p : Authored) → slice_get service.now.pages index ≡ Some p → result ≡ rule.rank service.now.pages p }
    ensures few { result ≤ 2000 }
{
    let count_of_pages = service.pages().len();
    let mut count: usize = 0;
    for other in 0..count_of_pages {
        count += usize::from(has_smaller_subcode(service, index, other));
    }
    count
}

// The first of them in the list.
fn first_of_turns(service: &Service, index: usize) -> usize
    requires { index < length service.now.pages }
    ensures value { (p : Authored) → slice_get service.now.pages index ≡ Some p → result ≡ rule.first_of_turns service.now.pages p }
    ensures within { result ≤ index }
{
    for other in 0..index {
        if take_turns(service, index, other) {
            return other;
        }
    }
    index
}

// How many of them come from the first listed one to the page at `index`.
fn steps(service: &Service, index: usize) -> usize
    requires { index < length service.now.pages }
    ensures value { (p : Authored) → slice_get service.now.pages index ≡ Some p → result ≡ rule.steps service.now.pages p }
    ensures few { result < 2000 }
{
    let count = count_of_turns(service, index);
    let before = rank(service, first_of_turns(service, index));
    (rank(service, index) + count).saturating_sub(before) % count
}

// The round in which it is the turn of the page at `index`.
fn turn(service: &Service, places: &[usize], index: usize) -> usize
    requires index { index < length service.now.pages }
    requires enough { length service.now.pages ≤ length places.now }
    requires small { (at : ℕ) → slice_index places.now at < 8 }
    ensures value { (p : Authored) → slice_get service.now.pages index ≡ Some p → result ≡ rule.turn service.now.pages places.now p }
    ensures few { (p : Authored) → slice_get service.now.pages index ≡ Some p → result < 8 / p.often }
{
    let period = 8 / times(service, index);
    let first = places[first_of_turns(service, index)];
    (first + steps(service, index) * period / count_of_turns(service, index)) % period
}

// The same, if another page of these is listed before it.
fn turn_of(service: &Service, places: &[usize], index: usize) -> Option<usize>
    requires index { index < length service.now.pages }
    requires enough { length service.now.pages ≤ length places.now }
    requires small { (at : ℕ) → slice_index places.now at < 8 }
    ensures value { (p : Authored) → slice_get service.now.pages index ≡ Some p → result ≡ rule.turn_of service.now.pages places.now index p }
    ensures few { (p : Authored) → slice_get service.now.pages index ≡ Some p → IfSome result (λ turn. turn < 8 / p.often) }
{
    if first_of_turns(service, index) == index {
        None
    } else {
        Some(turn(service, places, index))
    }
}

// How many rounds a place comes after the turn.
fn rounds_late(turn: Option<usize>, period: usize, place: usize) -> usize
    requires some { 1 ≤ period }
    requires few { period ≤ 8 }
    requires turn { IfSome turn (λ turn. turn < period) }
    requires place { place < 8 }
    ensures value { result ≡ rule.rounds_late turn period place }
    ensures few { result < 8 }
{
    match turn {
        Some(turn) => (place + period - turn) % period,
        None => 0,
    }
}

// Whether the page at `other` takes its place before the page at `index`.
fn comes_before(service: &Service, index: usize, other: usize) -> bool
    requires index { index < length service.now.pages }
    requires other { other < length service.now.pages }
    ensures { (p q : Authored) → slice_get service.now.pages index ≡ Some p → slice_get service.now.pages other ≡ Some q →
        result ≡ rule.comes_before index p other q }
{
    let often = times(service, index);
    let others = times(service, other);
    often < others || others == often && other < index
}

// Whether it has the number of that page too, and stands in the round.
fn is_earlier_mate(
    service: &Service,
    places: &[usize],
    index: usize,
    round: usize,
    other: usize,
) -> bool
    requires index { index < length service.now.pages }
    requires other { other < length service.now.pages }
    requires enough { length service.now.pages ≤ length places.now }
    ensures { (p : Authored) → slice_get service.now.pages index ≡ Some p →
        result ≡ rule.is_earlier_mate service.now.pages places.now index p round other }
{
    share_number(service, index, other)
        && comes_before(service, index, other)
        && round % (8 / times(service, other)) == places[other]
}

// How many pages of the number of the page at `index` take their places before it, and stand in the round.
fn mates_so_far(service: &Service, places: &[usize], index: usize, round: usize) -> usize
    requires index { index < length service.now.pages }
    requires enough { length service.now.pages ≤ length places.now }
    ensures value { (p : Authored) → slice_get service.now.pages index ≡ Some p →
        result ≡ rule.mates_so_far service.now.pages places.now index p round }
    ensures few { result ≤ 2000 }
{
    let count_of_pages = service.pages().len();
    let mut count: usize = 0;
    for other in 0..count_of_pages {
        count += usize::from(is_earlier_mate(service, places, index, round, other));
    }
    count
}

// The burdens of the eight rounds, as places of the page at `index`, from the places of the pages before it and the packets of each round.
fn burdens_among(service: &Service, places: &[usize], packets: &[usize], index: usize) -> [usize; 8]
    requires index { index < length service.now.pages }
    requires enough { length service.now.pages ≤ length places.now }
    requires small { (at : ℕ) → slice_index places.now at < 8 }
    requires eight { length packets.now ≡ 8 }
    requires room { (round : ℕ) → slice_index packets.now round < 2 ^ 32 }
    ensures eight { length result ≡ 8 }
    ensures value { (p : Authored) → slice_get service.now.pages index ≡ Some p → (round : ℕ) → round < 8 →
        slice_index result round ≡ rule.burden service.now.pages places.now index p (slice_index packets.now round) round }
{
    let period = 8 / times(service, index);
    let turn = turn_of(service, places, index);
    let mut burdens = [0; 8];
    for round in 0..8 {
        let mates = mates_so_far(service, places, index, round);
        burdens[round] = (mates * 8 + rounds_late(turn, period, round)) * 4_294_967_296
            + packets[round];
    }
    burdens
}

// The number of the page at `index`, with its magazine.
fn number_of(service: &Service, index: usize) -> usize
    requires { index < length service.now.pages }
    ensures value { (p : Authored) → slice_get service.now.pages index ≡ Some p → result ≡ number_of p }
    ensures few { result < 2304 }
{
    let id = id_at(service, index);
    usize::from(id.mag()) * 256 + usize::from(id.page())
}

// No pages of any number.
fn no_numbers() -> [usize; 2304]
    ensures length { length result ≡ 2304 }
    ensures zero { (n : ℕ) → slice_index result n ≡ 0 }
{
    [0; 2304]
}

/// How many pages have each number.
pub fn count_numbers(service: &Service) -> [usize; 2304]
    ensures length { length result ≡ 2304 }
    ensures value { AreNumbered result service.now.pages }
{
    let count_of_pages = service.pages().len();
    let mut numbers = no_numbers();
    for index in 0..count_of_pages {
        let number = number_of(service, index);
        numbers[number] += 1;
    }
    numbers
}

// The packets of the eight rounds, for a page that is alone in its number.
fn burdens_alone(packets: &[usize]) -> [usize; 8]
    requires { length packets.now ≡ 8 }
    ensures eight { length result ≡ 8 }
    ensures value { (round : ℕ) → round < 8 → slice_index result round ≡ slice_index packets.now round }
{
    let mut burdens = [0; 8];
    for round in 0..8 {
        burdens[round] = packets[round];
    }
    burdens
}

/// The burdens of the eight rounds, as places of the page at `index`, from the places of the pages before it and the packets of each round.
pub fn burdens(
    service: &Service,
    numbers: &[usize],
    places: &[usize],
    packets: &[usize],
    index: usize,
) -> [usize; 8]
    requires index { index < length service.now.pages }
    requires numbers { (length numbers.now ≡ 2304) × AreNumbered numbers.now service.now.pages }
    requires enough { length service.now.pages ≤ length places.now }
    requires small { (at : ℕ) → slice_index places.now at < 8 }
    requires packets { (length packets.now ≡ 8) × ((round : ℕ) → slice_index packets.now round < 2 ^ 32) }
    ensures eight { length result ≡ 8 }
    ensures value { (p : Authored) → slice_get service.now.pages index ≡ Some p → (round : ℕ) → round < 8 →
        slice_index result round ≡ rule.burden service.now.pages places.now index p (slice_index packets.now round) round }
{
    if numbers[number_of(service, index)] == 1 {
        return burdens_alone(packets);
    }
    burdens_among(service, places, packets, index)
}
