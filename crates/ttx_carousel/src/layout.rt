//! The order in which a carousel sends pages.

ghost use Rattle.std.specs.Prelude.{◌≡◌, ◌+◌, ◌*◌, ◌/◌, ◌++◌, ◌∷◌, ◌≤◌, ◌<◌, ℕ, not, [], if◌then◌else◌, length, map, slice_get, IfOk, IfSome, MatchOption, OnOk, Some};
ghost use Rattle.std.specs.List.{list_any};
ghost use Rattle.ttx_page.specs.Views.{page_of};
ghost use Rattle.ttx_source.specs.PromiseViews.{promise_view};
ghost use Rattle.ttx_source.specs.Services.{Authored, pages_of};
ghost use Rattle.ttx_carousel.specs.Layout as rule;
ghost use Rattle.ttx_carousel.specs.Orders.{AreBelow};

use std::alloc::{AllocError, Global};
use ttx_numbers::{share_number, siblings};
use ttx_page::Page;
use ttx_source::{Promise, Service};

/// Where a page stands.
#[derive(Clone, Copy)]
pub enum Standing {
    /// It is sent so often in eight rounds, from its place on.
    Rounds { often: u8, place: usize },
    /// It is sent in one round of one turn.
    Once { turn: usize, place: usize },
}

// Whether a stay is of the number of a page.
fn is_stay_of(pages: &[Page], page: &Page, stay: Promise) -> bool
    ensures { result ≡ rule.is_stay_of (map page_of pages.now) (page_of page.now) (promise_view stay) }
{
    match pages.get(stay.page) {
        Some(other) => share_number(other, page),
        None => false,
    }
}

// Whether one of the stays is of the number of a page.
fn some_stay(pages: &[Page], stays: &[Promise], page: &Page) -> bool
    ensures { result ≡ list_any (λ stay. rule.is_stay_of (map page_of pages.now) (page_of page.now) (promise_view stay)) stays.now }
{
    stays.iter().any(|stay| is_stay_of(pages, page, *stay))
}

// Whether the number of a page has stays.
fn has_stays(pages: &[Page], stays: &[Promise], page: &Page) -> bool
    ensures { result ≡ rule.has_stays (map page_of pages.now) (map promise_view stays.now) (page_of page.now) }
{
    some_stay(pages, stays, page)
}

// Whether a page has the number of another, and a smaller subcode.
fn has_smaller_subcode(page: &Page, other: &Page) -> bool
    ensures { result ≡ rule.has_smaller_subcode (page_of page.now) (page_of other.now) }
{
    share_number(page, other) && other.id().sub() < page.id().sub()
}

// How many pages of the number of a page have a smaller subcode.
fn rank(pages: &[Page], page: &Page) -> usize
    ensures value { result ≡ rule.rank (map page_of pages.now) (page_of page.now) }
    ensures few { result ≤ length pages.now }
{
    pages
        .iter()
        .filter(|other| has_smaller_subcode(page, other))
        .count()
}

// The first page of the list with the number of a page.
fn first_of(pages: &[Page], page: &Page) -> usize
    ensures { result ≡ rule.first_of (map page_of pages.now) (page_of page.now) }
{
    for index in 0..pages.len() {
        if share_number(page, &pages[index]) {
            return index;
        }
    }
    pages.len()
}

// How many turns the number of a page needs.
fn turns_of(pages: &[Page], stays: &[Promise], page: &Page) -> usize
    ensures value { result ≡ rule.turns_of (map page_of pages.now) (map promise_view stays.now) (page_of page.now) }
    ensures few { result ≤ 1 + length pages.now }
{
    if has_stays(pages, stays, page) {
        siblings(pages, page)
    } else {
        1
    }
}

fn greater(one: usize, other: usize) -> usize
    ensures value { result ≡ rule.greater one other }
    ensures least { one ≤ result }
    ensures most { (n : ℕ) → one ≤ n → other ≤ n → result ≤ n }
{
    if one < other { other } else { one }
}

/// How many turns a cycle has.
pub fn turns(pages: &[Page], stays: &[Promise]) -> usize
    requires { length pages.now ≤ 2000 }
    ensures value { result ≡ rule.turns (map page_of pages.now) (map promise_view stays.now) }
    ensures some { 1 ≤ result }
    ensures few { result ≤ 2001 }
{
    let mut turns = 1;
    for index in 0..pages.len() {
        turns = greater(turns, turns_of(pages, stays, &pages[index]));
    }
    turns
}

// How many rounds there are from one that a page is sent in to the next.
fn rounds_between(often: u8) -> usize
    ensures value { result ≡ rule.rounds_between often }
    ensures some { 1 ≤ result }
{
    match often {
        1 => 8,
        2 => 4,
        4 => 2,
        _ => 1,
    }
}

fn place_at(places: &[usize], index: usize) -> usize
    ensures { result ≡ rule.place_of places.now index }
{
    if index < places.len() {
        places[index]
    } else {
        0
    }
}

// The turn of a page of a number with stays.
fn turn_of(pages: &[Page], page: &Page, turns: usize) -> usize
    requires few { length pages.now ≤ 2000 }
    requires turns { turns ≤ 2001 }
    ensures { result ≡ rule.turn_of (map page_of pages.now) (page_of page.now) turns }
{
    let siblings = siblings(pages, page);
    if siblings == 0 {
        return 0;
    }
    rank(pages, page) * turns / siblings
}

// Where a page of such a number stands.
fn once(pages: &[Page], places: &[usize], page: &Page, turns: usize) -> Standing
    requires few { length pages.now ≤ 2000 }
    requires turns { turns ≤ 2001 }
    ensures { result ≡ rule.once (map page_of pages.now) places.now (page_of page.now) turns }
{
    Standing::Once {
        turn: turn_of(pages, page, turns),
        place: place_at(places, first_of(pages, page)),
    }
}

// Where a page stands.
fn standing_of(
    service: &Service,
    stays: &[Promise],
    places: &[usize],
    turns: usize,
    index: usize,
) -> Standing
    requires index { index < length service.now.pages }
    requires turns { turns ≡ rule.turns (pages_of service.now) (map promise_view stays.now) }
    requires few { turns ≤ 2001 }
    ensures { (p : Authored) → slice_get service.now.pages index ≡ Some p →
        result ≡ rule.standing_of (pages_of service.now) (map promise_view stays.now) places.now index p }
{
    let pages = service.pages();
    let page = &pages[index];
    if has_stays(pages, stays, page) {
        once(pages, places, page, turns)
    } else {
        Standing::Rounds {
            often: service.often(index),
            place: place_at(places, index),
        }
    }
}

/// Where each page stands.
pub fn standings(
    alloc: Global,
    service: &Service,
    stays: &[Promise],
    places: &[usize],
    turns: usize,
) -> Result<Vec<Standing>, AllocError>
    requires turns { turns ≡ rule.turns (pages_of service.now) (map promise_view stays.now) }
    requires few { turns ≤ 2001 }
    ensures { IfOk result (λ standings. standings.items ≡ rule.standings service.now (map promise_view stays.now) places.now) }
{
    let count = service.pages().len();
    let mut standings = Vec::new(alloc);
    for index in 0..count {
        standings.push(standing_of(service, stays, places, turns, index))?;
    }
    Ok(standings)
}

// Whether the number of a page has no stays.
fn has_none(pages: &[Page], stays: &[Promise], page: &Page) -> bool
    ensures { result ≡ not (rule.has_stays (map page_of pages.now) (map promise_view stays.now) (page_of page.now)) }
{
    !has_stays(pages, stays, page)
}

// Whether the number of one of the pages has none.
fn some_other(pages: &[Page], stays: &[Promise]) -> bool
    ensures { result ≡ list_any (λ page. not (rule.has_stays (map page_of pages.now) (map promise_view stays.now) (page_of page))) pages.now }
{
    pages.iter().any(|page| has_none(pages, stays, page))
}

/// Whether some page is of no number with stays.
pub fn has_others(pages: &[Page], stays: &[Promise]) -> bool
    ensures { result ≡ rule.has_others (map page_of pages.now) (map promise_view stays.now) }
{
    some_other(pages, stays)
}

// Whether a page is sent in a round, where a turn has so many laps.
fn stands(standing: &Standing, laps: usize, round: usize) -> bool
    requires some { 1 ≤ laps }
    requires few { laps ≤ 65536 }
    ensures { result ≡ rule.stands standing.now laps round }
{
    match *standing {
        Standing::Rounds { often, place } => round % rounds_between(often) == place,
        Standing::Once { turn, place } => round / (8 * laps) == turn && round % (8 * laps) == place,
    }
}

// Appends a page, if it is sent.
fn push_if(order: &mut Vec<usize>, index: usize, sent: bool) -> Result<(), AllocError>
    ensures { OnOk result (order.new.items ≡ order.old.items ++ (if sent then index ∷ [] else [])) }
{
    if sent {
        order.push(index)?;
    }
    Ok(())
}

// Appends the pages of a round.
fn push_round(
    order: &mut Vec<usize>,
    standings: &[Standing],
    laps: usize,
    round: usize,
) -> Result<(), AllocError>
    requires some { 1 ≤ laps }
    requires few { laps ≤ 65536 }
    ensures { OnOk result (order.new.items ≡ order.old.items ++ rule.in_round standings.now laps round (length standings.now)) }
{
    for index in 0..standings.len() {
        let sent = stands(&standings[index], laps, round);
        push_if(order, index, sent)?;
    }
    Ok(())
}

/// The order of the pages in a cycle of so many turns, each of so many laps of eight rounds; `None` if that are more than 65,536 blocks.
pub fn order(
    alloc: Global,
    standings: &[Standing],
    turns: usize,
    laps: usize,
) -> Result<Option<Vec<usize>>, AllocError>
    requires some { 1 ≤ laps }
    requires few { laps ≤ 65536 }
    requires turns { turns ≤ 2001 }
    ensures value { IfOk result (λ order. MatchOption order (65536 < length (rule.order standings.now turns laps))
        (λ order. order.items ≡ rule.order standings.now turns laps)) }
    ensures few { IfOk result (λ order. IfSome order (λ order. length order.items ≤ 65536)) }
    ensures within { IfOk result (λ order. IfSome order (λ order. AreBelow (length standings.now) order.items)) }
{
    let mut order = Vec::new(alloc);
    for round in 0..8 * laps * turns {
        push_round(&mut order, standings, laps, round)?;
        if order.len() > 65536 {
            return Ok(None);
        }
    }
    Ok(Some(order))
}
