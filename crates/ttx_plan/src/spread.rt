//! Places of pages among the rounds that make the rounds similar in length, and keep the pages of one page number apart.

ghost use Rattle.std.specs.Prelude.{◌≡◌, ℕ, ◌+◌, ◌/◌, ◌%◌, ◌^◌, ◌<◌, ◌≤◌, ◌==◌, if◌then◌else◌, length, slice_index};
ghost use Rattle.ttx_plan.specs.Blocks.{placed};
ghost use Rattle.ttx_plan.specs.Carries.{blocks_of};
ghost use Rattle.ttx_plan.specs.Ranges.{ArePlaces, IsOften};
ghost use Rattle.ttx_plan.specs.Spread.{IsFirstLeast, IsSpread};
ghost use Rattle.ttx_plan.specs.Spreading.{AreCounted, IsSpreadTo};

use crate::block::block_length;
use crate::bounds::times;
use crate::subpage_turns::{burdens, count_numbers};
use ttx_page::Class;
use ttx_source::Service;

// The first of the first `count` places with the least burden.
fn first_least(burdens: &[usize], count: usize) -> usize
    requires some { 1 ≤ count }
    requires few { count ≤ length burdens.now }
    ensures { IsFirstLeast (λ place. slice_index burdens.now place) count result }
{
    let mut least = 0;
    for place in 1..count {
        if burdens[place] < burdens[least] {
            least = place;
        }
    }
    least
}

// Adds the packets of a block to the rounds in which it is sent.
fn add_packets(packets: &mut [usize], period: usize, place: usize, count: usize)
    requires some { 1 ≤ period }
    requires few { count ≤ 26 }
    requires room { (round : ℕ) → slice_index packets.old round ≤ 2 ^ 32 }
    ensures { (round : ℕ) → round < length packets.old →
        slice_index packets.new round ≡ slice_index packets.old round + (if round % period == place then count else 0) }
{
    for round in 0..packets.len() {
        if round % period == place {
            packets[round] += count;
        }
    }
}

// Gives a place to each page that is sent `often` times, after those that are sent more often.
fn place_pages(
    service: &Service,
    class: Class,
    often: usize,
    places: &mut [usize],
    packets: &mut [usize],
)
    requires often { IsOften often }
    requires enough { length service.now.pages ≤ length places.old }
    requires room { (round : ℕ) → slice_index packets.old round ≤ 2 ^ 31 }
    requires small { (at : ℕ) → slice_index places.old at < 8 }
    requires spread { IsSpreadTo class service.now.pages places.old often 0 }
    requires counted { AreCounted packets.old (placed places.old (blocks_of class service.now.pages)) often 0 }
    ensures small { (at : ℕ) → slice_index places.new at < 8 }
    ensures spread { IsSpreadTo class service.now.pages places.new often (length service.now.pages) }
    ensures counted { AreCounted packets.new (placed places.new (blocks_of class service.now.pages)) often (length service.now.pages) }
    ensures room { (round : ℕ) → slice_index packets.new round ≤ slice_index packets.old round + 52000 }
{
    let pages = service.pages();
    let numbers = count_numbers(service);
    for index in 0..pages.len() {
        if times(service, index) == often {
            let burdens = burdens(service, &numbers, &*places, &*packets, index);
            let place = first_least(&burdens, 8 / often);
            places[index] = place;
            add_packets(
                packets,
                8 / often,
                place,
                block_length(class, &pages[index]),
            );
        }
    }
}

// Place 0 for each page that a service may have.
fn no_places() -> [usize; 2000]
    ensures length { length result ≡ 2000 }
    ensures zero { (at : ℕ) → slice_index result at ≡ 0 }
{
    [0; 2000]
}

/// The place of each page of the service among the eight rounds, by its index, for receivers of the class. These places make the rounds
/// similar in length, and keep the pages of one page number apart. Pages take their places one after another, those that are sent most
/// often first, and equal ones in authored order. Each takes the first place with the least burden, which counts first the pages of its number that
/// are in the rounds of the place already, then how many rounds the place comes after the turn of the page, then the packets of these
/// rounds. Pages of a number that are sent equally often have their turns at equal distances, in the order of their subcodes. The packets
/// of a page are its page header, the rows that are sent and X/27/0. Allocates no memory.
pub fn spread_places(service: &Service, class: Class) -> [usize; 2000]
    ensures spread { IsSpread class service.now.pages result }
    ensures places { ArePlaces result service.now.pages }
{
    let _pages = service.pages();
    let mut places = no_places();
    let mut packets = [0; 8];
    let mut often = 8;
    while often > 0 {
        place_pages(service, class, often, &mut places, &mut packets);
        often /= 2;
    }
    places
}
