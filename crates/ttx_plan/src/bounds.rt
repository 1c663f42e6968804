//! The bound on the length of a cycle, computed before anything is laid out.

ghost use Rattle.std.specs.Prelude.{◌≡◌, ◌-◌, ◌<◌, ◌≤◌, ◌*◌, ◌==◌, length, option_map, slice_get, slice_index_or, Some};
ghost use Rattle.std.specs.List.{list_any};
ghost use Rattle.ttx_page.specs.Views.{page_of};
ghost use Rattle.ttx_plan.specs.Blocks.{length_bound};
ghost use Rattle.ttx_plan.specs.Carries.{blocks_sent_at};
ghost use Rattle.ttx_plan.specs.Ranges.{ArePlaces, IsOften};
ghost use Rattle.ttx_plan.specs.Seen.{fillers_in, used_by};

use crate::asked::Receivers;
use crate::block::block_length;
use crate::fillers::Fillers;
use ttx_page::Page;
use ttx_source::Service;

// Whether a page is in the queue.
fn has_pages(pages: &[Page], queue: usize) -> bool
    requires { queue < 8 }
    ensures { result ≡ list_any (λ p. (page_of p).id.mag - 1 == queue) pages.now }
{
    pages
        .iter()
        .any(|page| usize::from(page.id().mag()) - 1 == queue)
}

// How many magazines have pages.
fn count_used(pages: &[Page]) -> usize
    ensures count { result ≡ length (used_by pages.now 8) }
    ensures few { result ≤ 8 }
{
    let mut count = 0;
    for queue in 0..8 {
        if has_pages(pages, queue) {
            count += 1;
        }
    }
    count
}

// How often the page at `index` is sent.
pub fn times(service: &Service, index: usize) -> usize
    requires { index < length service.now.pages }
    ensures value { option_map (λ p. p.often) (slice_get service.now.pages index) ≡ Some result }
    ensures is { IsOften result }
{
    let _pages = service.pages();
    usize::from(service.often(index))
}

/// The place of the page at `index` among the rounds; 0 if the list is shorter.
pub fn place_at(places: &[usize], index: usize) -> usize
    ensures { result ≡ slice_index_or places.now index 0 }
{
    if index < places.len() {
        places[index]
    } else {
        0
    }
}

// How many blocks follow a time-filling header.
fn count_fillers(receivers: Receivers, service: &Service, places: &[usize]) -> usize
    ensures count { result ≡ fillers_in (blocks_sent_at places.now receivers.late receivers.class service.now.pages) }
    ensures few { result ≤ 8 * 2000 }
{
    let pages = service.pages();
    let mut count: usize = 0;
    let mut fillers = Fillers::new(receivers.late);
    for round in 0..8 {
        for index in 0..pages.len() {
            let id = pages[index].id();
            if round % (8 / times(service, index)) == place_at(places, index) {
                count += usize::from(fillers.pass(usize::from(id.mag()) - 1, id.page()));
            }
        }
    }
    count
}

/// Twice the sum of all packets, a field for each block and a time-filling header for each magazine that has pages, plus two fields.
/// Allocates no memory.
pub fn length_bound(receivers: Receivers, service: &Service, places: &[usize]) -> usize
    requires { ArePlaces places.now service.now.pages }
    ensures { result ≡ length_bound service.now.lines (blocks_sent_at places.now receivers.late receivers.class service.now.pages) }
{
    let pages = service.pages();
    let lines = usize::from(service.lines());
    let mut blocks = 0;
    let mut packets = 0;
    for index in 0..pages.len() {
        let often = times(service, index);
        blocks += often;
        packets += often * block_length(receivers.class, &pages[index]);
    }
    packets += count_fillers(receivers, service, places);
    2 * (packets + blocks * lines + count_used(pages)) + 2 * lines
}
