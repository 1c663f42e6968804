//! The run in which a receiver is starved of an item of a page.

ghost use Rattle.std.specs.Prelude.{◌≡◌, ◌≤◌, ◌<◌, ◌+◌, ◌%◌, ◌∷◌, ◌++◌, [], true, if◌then◌else◌, map, pos, IfOk, OnOk};
ghost use Rattle.ttx_page.specs.Streams.{repeated};
ghost use Rattle.ttx_page.specs.Views.{page_of, memory_of};
ghost use Rattle.ttx_receiver.specs.Starving.{starved_hits, starved_choices};
ghost use Rattle.ttx_cycle.specs.Cycles.{slots_of};
ghost use Rattle.ttx_certificate.specs.Certificates.{certificate_of};
ghost use Rattle.ttx_counter.specs.Counters.{counter_run_of};
ghost use Rattle.ttx_counter.specs.StarvingRuns.{hit_at, starving_run};

use crate::counter::{Counter, Hit};
use crate::former::wrong_memory_of;
use crate::run_slots::place;
use crate::starvation_start::limit;
use std::alloc::Global;
use ttx_cycle::Cycle;
use ttx_page::{Item, Page, PageMemory, Selection};
use ttx_receiver::starvation::{first_byte_of, starve};
use ttx_witness::{Certificate, NoMemory};

/// The choices that the receiver takes, and the bits that are received wrong.
#[derive(Drop)]
pub struct Starved {
    pub choices: Vec<bool>,
    pub hits: Vec<Hit>,
}

// Appends a taken choice, if `choice` is true.
fn keep_choice(choices: &mut Vec<bool>, choice: bool) -> Result<(), NoMemory>
    ensures { OnOk result (choices.new.items ≡ (if choice then choices.old.items ++ true ∷ [] else choices.old.items)) }
{
    if choice && choices.push(true).is_err() {
        return Err(NoMemory);
    }
    Ok(())
}

// Appends a hit of the lowest bit of a byte, if `hit` is true.
fn keep_hit(hits: &mut Vec<Hit>, hit: bool, index: u32, byte: u8) -> Result<(), NoMemory>
    ensures { OnOk result (hits.new.items ≡ (if hit then hits.old.items ++ record { index = index; byte = byte; bit = 1 } ∷ [] else hits.old.items)) }
{
    let wrong = Hit {
        index,
        byte,
        bit: 1,
    };
    if hit && hits.push(wrong).is_err() {
        return Err(NoMemory);
    }
    Ok(())
}

/// A receiver that is starved of an item: its selection, the lines of a field, the item, and its former memory.
#[derive(Clone, Copy)]
pub struct StarvedReceiver<'a> {
    pub selection: Selection,
    pub lines: u8,
    pub item: &'a Item,
    pub former: PageMemory,
}

/// The choices and hits of a starved receiver over `count` slots from slot `start` on.
pub fn starve_over(
    alloc: Global,
    cycle: &Cycle,
    receiver: &StarvedReceiver<'_>,
    start: u32,
    slots: u32,
) -> Result<Starved, NoMemory>
    requires { receiver.now.lines ≤ 32 }
    ensures hits { IfOk result (λ r. r.hits.items ≡ map (hit_at receiver.now.item.now)
        (starved_hits receiver.now.lines receiver.now.selection receiver.now.item.now
        (repeated (slots_of cycle.now)) (pos start) (memory_of receiver.now.former) slots)) }
    ensures choices { IfOk result (λ r. r.choices.items ≡ starved_choices receiver.now.lines receiver.now.selection receiver.now.item.now
        (repeated (slots_of cycle.now)) (pos start) (memory_of receiver.now.former) slots) }
{
    let mut memory = receiver.former;
    let mut choices = Vec::new(alloc);
    let mut hits = Vec::new(alloc);
    let list = cycle.slots();
    let item = receiver.item;
    let byte = first_byte_of(item);
    for i in 0..slots {
        let slot = &list[place(start, i, list.len())];
        let step = starve(&mut memory, receiver.lines, &receiver.selection, item, slot);
        keep_hit(&mut hits, step.0, i, byte)?;
        keep_choice(&mut choices, step.1)?;
    }
    Ok(Starved { choices, hits })
}

/// A page, the item of which its receiver is starved, and the slot from which on; also the page's place in the list.
#[derive(Clone, Copy)]
pub struct StarvedPage<'a> {
    pub index: u32,
    pub page: &'a Page,
    pub item: &'a Item,
    pub start: u32,
}

/// The counter-run of a receiver that is starved of an item, with the numbers of the certificate.
pub fn counter_for(
    alloc: Global,
    cycle: &Cycle,
    starved: &StarvedPage<'_>,
    certificate: &Certificate,
) -> Result<Counter, NoMemory>
    ensures { IfOk result (λ c. counter_run_of c ≡ starving_run (slots_of cycle.now) starved.now.index (page_of starved.now.page.now)
        starved.now.item.now
        starved.now.start
        (certificate_of certificate.now).lines (certificate_of certificate.now).repeat (certificate_of certificate.now).deadline) }
{
    ttx_witness::certificate_laws::certificates_keep_their_rules();
    let (page, item) = (starved.page, starved.item);
    let receiver = StarvedReceiver {
        selection: Selection::Exact(page.id()),
        lines: certificate.lines(),
        item,
        former: wrong_memory_of(page, item),
    };
    let slots = limit(certificate);
    let run = starve_over(alloc, cycle, &receiver, starved.start, slots)?;
    Ok(Counter {
        page: starved.index,
        any_sub: false,
        start: starved.start,
        slots,
        former: wrong_memory_of(page, item),
        choices: run.choices,
        hits: run.hits,
        lines: certificate.lines(),
        repeat: certificate.repeat(),
        deadline: certificate.deadline(),
    })
}
