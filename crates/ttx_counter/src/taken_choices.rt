//! Replays counter-runs with the choices that their receivers take.

ghost use Rattle.std.specs.Prelude.{◌≡◌, ◌≤◌, ℕ, ◌<◌, ◌++◌, ◌∷◌, [], IfOk, OnOk, length, map, if◌then◌else◌};
ghost use Rattle.std.specs.List.Sorted.{IsNonDecreasing};
ghost use Rattle.ttx_page.specs.Receivers.{next_choice, later_choices};
ghost use Rattle.ttx_page.specs.Streams.{repeated};
ghost use Rattle.ttx_page.specs.Views.{page_of, memory_of};
ghost use Rattle.ttx_cycle.specs.Cycles.{slots_of};
ghost use Rattle.ttx_receiver.specs.Tuning.{chooses};
ghost use Rattle.ttx_counter.specs.Counters.{counter_run_of};
ghost use Rattle.ttx_counter.specs.Following.{choice_at, IsHeardTaking, IsLeftTaking, TellsFollowed};
ghost use Rattle.ttx_counter.specs.Keys.{key_at, AreHitOnce, IsKey};

use crate::checks::{check_counter, selection_for};
use crate::claim::page_at;
use crate::counter::Counter;
use crate::keys::{SlotKeys, end_of, hit_slot, sorted_keys};
use crate::run_slots::place;
use crate::scripted_receiver::Run;
use std::alloc::Global;
use ttx_cycle::Cycle;
use ttx_page::{Item, Page, PageMemory};
use ttx_receiver::starvation::starve;
use ttx_receiver::{Receiver, Scripted};
use ttx_witness::NoMemory;

/// A choice that the receiver takes: the slot, counted from 0 in the run, and how many slots the latest header of its page is behind,
/// at most 64.
#[derive(Clone, Copy)]
pub struct Taken {
    pub index: u32,
    pub age: u8,
}

/// What the receiver of a counter-run holds after it, and the choices that it takes, in the order of their slots.
#[derive(Drop)]
pub struct Followed {
    pub memory: PageMemory,
    pub taken: Vec<Taken>,
}

// Whether the receiver has a choice at a slot. A receiver that takes every choice is tried on a copy of the memory.
fn has_choice(receiver: &Scripted<'_>, slot: &[u8; 42]) -> bool
    requires { receiver.now.tuned.lines ≤ 32 }
    ensures { result ≡ chooses receiver.now.tuned slot.now }
{
    let mut memory = *receiver.memory();
    let lines = receiver.lines();
    let selection = receiver.selection();
    starve(&mut memory, lines, &selection, &Item::Links, slot).1
}

// The next choice of a script, if there is one to make.
fn next_of(choices: &[bool], has: bool) -> bool
    ensures { result ≡ next_choice has choices.now }
{
    match choices {
        [first, ..] => has && *first,
        [] => false,
    }
}

// The choices that are left of a script.
fn later_of<'a>(choices: &'a [bool], has: bool) -> &'a [bool]
    ensures { result.now ≡ later_choices has choices.now }
{
    match choices {
        [_, rest @ ..] => { if has { rest } else { choices } }
        [] => choices,
    }
}

// The age of the receiver's memory after one more slot.
fn choice_at(receiver: &Scripted<'_>, index: u32) -> Taken
    ensures { result ≡ choice_at receiver.now index }
{
    let age = (u32::from(receiver.memory().age()) + 1).min(64) as u8;
    Taken { index, age }
}

// Notes a choice, if it is taken.
fn keep_choice(taken: &mut Vec<Taken>, takes: bool, choice: Taken) -> Result<(), NoMemory>
    ensures { OnOk result (taken.new.items ≡ taken.old.items ++ (if takes then choice ∷ [] else [])) }
{
    if takes && taken.push(choice).is_err() {
        return Err(NoMemory);
    }
    Ok(())
}

// Gives the receiver what is received in the run, and notes the choices that it takes.
fn hear_taking(
    alloc: Global,
    receiver: &mut Scripted<'_>,
    choices: &[bool],
    run: &Run<'_>,
) -> Result<Vec<Taken>, NoMemory>
    requires choices { choices.now ≡ receiver.old.choices }
    requires lines { receiver.old.tuned.lines ≤ 32 }
    requires sorted { IsNonDecreasing run.now.keys.now }
    requires apart { AreHitOnce run.now.keys.now }
    requires keys { (i : ℕ) → i < length run.now.keys.now → IsKey (key_at run.now.keys.now i) }
    ensures { IfOk result (λ taken. IsHeardTaking (repeated (slots_of run.now.cycle.now)) run.now.start run.now.count run.now.keys.now
        receiver.old receiver.new taken.items) }
{
    let slots = run.cycle.slots();
    let keys = run.keys;
    let mut taken = Vec::new(alloc);
    let mut left = choices;
    let mut from = 0;
    for i in 0..run.count {
        let to = end_of(keys, from, i);
        let hits = SlotKeys { keys, from, to };
        let slot = hit_slot(&slots[place(run.start, i, slots.len())], &hits);
        let has = has_choice(receiver, &slot);
        keep_choice(&mut taken, next_of(left, has), choice_at(receiver, i))?;
        left = later_of(left, has);
        receiver.step(Some(&slot));
        from = to;
    }
    Ok(taken)
}

// The receiver's memory after the run, and the choices that it takes.
fn follow_keys(
    alloc: Global,
    cycle: &Cycle,
    page: &Page,
    counter: &Counter,
    keys: &[u64],
) -> Result<Followed, NoMemory>
    requires lines { (counter_run_of counter.now).lines ≤ 32 }
    requires sorted { IsNonDecreasing keys.now }
    requires apart { AreHitOnce keys.now }
    requires keys { (i : ℕ) → i < length keys.now → IsKey (key_at keys.now i) }
    ensures { IfOk result (λ f. IsLeftTaking (repeated (slots_of cycle.now)) keys.now (page_of page.now) (counter_run_of counter.now)
        (memory_of f.memory) f.taken.items) }
{
    let selection = selection_for(counter.any_sub, page.id());
    let choices: &[bool] = &counter.choices;
    let mut receiver = Scripted::new(selection, counter.lines, counter.former, choices);
    let run = Run {
        cycle,
        start: counter.start,
        count: counter.slots,
        keys,
    };
    let taken = hear_taking(alloc, &mut receiver, choices, &run)?;
    Ok(Followed {
        memory: *receiver.memory(),
        taken,
    })
}

/// The memory of the receiver after a counter-run, and the choices that it takes. `None` if this is not a counter-run of the cycle and
/// the pages.
pub fn follow(
    alloc: Global,
    cycle: &Cycle,
    pages: &[Page],
    counter: &Counter,
) -> Result<Option<Followed>, NoMemory>
    ensures { IfOk result (TellsFollowed (λ f. memory_of f.memory) (λ f. f.taken.items) (slots_of cycle.now) (map page_of pages.now)
        (counter_run_of counter.now)) }
{
    ttx_page::laws::each_slot_turns();
    let is = check_counter(alloc, cycle, pages, counter)?;
    if !is {
        return Ok(None);
    }
    let keys = sorted_keys(alloc, &counter.hits)?;
    let page = page_at(pages, counter.page);
    let followed = follow_keys(alloc, cycle, page, counter, &keys)?;
    Ok(Some(followed))
}
