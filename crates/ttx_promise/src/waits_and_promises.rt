//! How long viewers wait for pages, beside what is promised of them.

ghost use Rattle.std.specs.Prelude.{◌≡◌, ◌≤◌, IfOk, map};
ghost use Rattle.std.specs.List.{list_any};
ghost use Rattle.ttx_cycle.specs.Cycles.{slots_of};
ghost use Rattle.ttx_promise.specs.PromisedWaits as rule;
ghost use Rattle.ttx_source.specs.PromiseViews.{promise_view};
ghost use Rattle.ttx_source.specs.Services.{pages_of};

use std::alloc::{AllocError, Global};
use ttx_cycle::Cycle;
use ttx_page::Class;
use ttx_source::{Promise, Service};
use ttx_witness::{NoMemory, PageWait, Wait, waits};

/// How long a viewer of a page waits, and the promise of the page in fields, if it has one.
#[derive(Clone, Copy)]
pub struct PromisedWait {
    pub told: PageWait,
    pub promise: Option<u32>,
}

// Whether a wait breaks a promise.
fn is_later(wait: Wait, promise: u32) -> bool
    ensures { result ≡ rule.is_later wait promise }
{
    match wait {
        Wait::Fields { fields, item: _ } => fields > promise,
        Wait::Faulty { reason: _ } => true,
        Wait::Unsure { item: _, losses: _ } => true,
    }
}

impl PromisedWait {
    /// Whether the page comes too late: it has a promise, and a viewer waits longer, or no deadline is enough.
    pub fn is_late(&self) -> bool
        ensures { result ≡ rule.is_late self.now }
    {
        match self.promise {
            Some(promise) => is_later(self.told.wait, promise),
            None => false,
        }
    }
}

// The fields of the first promise of the page at an index.
fn promise_of(promises: &[Promise], page: usize) -> Option<u32>
    ensures { result ≡ rule.promise_of (map promise_view promises.now) page }
{
    for promise in promises {
        if promise.page == page {
            return Some(promise.fields);
        }
    }
    None
}

/// The waits of pages, each beside the promise of its page.
pub fn with_promises(
    alloc: Global,
    told: &[PageWait],
    promises: &[Promise],
) -> Result<Vec<PromisedWait>, AllocError>
    ensures { IfOk result (λ all. all.items ≡ rule.with_promises 0 (map promise_view promises.now) told.now) }
{
    let mut all = Vec::with_capacity(alloc, told.len())?;
    for index in 0..told.len() {
        let promise = promise_of(promises, index);
        all.push(PromisedWait {
            told: told[index],
            promise,
        })?;
    }
    Ok(all)
}

/// Whether some page comes too late.
pub fn some_late(all: &[PromisedWait]) -> bool
    ensures { result ≡ list_any rule.is_late all.now }
{
    all.iter().any(|one| one.is_late())
}

/// The wait of each page of a service (see `ttx_witness::wait_times`) with its promise, in authored order. `repeat` is 1 to 8. `Err` if memory
/// runs out.
pub fn promised_waits(
    alloc: Global,
    cycle: &Cycle,
    service: &Service,
    class: Class,
    repeat: u8,
    promises: &[Promise],
) -> Result<Vec<PromisedWait>, NoMemory>
    requires some_repeats { 1 ≤ repeat }
    requires few_repeats { repeat ≤ 8 }
    ensures { IfOk result (λ all. rule.ArePromisedWaits (slots_of cycle.now) (pages_of service.now) class repeat service.now.lines
        (map promise_view promises.now) all.items) }
{
    let told = waits(
        alloc,
        cycle,
        service.pages(),
        class,
        repeat,
        service.lines(),
    )?;
    match with_promises(alloc, &told, promises) {
        Ok(all) => Ok(all),
        Err(_) => Err(NoMemory),
    }
}
