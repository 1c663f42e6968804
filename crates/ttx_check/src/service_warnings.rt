//! The warnings about a service.

ghost use Rattle.std.specs.Prelude.{◌≡◌, ◌++◌, ℕ, IfOk, OnOk};
ghost use Rattle.ttx_tallies.specs.Tallies.{times_among, times_in};
ghost use Rattle.ttx_check.specs.Queues.{behind_subpages, behind_copies};
ghost use Rattle.ttx_check.specs.Warnings as rule;

use crate::entries::{Entry, entries};
use crate::links::is_dead;
use crate::page_warnings::{Order, push_pages};
use crate::queues::{behind_copies, behind_subpages};
use crate::rows::push_if;
use crate::traffic::push_most;
use crate::warning::Warning;
use std::alloc::{AllocError, Global};
use ttx_source::Service;
use ttx_tallies::tally;

// Adds the warning about the initial page of packet 8/30.
fn push_initial(
    found: &mut Vec<Warning>,
    entries: &[Entry],
    service: &Service,
) -> Result<(), AllocError>
    ensures { OnOk result (found.new.items ≡ found.old.items ++ rule.initial_warnings entries.now service.now.info) }
{
    let dead = match service.info() {
        Some(info) => is_dead(entries, info.initial()),
        None => false,
    };
    push_if(found, dead, Warning::DeadInitial)
}

// How often each page is sent directly behind another subpage, and directly behind itself.
fn order_of(alloc: Global, serial: bool, entries: &[Entry]) -> Result<Order, AllocError>
    ensures subpages { IfOk result (λ order. (q : ℕ) → times_in order.subpages q ≡ times_among (behind_subpages entries.now) q) }
    ensures copies { IfOk result (λ order. (q : ℕ) → times_in order.copies q ≡ times_among (behind_copies serial entries.now) q) }
{
    let subpages = behind_subpages(alloc, entries)?;
    let copies = behind_copies(alloc, serial, entries)?;
    Ok(Order {
        subpages: tally(alloc, &subpages)?,
        copies: tally(alloc, &copies)?,
    })
}

// Adds the warnings about a service with these entries and this order.
fn push_all(
    found: &mut Vec<Warning>,
    service: &Service,
    entries: &[Entry],
    order: &Order,
) -> Result<(), AllocError>
    ensures { OnOk result (found.new.items
        ≡ found.old.items ++ rule.warnings_by service.now entries.now (times_in order.now.subpages) (times_in order.now.copies)) }
{
    push_initial(found, entries, service)?;
    push_pages(found, entries, order, service.pages())?;
    push_most(found, service.serial(), entries)
}

// The warnings about a service with these entries.
fn warnings_of(
    alloc: Global,
    service: &Service,
    entries: &[Entry],
) -> Result<Vec<Warning>, AllocError>
    ensures { IfOk result (λ found. found.items ≡ rule.warnings_of service.now entries.now) }
{
    let order = order_of(alloc, service.serial(), entries)?;
    let mut found = Vec::new(alloc);
    push_all(&mut found, service, entries, &order)?;
    Ok(found)
}

/// What in a service is probably a mistake: first the initial page of packet 8/30, then for each page its links, its rows, its boxes
/// and the pages that it is sent behind, then the magazines. `Err` if memory runs out.
pub fn warnings(alloc: Global, service: &Service) -> Result<Vec<Warning>, AllocError>
    ensures { IfOk result (λ found. found.items ≡ rule.warnings service.now) }
{
    let entries = entries(alloc, service)?;
    warnings_of(alloc, service, &entries)
}
