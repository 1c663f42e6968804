//! Which pages come too late for their promises.

ghost use Rattle.std.specs.Prelude.{◌≡◌, ◌++◌, IfOk, OnOk, MatchOption, map, slice_get, slice_index_or};
ghost use Rattle.ttx_promise.specs.Lateness as rule;
ghost use Rattle.ttx_promise.specs.Views.{late_view, late_list};
ghost use Rattle.ttx_source.specs.PromiseViews.{promise_view};
ghost use Rattle.ttx_source.specs.Services.{pages_of};

use crate::faults::LatePage;
use std::alloc::{AllocError, Global};
use ttx_source::{Promise, Service};

// How often the page at an index is sent; 8 times if there is none.
fn often_at(service: &Service, index: usize) -> u8
    ensures { result ≡ rule.often_at service.now.pages index }
{
    if index < service.pages().len() {
        service.often(index)
    } else {
        8
    }
}

// The deadline of the page at an index; 0 if there is none.
fn deadline_at(deadlines: &[u32], index: usize) -> u32
    ensures { result ≡ slice_index_or deadlines.now index 0 }
{
    match deadlines.get(index) {
        Some(fields) => *fields,
        None => 0,
    }
}

// By how many fields the page of a promise comes too late, if it may be sent more often; otherwise 0.
fn weight(service: &Service, deadlines: &[u32], promise: Promise) -> u32
    ensures { result ≡ rule.weight service.now.pages deadlines.now (promise_view promise) }
{
    if promise.fixed || often_at(service, promise.page) >= 8 {
        return 0;
    }
    deadline_at(deadlines, promise.page).saturating_sub(promise.fields)
}

// The same for the promise with this number; 0 if there is none.
fn weight_at(service: &Service, deadlines: &[u32], promises: &[Promise], number: usize) -> u32
    ensures { result ≡ rule.weight_at service.now.pages deadlines.now (map promise_view promises.now) number }
{
    match promises.get(number) {
        Some(promise) => weight(service, deadlines, *promise),
        None => 0,
    }
}

/// The index of the page to which the promise with this number belongs; 0 if there is no such promise.
pub fn page_at(promises: &[Promise], number: usize) -> usize
    ensures { result ≡ rule.page_at (map promise_view promises.now) number }
{
    match promises.get(number) {
        Some(promise) => promise.page,
        None => 0,
    }
}

/// Of the promises whose page comes too late and may be sent more often, the number of the one whose page is late by the most fields, the
/// first of equals; `None` if there is none.
pub fn latest(service: &Service, deadlines: &[u32], promises: &[Promise]) -> Option<usize>
    ensures { MatchOption result
        (rule.NoneMayRise service.now.pages deadlines.now (map promise_view promises.now))
        (rule.IsLatest service.now.pages deadlines.now (map promise_view promises.now)) }
{
    let mut latest = None;
    let mut most = 0;
    for number in 0..promises.len() {
        let weight = weight_at(service, deadlines, promises, number);
        if weight > most {
            latest = Some(number);
            most = weight;
        }
    }
    latest
}

// The page of a promise, if it comes too late.
fn late_page(service: &Service, deadlines: &[u32], promise: Promise) -> Option<LatePage>
    ensures { late_list result ≡ rule.late_page (slice_get (pages_of service.now) promise.page) deadlines.now (promise_view promise) }
{
    let page = service.pages().get(promise.page)?;
    let fields = deadline_at(deadlines, promise.page);
    if fields > promise.fields {
        Some(LatePage {
            page: page.id(),
            fields,
            promise: promise.fields,
        })
    } else {
        None
    }
}

// Appends a page, if there is one.
fn push_late(late: &mut Vec<LatePage>, page: Option<LatePage>) -> Result<(), AllocError>
    ensures { OnOk result (map late_view late.new.items ≡ map late_view late.old.items ++ late_list page) }
{
    match page {
        Some(page) => {
            late.push(page)?;
            Ok(())
        }
        None => Ok(()),
    }
}

/// The pages that come too late, in the order of the promises.
pub fn late_pages(
    alloc: Global,
    service: &Service,
    deadlines: &[u32],
    promises: &[Promise],
) -> Result<Vec<LatePage>, AllocError>
    ensures { IfOk result (λ late. map late_view late.items ≡ rule.late_of (pages_of service.now) deadlines.now (map promise_view promises.now)) }
{
    let mut late = Vec::new(alloc);
    for promise in promises {
        push_late(&mut late, late_page(service, deadlines, *promise))?;
    }
    Ok(late)
}
