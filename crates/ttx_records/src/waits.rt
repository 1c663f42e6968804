//! How long viewers wait.

ghost use Rattle.std.specs.Prelude.{◌≡◌, ◌++◌, ◌*◌, IfOk, OnOk, map, string_bytes};
ghost use Rattle.ttx_json.specs.Members.{member_of};
ghost use Rattle.ttx_records.specs.Names.{line};
ghost use Rattle.ttx_records.specs.Waits as rule;
ghost use Rattle.ttx_wait.specs.WaitLines.{seconds_text};

use crate::members::{at, joined, push_joined};
use crate::names::{id_text, item_name};
use std::alloc::{AllocError, Global};
use ttx_header::PageId;
use ttx_json::{Member, count, flag, push_object, word};
use ttx_page::Item;
use ttx_promise::PromisedWait;
use ttx_wait::push_seconds;
use ttx_witness::{Losses, PageWait, Reason, Wait};

// The fields that are promised of a page, and whether it comes too late.
#[derive(Clone, Copy)]
pub struct Beside {
    pub promise: u32,
    pub late: bool,
}

// Adds an object with these members, and those of a promise.
#[tactic(auto, unfolding(crate::specs::Names::line))]
fn push_beside(
    alloc: Global,
    text: &mut String,
    first: &[Member],
    beside: Option<Beside>,
) -> Result<(), AllocError>
    ensures { OnOk result (string_bytes text.new ≡ string_bytes text.old
        ++ line (map member_of first.now ++ rule.beside_members beside)) }
{
    match beside {
        None => push_object(alloc, text, first),
        Some(beside) => {
            let (of, late) = (u64::from(beside.promise), flag("late", beside.late));
            push_joined(alloc, text, first, &[count("of", of), late])
        }
    }
}

/// A number of fields in seconds.
pub fn seconds_of(alloc: Global, fields: u32) -> Result<String, AllocError>
    ensures { IfOk result (λ text. string_bytes text ≡ seconds_text (2 * fields)) }
{
    let mut text = String::new(alloc);
    push_seconds(&mut text, 2 * u64::from(fields))?;
    Ok(text)
}

// Adds a page whose viewers wait so many fields, for an item; beside a promise the item is not named.
fn push_fields(
    alloc: Global,
    text: &mut String,
    page: &str,
    wait: (u32, Item),
    beside: Option<Beside>,
) -> Result<(), AllocError>
    ensures { OnOk result (string_bytes text.new ≡ string_bytes text.old
        ++ line (rule.of_page page.now (rule.fields_beside wait.0 wait.1 beside))) }
{
    let seconds = seconds_of(alloc, wait.0)?;
    let first = [
        word("page", page),
        count("fields", u64::from(wait.0)),
        word("seconds", seconds.as_str()),
    ];
    match beside {
        None => push_joined(alloc, text, &first, &[word("needed_by", item_name(wait.1))]),
        Some(beside) => push_beside(alloc, text, &first, Some(beside)),
    }
}

// Adds a page that is never seen, with further members.
fn push_never(
    alloc: Global,
    text: &mut String,
    page: &str,
    further: &[Member<'static>],
    beside: Option<Beside>,
) -> Result<(), AllocError>
    ensures { OnOk result (string_bytes text.new ≡ string_bytes text.old
        ++ line (rule.of_page page.now (rule.never (map member_of further.now) ++ rule.beside_members beside))) }
{
    let first = joined(alloc, &[word("page", page), flag("never", true)], further)?;
    push_beside(alloc, text, first.as_slice(), beside)
}

// Adds a page of which an item has no sure run.
fn push_unsure(
    alloc: Global,
    text: &mut String,
    page: &str,
    wait: (Item, Losses),
    beside: Option<Beside>,
) -> Result<(), AllocError>
    ensures { OnOk result (string_bytes text.new ≡ string_bytes text.old
        ++ line (rule.of_page page.now (rule.wait_unsure wait.0 wait.1 ++ rule.beside_members beside))) }
{
    let further = [
        word("needed_by", item_name(wait.0)),
        count("sent", wait.1.sent as u64),
        count("near", wait.1.near as u64),
        count("cut", wait.1.cut as u64),
    ];
    push_never(alloc, text, page, &further, beside)
}

// Adds a page that is not sent unchanged, as a slot shows.
fn push_faulty_at(
    alloc: Global,
    text: &mut String,
    page: &str,
    fault: (&'static str, u32),
    beside: Option<Beside>,
) -> Result<(), AllocError>
    ensures { OnOk result (string_bytes text.new ≡ string_bytes text.old
        ++ line (rule.of_page page.now (rule.at fault.entry.0.now fault.entry.1 ++ rule.beside_members beside))) }
{
    let further = [word("name", fault.0), at(fault.1)];
    push_never(alloc, text, page, &further, beside)
}

// Adds a page that is not sent unchanged.
fn push_faulty(
    alloc: Global,
    text: &mut String,
    page: &str,
    reason: Reason,
    beside: Option<Beside>,
) -> Result<(), AllocError>
    ensures { OnOk result (string_bytes text.new ≡ string_bytes text.old
        ++ line (rule.of_page page.now (rule.fault_members reason ++ rule.beside_members beside))) }
{
    match reason {
        Reason::NoHeader { page: _ } => {
            push_never(alloc, text, page, &[word("name", "no-header")], beside)
        }
        Reason::OtherSubpage { page: _, slot } => {
            push_faulty_at(alloc, text, page, ("other-subpage", slot), beside)
        }
        Reason::Erased { page: _, slot } => {
            push_faulty_at(alloc, text, page, ("erased", slot), beside)
        }
        Reason::HeadDiffers { page: _, slot } => {
            push_faulty_at(alloc, text, page, ("head-differs", slot), beside)
        }
        Reason::RowDiffers { page: _, slot } => {
            push_faulty_at(alloc, text, page, ("row-differs", slot), beside)
        }
        Reason::LinksDiffer { page: _, slot } => {
            push_faulty_at(alloc, text, page, ("links-differ", slot), beside)
        }
        _ => push_never(alloc, text, page, &[], beside),
    }
}

// Adds a page, with further members.
fn push_wait(
    alloc: Global,
    text: &mut String,
    page: &str,
    wait: Wait,
    beside: Option<Beside>,
) -> Result<(), AllocError>
    ensures { OnOk result (string_bytes text.new ≡ string_bytes text.old
        ++ line (rule.of_page page.now (rule.wait_members wait beside))) }
{
    match wait {
        Wait::Fields { fields, item } => push_fields(alloc, text, page, (fields, item), beside),
        Wait::Faulty { reason } => push_faulty(alloc, text, page, reason, beside),
        Wait::Unsure { item, losses } => push_unsure(alloc, text, page, (item, losses), beside),
    }
}

// The promise of a page.
fn promise_beside(one: &PromisedWait) -> Option<Beside>
    ensures { result ≡ rule.beside_page one.now }
{
    let late = one.is_late();
    match one.promise {
        Some(promise) => Some(Beside { promise, late }),
        None => None,
    }
}

/// Adds a page.
pub fn push_page(alloc: Global, text: &mut String, one: PromisedWait) -> Result<(), AllocError>
    ensures { OnOk result (string_bytes text.new ≡ string_bytes text.old ++ rule.page_record one) }
{
    let beside = promise_beside(&one);
    let PageWait { page, wait } = one.told;
    let page = id_text(alloc, page)?;
    push_wait(alloc, text, page.as_str(), wait, beside)
}

// Adds the pages.
fn push_pages(alloc: Global, text: &mut String, all: &[PromisedWait]) -> Result<(), AllocError>
    ensures { OnOk result (string_bytes text.new ≡ string_bytes text.old ++ rule.page_records all.now) }
{
    for one in all {
        push_page(alloc, text, *one)?;
    }
    Ok(())
}

// Adds the deadline of all pages.
#[tactic(auto, unfolding(crate::specs::Names::line))]
fn push_deadline(alloc: Global, text: &mut String, fields: u32) -> Result<(), AllocError>
    ensures { OnOk result (string_bytes text.new ≡ string_bytes text.old ++ line (rule.all_fields fields)) }
{
    let seconds = seconds_of(alloc, fields)?;
    let members = [
        word("page", "all"),
        count("fields", u64::from(fields)),
        word("seconds", seconds.as_str()),
    ];
    push_object(alloc, text, &members)
}

/// Adds the object of all pages together.
pub fn push_all(
    alloc: Global,
    text: &mut String,
    bad: Option<u32>,
    deadline: Option<u32>,
) -> Result<(), AllocError>
    ensures { OnOk result (string_bytes text.new ≡ string_bytes text.old ++ line (rule.all_members bad deadline)) }
{
    match (bad, deadline) {
        (Some(slot), _) => push_faulty_at(alloc, text, "all", ("bad-slot", slot), None),
        (None, Some(fields)) => push_deadline(alloc, text, fields),
        (None, None) => push_never(alloc, text, "all", &[], None),
    }
}

// Adds a page that the service lacks.
#[tactic(auto, unfolding(crate::specs::Names::line, crate::specs::Waits::absent_record))]
fn push_absent(alloc: Global, text: &mut String, page: PageId) -> Result<(), AllocError>
    ensures { OnOk result (string_bytes text.new ≡ string_bytes text.old ++ rule.absent_record page) }
{
    let page = id_text(alloc, page)?;
    push_object(
        alloc,
        text,
        &[word("page", page.as_str()), flag("absent", true)],
    )
}

// Adds the pages that the service lacks.
fn push_absents(alloc: Global, text: &mut String, pages: &[PageId]) -> Result<(), AllocError>
    ensures { OnOk result (string_bytes text.new ≡ string_bytes text.old ++ rule.absent_records pages.now) }
{
    for page in pages {
        push_absent(alloc, text, *page)?;
    }
    Ok(())
}

/// The objects of the waits of pages beside their promises, of all pages together, and of the pages that the service lacks. `bad` is the
/// first bad slot, if there is one; `deadline` is enough for all pages, if there is one.
pub fn wait_records(
    alloc: Global,
    all: &[PromisedWait],
    bad: Option<u32>,
    deadline: Option<u32>,
    absent: &[PageId],
) -> Result<String, AllocError>
    ensures { IfOk result (λ text. string_bytes text ≡ rule.wait_records all.now bad deadline absent.now) }
{
    let mut text = String::new(alloc);
    push_pages(alloc, &mut text, all)?;
    push_all(alloc, &mut text, bad, deadline)?;
    push_absents(alloc, &mut text, absent)?;
    Ok(text)
}
