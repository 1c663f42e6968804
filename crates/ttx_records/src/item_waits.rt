//! How long viewers wait for the items of pages.

ghost use Rattle.std.specs.Prelude.{◌≡◌, ◌++◌, IfOk, OnOk, map, string_bytes};
ghost use Rattle.ttx_records.specs.ItemWaits as rule;
ghost use Rattle.ttx_records.specs.Names.{line};
ghost use Rattle.ttx_records.specs.Waits.{fields_members};

use crate::names::{id_text, item_name};
use crate::waits::{push_all, push_page, seconds_of};
use std::alloc::{AllocError, Global};
use ttx_header::PageId;
use ttx_json::{count, flag, push_object, word};
use ttx_promise::PromisedWait;
use ttx_wait::{greatest, items_of};
use ttx_witness::{ItemWait, Losses, OwnWait, PageWait, Wait};

// Adds an item for which a viewer waits so many fields.
#[tactic(auto, unfolding(crate::specs::Names::line))]
fn push_least(
    alloc: Global,
    text: &mut String,
    page: &str,
    item: &'static str,
    fields: u32,
) -> Result<(), AllocError>
    ensures { OnOk result (string_bytes text.new ≡ string_bytes text.old ++ line (rule.item_members page.now item.now (fields_members fields))) }
{
    let seconds = seconds_of(alloc, fields)?;
    let members = [
        word("page", page),
        word("item", item),
        count("fields", u64::from(fields)),
        word("seconds", seconds.as_str()),
    ];
    push_object(alloc, text, &members)
}

// Adds an item that has no sure run.
#[tactic(auto, unfolding(crate::specs::Names::line))]
fn push_unsure(
    alloc: Global,
    text: &mut String,
    page: &str,
    item: &'static str,
    losses: Losses,
) -> Result<(), AllocError>
    ensures { OnOk result (string_bytes text.new ≡ string_bytes text.old
        ++ line (rule.item_members page.now item.now (rule.unsure_members losses))) }
{
    let members = [
        word("page", page),
        word("item", item),
        flag("never", true),
        count("sent", losses.sent as u64),
        count("near", losses.near as u64),
        count("cut", losses.cut as u64),
    ];
    push_object(alloc, text, &members)
}

// Adds either.
fn push_own(
    alloc: Global,
    text: &mut String,
    page: &str,
    item: &'static str,
    wait: OwnWait,
) -> Result<(), AllocError>
    ensures { OnOk result (string_bytes text.new ≡ string_bytes text.old
        ++ line (rule.item_members page.now item.now (rule.own_members wait))) }
{
    match wait {
        OwnWait::Least { fields } => push_least(alloc, text, page, item, fields),
        OwnWait::Never { losses } => push_unsure(alloc, text, page, item, losses),
    }
}

// Adds an item of a page.
fn push_item(
    alloc: Global,
    text: &mut String,
    page: PageId,
    told: ItemWait,
) -> Result<(), AllocError>
    ensures { OnOk result (string_bytes text.new ≡ string_bytes text.old ++ rule.item_record page told) }
{
    let page = id_text(alloc, page)?;
    push_own(alloc, text, page.as_str(), item_name(told.item), told.wait)
}

// Adds the items of a page.
fn push_items(
    alloc: Global,
    text: &mut String,
    page: PageId,
    items: &[ItemWait],
) -> Result<(), AllocError>
    ensures { OnOk result (string_bytes text.new ≡ string_bytes text.old ++ rule.item_records page items.now) }
{
    for one in items {
        push_item(alloc, text, page, *one)?;
    }
    Ok(())
}

// Adds the items of a page, if the page is sent unchanged.
fn push_under(
    alloc: Global,
    text: &mut String,
    told: PageWait,
    items: &[ItemWait],
) -> Result<(), AllocError>
    ensures { OnOk result (string_bytes text.new ≡ string_bytes text.old ++ rule.records_under told.wait told.page items.now) }
{
    match told.wait {
        Wait::Faulty { reason: _ } => Ok(()),
        Wait::Fields { fields: _, item: _ } => push_items(alloc, text, told.page, items),
        Wait::Unsure { item: _, losses: _ } => push_items(alloc, text, told.page, items),
    }
}

// Adds a page without its promise.
fn push_told(alloc: Global, text: &mut String, told: PageWait) -> Result<(), AllocError>
    ensures { OnOk result (string_bytes text.new ≡ string_bytes text.old ++ rule.wait_record told) }
{
    let promise = None;
    push_page(alloc, text, PromisedWait { told, promise })
}

// Adds each page with its items.
fn push_both(
    alloc: Global,
    text: &mut String,
    told: &[PageWait],
    all: &[Vec<ItemWait>],
) -> Result<(), AllocError>
    ensures { OnOk result (string_bytes text.new ≡ string_bytes text.old ++ rule.both_records told.now (map (λ told. told.items) all.now)) }
{
    for index in 0..told.len() {
        push_told(alloc, text, told[index])?;
        push_under(alloc, text, told[index], items_of(all, index))?;
    }
    Ok(())
}

/// The objects of pages with those of their items, and that of all pages together. `bad` is the first bad slot, if there is one.
pub fn item_wait_records(
    alloc: Global,
    bad: Option<u32>,
    told: &[PageWait],
    all: &[Vec<ItemWait>],
) -> Result<String, AllocError>
    ensures { IfOk result (λ text. string_bytes text ≡ rule.item_wait_records bad told.now (map (λ told. told.items) all.now)) }
{
    let mut text = String::new(alloc);
    push_both(alloc, &mut text, told, all)?;
    push_all(alloc, &mut text, bad, greatest(told))?;
    Ok(text)
}
