//! Finds the first common page with an item that is not bridged.

ghost use Rattle.std.specs.Prelude.{◌≡◌, ◌<◌, IfOk, Some, map, slice_get, length};
ghost use Rattle.ttx_page.specs.Pages as definitions;
ghost use Rattle.ttx_page.specs.Views.{page_of, ids_of};
ghost use Rattle.ttx_witness.specs.sent.Collected.{IsIndex};
ghost use Rattle.ttx_proof.specs.Splicing.{splice_between, AreKnown, AreSentOn, StandsIn, TellsBridged, TellsLate, TellsLateOf, TellsLates};

use crate::bridges::is_bridged;
use crate::common::equal_place;
use crate::joined_items::ItemSent;
use crate::sides::Sides;
use crate::starts::NamedStarts;
use crate::verdict::SpliceReason;
use std::alloc::Global;
use ttx_page::{Item, Page, needed};
use ttx_witness::{
    Collected, NoMemory, PageIndex, Transmission, collect, collect_after, item_of, limit,
    run_length,
};

/// The transmissions of all items of all pages: in the old cycle, in the first new period, and in the new cycle.
#[derive(Drop)]
pub struct Sent {
    olds: Collected,
    middle: Collected,
    news: Collected,
}

/// A common page, with its places in the old and the new list.
#[derive(Clone, Copy)]
pub struct CommonPage<'a> {
    page: &'a Page,
    old_place: usize,
    new_place: usize,
}

/// What is kept from one item to the next: room for the transmissions near the splice, and the places from which on the certificates
/// are searched.
#[derive(Drop)]
pub struct Kept {
    room: Vec<Transmission>,
    old_near: usize,
    new_near: usize,
}

// The transmissions of all items of all pages.
fn collect_all(alloc: Global, sides: &Sides) -> Result<Sent, NoMemory>
    ensures { IfOk result (λ sent. AreSentOn (splice_between sides.now) sent) }
{
    let (old, new) = (&sides.old, &sides.new);
    let lines = new.certificate.lines();
    let olds = collect(alloc, old.cycle, old.pages, lines)?;
    let middle = collect_after(alloc, old.cycle, new.cycle, new.pages, lines)?;
    let news = collect(alloc, new.cycle, new.pages, lines)?;
    Ok(Sent { olds, middle, news })
}

// Whether a viewer sees the item of a common page, and it is not bridged.
fn is_late(
    kept: &mut Kept,
    sides: &Sides,
    sent: &Sent,
    common: &CommonPage,
    item: Item,
) -> Result<bool, NoMemory>
    ensures { IfOk result (λ late. AreKnown (splice_between sides.now) → AreSentOn (splice_between sides.now) sent.now →
        StandsIn (splice_between sides.now) common.now → TellsBridged (splice_between sides.now) (page_of common.now.page.now) item late) }
{
    ttx_witness::certificate_laws::certificates_keep_their_rules();
    ttx_witness::judging_laws::transmissions_are_listed();
    ttx_witness::judging_laws::first_period_is_listed();
    if !needed(common.page, item) {
        return Ok(false);
    }
    let (old, new) = (&sides.old, &sides.new);
    let sent = ItemSent {
        olds: sent.olds.sent(common.old_place, item),
        middle: sent.middle.sent(common.new_place, item),
        news: sent.news.sent(common.new_place, item),
    };
    let id = common.page.id();
    let (old_near, olds) = old.certificate.starts_near(id, item, kept.old_near);
    let (new_near, news) = new.certificate.starts_near(id, item, kept.new_near);
    kept.old_near = old_near;
    kept.new_near = new_near;
    let starts = NamedStarts {
        olds,
        news,
        old_period: old.cycle.slots().len() as u32,
        new_period: new.cycle.slots().len() as u32,
    };
    let repeat = run_length(new.certificate.repeat(), &item);
    let slots = limit(new.certificate);
    let bridged = is_bridged(&mut kept.room, &sent, &starts, repeat, slots)?;
    Ok(!bridged)
}

// The first item of a common page that is not bridged.
fn late_item(
    kept: &mut Kept,
    sides: &Sides,
    sent: &Sent,
    common: &CommonPage,
) -> Result<Option<Item>, NoMemory>
    ensures { IfOk result (λ late. AreKnown (splice_between sides.now) → AreSentOn (splice_between sides.now) sent.now →
        StandsIn (splice_between sides.now) common.now → TellsLate (splice_between sides.now) (page_of common.now.page.now) late) }
{
    for number in 0..26u8 {
        if is_late(kept, sides, sent, common, item_of(number))? {
            return Ok(Some(item_of(number)));
        }
    }
    Ok(None)
}

// The same for the page at this place of the new list, if it is common. The index is that of the old pages.
fn late_of(
    kept: &mut Kept,
    sides: &Sides,
    sent: &Sent,
    index: &PageIndex,
    new_place: usize,
) -> Result<Option<Item>, NoMemory>
    requires index { IsIndex (ids_of sides.now.old.pages.now) index.now }
    requires place { new_place < length sides.now.new.pages.now }
    ensures { IfOk result (λ late. AreKnown (splice_between sides.now) → AreSentOn (splice_between sides.now) sent.now →
        (p : definitions.Page) → slice_get (map page_of sides.now.new.pages.now) new_place ≡ Some p → TellsLateOf (splice_between sides.now) p late) }
{
    let page = &sides.new.pages[new_place];
    match equal_place(sides.old.pages, index, page) {
        Some(old_place) => {
            let common = CommonPage {
                page,
                old_place,
                new_place,
            };
            late_item(kept, sides, sent, &common)
        }
        None => Ok(None),
    }
}

// The late item of the first common page that has one.
fn late_among(
    alloc: Global,
    sides: &Sides,
    sent: &Sent,
    index: &PageIndex,
) -> Result<Option<SpliceReason>, NoMemory>
    requires { IsIndex (ids_of sides.now.old.pages.now) index.now }
    ensures { IfOk result (λ late. AreKnown (splice_between sides.now) → AreSentOn (splice_between sides.now) sent.now →
        TellsLates (splice_between sides.now) late) }
{
    let mut kept = Kept {
        room: Vec::new(alloc),
        old_near: 0,
        new_near: 0,
    };
    for new_place in 0..sides.new.pages.len() {
        if let Some(item) = late_of(&mut kept, sides, sent, index, new_place)? {
            let page = sides.new.pages[new_place].id();
            return Ok(Some(SpliceReason::SeamLate { page, item }));
        }
    }
    Ok(None)
}

/// For the first common page with an item that a viewer sees and that is not bridged, the first such item. The index is that of the old
/// pages.
pub fn find_late(
    alloc: Global,
    sides: &Sides,
    index: &PageIndex,
) -> Result<Option<SpliceReason>, NoMemory>
    requires { IsIndex (ids_of sides.now.old.pages.now) index.now }
    ensures { IfOk result (λ late. AreKnown (splice_between sides.now) → TellsLates (splice_between sides.now) late) }
{
    let sent = collect_all(alloc, sides)?;
    late_among(alloc, sides, &sent, index)
}
