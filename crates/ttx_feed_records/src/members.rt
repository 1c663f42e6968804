//! The objects that verdicts by bytes and by rows have alike.

ghost use Rattle.std.specs.Prelude.{◌≡◌, ◌++◌, IfOk, OnOk, map, string_bytes};
ghost use Rattle.ttx_json.specs.Members.{member_of};
ghost use Rattle.ttx_page.specs.Views.{page_of};
ghost use Rattle.ttx_monitor.specs.FeedLines.{page_text};
ghost use Rattle.ttx_feed_records.specs.FeedRecords as rule;

use std::alloc::{AllocError, Global};
use ttx_json::{Member, count, flag, push_object, word};
use ttx_monitor::feed_lines::push_page;
use ttx_page::Page;
use ttx_recognition::{Form, Unlike};

// Adds the form of packets that are not slots.
#[tactic(auto, unfolding(crate::specs::FeedRecords::line))]
fn push_form(alloc: Global, text: &mut String, form: Form) -> Result<(), AllocError>
    ensures { OnOk result (string_bytes text.new ≡ string_bytes text.old ++ rule.line (rule.form_members form)) }
{
    let members = [
        word("answer", "no"),
        word("how", "packets"),
        count("bytes", form.size as u64),
        count("skip", form.off as u64),
        flag("reversed", form.reversed),
        count("drop", form.size.saturating_sub(42) as u64),
    ];
    push_object(alloc, text, &members)
}

// Adds that there is no teletext.
#[tactic(auto, unfolding(crate::specs::FeedRecords::line))]
fn push_no_teletext(alloc: Global, text: &mut String) -> Result<(), AllocError>
    ensures { OnOk result (string_bytes text.new ≡ string_bytes text.old ++ rule.line rule.no_teletext) }
{
    let members = [word("answer", "no"), word("how", "no teletext")];
    push_object(alloc, text, &members)
}

/// Adds what a feed is that is no sequence of slots.
pub fn push_unlike(alloc: Global, text: &mut String, unlike: Unlike) -> Result<(), AllocError>
    ensures { OnOk result (string_bytes text.new ≡ string_bytes text.old ++ rule.line (rule.unlike_members unlike)) }
{
    match unlike {
        Unlike::Form(form) => push_form(alloc, text, form),
        Unlike::NoTeletext => push_no_teletext(alloc, text),
    }
}

// Some members, and others behind them.
fn joined<'a>(
    alloc: Global,
    first: &[Member<'a>],
    last: &[Member<'a>],
) -> Result<Vec<Member<'a>>, AllocError>
    ensures { IfOk result (λ members. map member_of members.items ≡ map member_of first.now ++ map member_of last.now) }
{
    let mut members = Vec::new(alloc);
    members.extend_from_slice(first)?;
    members.extend_from_slice(last)?;
    Ok(members)
}

/// Adds an object with these members and the bytes behind the last slot, if there are any.
#[tactic(auto, unfolding(crate::specs::FeedRecords::line))]
pub fn push_with_rest(
    alloc: Global,
    text: &mut String,
    first: &[Member],
    rest: usize,
) -> Result<(), AllocError>
    ensures { OnOk result (string_bytes text.new ≡ string_bytes text.old
        ++ rule.line (map member_of first.now ++ rule.rest_members rest)) }
{
    match rest {
        0 => push_object(alloc, text, first),
        _ => {
            let members = joined(alloc, first, &[count("rest", rest as u64)])?;
            push_object(alloc, text, members.as_slice())
        }
    }
}

/// A feed that is within the rule: the slot of the cycle with which it begins, its slots, and the bytes behind the last one.
#[derive(Clone, Copy)]
pub struct Whole {
    pub start: u32,
    pub slots: u64,
    pub rest: usize,
}

/// Adds a yes with these counts.
pub fn push_yes(
    alloc: Global,
    text: &mut String,
    whole: Whole,
    counts: &[Member],
) -> Result<(), AllocError>
    ensures { OnOk result (string_bytes text.new ≡ string_bytes text.old
        ++ rule.line (rule.yes_members whole.start whole.slots (map member_of counts.now) ++ rule.rest_members whole.rest)) }
{
    let first = [
        word("answer", "yes"),
        count("start", u64::from(whole.start)),
        count("slots", whole.slots),
    ];
    let members = joined(alloc, &first, counts)?;
    push_with_rest(alloc, text, members.as_slice(), whole.rest)
}

/// A slot of a feed, and the slot of the cycle with which the feed begins, if that is told.
#[derive(Clone, Copy)]
pub struct At(pub u64, pub Option<u32>);

// Adds an object with these members and the slot of the cycle with which the feed begins, if it is told.
#[tactic(auto, unfolding(crate::specs::FeedRecords::line))]
fn push_with_start(
    alloc: Global,
    text: &mut String,
    first: &[Member],
    start: Option<u32>,
) -> Result<(), AllocError>
    ensures { OnOk result (string_bytes text.new ≡ string_bytes text.old
        ++ rule.line (rule.with_start (map member_of first.now) start)) }
{
    match start {
        None => push_object(alloc, text, first),
        Some(start) => {
            let members = joined(alloc, first, &[count("start", u64::from(start))])?;
            push_object(alloc, text, members.as_slice())
        }
    }
}

/// Adds a slot that breaks the rule, how, and further members.
pub fn push_at_slot(
    alloc: Global,
    text: &mut String,
    at: At,
    how: &'static str,
    further: &[Member],
) -> Result<(), AllocError>
    ensures { OnOk result (string_bytes text.new ≡ string_bytes text.old
        ++ rule.line (rule.with_start (rule.at_slot at.0 how.now (map member_of further.now)) at.1)) }
{
    let first = [word("answer", "no"), count("slot", at.0), word("how", how)];
    let members = joined(alloc, &first, further)?;
    push_with_start(alloc, text, members.as_slice(), at.1)
}

/// The id of a page of the list.
pub fn page_text(alloc: Global, pages: &[Page], index: u32) -> Result<String, AllocError>
    ensures { IfOk result (λ text. string_bytes text ≡ page_text (map page_of pages.now) index) }
{
    let mut text = String::new(alloc);
    push_page(&mut text, pages, index)?;
    Ok(text)
}

/// The name of a row, 0 for the header.
#[tactic(auto, unfolding(crate::specs::FeedRecords::item_name))]
pub fn item_name(alloc: Global, row: u8) -> Result<String, AllocError>
    ensures { IfOk result (λ text. string_bytes text ≡ rule.item_name row) }
{
    let mut text = String::new(alloc);
    match row {
        0 => text.push_str("head")?,
        _ => write!(text, "row {row}")?,
    }
    Ok(text)
}

// How many slots of a cycle of so many a feed has lost, or which were inserted into it.
fn shift_member(slots: usize, by: usize) -> Member<'static>
    ensures { member_of result ≡ rule.shift_member slots by }
{
    let back = slots.saturating_sub(by);
    if back < by {
        count("inserted", back as u64)
    } else {
        count("lost", by as u64)
    }
}

/// Adds where a feed has slipped, by so many slots of a cycle of so many.
pub fn push_shifted(
    alloc: Global,
    text: &mut String,
    at: At,
    by: usize,
    slots: usize,
) -> Result<(), AllocError>
    ensures { OnOk result (string_bytes text.new ≡ string_bytes text.old
        ++ rule.line (rule.with_start (rule.shifted_members slots at.0 by) at.1)) }
{
    push_at_slot(alloc, text, at, "shifted", &[shift_member(slots, by)])
}
