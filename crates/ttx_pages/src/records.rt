//! The pages of a cycle as JSON objects.

ghost use Rattle.std.specs.Prelude.{◌≡◌, ◌++◌, IfOk, OnOk, string_bytes};
ghost use Rattle.std.specs.List.{flat_map};
ghost use Rattle.ttx_json.specs.Objects.{object_line};
ghost use Rattle.ttx_digits.specs.PageIds.{id_text};
ghost use Rattle.ttx_pages.specs.Counting.{CountsByPage};
ghost use Rattle.ttx_pages.specs.CountedRecords.{counted_record};
ghost use Rattle.ttx_pages.specs.Lines.{quoted_text};
ghost use Rattle.ttx_pages.specs.Records.{listed_members, page_records, rest_members, pages_records};

use crate::firsts::page_headers;
use crate::keys::{Part, page_key};
use crate::lines::push_characters;
use crate::listing::{Sent, all_counts};
use crate::rest::{blanks, correcteds, infos, others, unreadables};
use bitflags::Flags;
use std::alloc::{AllocError, Global};
use ttx_digits::push_id;
use ttx_header::{Control, Header, PageId, read_header};
use ttx_json::{count, flag, push_object, word};
use ttx_tallies::count_of;

// How often each part of a page is sent.
#[derive(Clone, Copy)]
struct Counts {
    times: usize,
    rows: usize,
    links: usize,
}

fn id_text(alloc: Global, page: PageId) -> Result<String, AllocError>
    ensures { IfOk result (λ text. string_bytes text ≡ id_text page) }
{
    let mut text = String::new(alloc);
    push_id(&mut text, page)?;
    Ok(text)
}

fn characters(alloc: Global, bytes: &[u8]) -> Result<String, AllocError>
    ensures { IfOk result (λ text. string_bytes text ≡ quoted_text bytes.now) }
{
    let mut text = String::new(alloc);
    push_characters(&mut text, bytes)?;
    Ok(text)
}

// Adds the object of the page of a header.
#[tactic(auto, unfolding(crate::specs::Records::control_members))]
fn push_page(
    alloc: Global,
    text: &mut String,
    header: &Header,
    counts: Counts,
) -> Result<(), AllocError>
    ensures { OnOk result (string_bytes text.new ≡ string_bytes text.old
        ++ object_line (listed_members header.now.id counts.times counts.rows counts.links header.now.control header.now.text)) }
{
    let id = id_text(alloc, header.id())?;
    let head = characters(alloc, header.text())?;
    let control = header.control();
    let members = [
        word("page", id.as_str()),
        count("sent", counts.times as u64),
        count("rows", counts.rows as u64),
        flag("links", counts.links != 0),
        flag("C4", control.contains(Control::C4)),
        flag("C5", control.contains(Control::C5)),
        flag("C6", control.contains(Control::C6)),
        flag("C7", control.contains(Control::C7)),
        flag("C8", control.contains(Control::C8)),
        flag("C9", control.contains(Control::C9)),
        flag("C10", control.contains(Control::C10)),
        flag("C11", control.contains(Control::C11)),
        flag("C12", control.contains(Control::C12)),
        flag("C13", control.contains(Control::C13)),
        flag("C14", control.contains(Control::C14)),
        word("head", head.as_str()),
    ];
    push_object(alloc, text, &members)
}

// Adds the object of the page of a slot, if it is a header.
#[tactic(auto, unfolding(crate::specs::CountedRecords::counted_record))]
fn push_header(
    alloc: Global,
    text: &mut String,
    all: &Sent,
    slot: &[u8; 42],
) -> Result<(), AllocError>
    ensures { OnOk result (string_bytes text.new ≡ string_bytes text.old ++ counted_record all.now slot.now) }
{
    let Some(header) = read_header(slot) else {
        return Ok(());
    };
    let key = page_key(header.id());
    let counts = Counts {
        times: count_of(&all.heads, key),
        rows: count_of(&all.rows, key),
        links: count_of(&all.links, key),
    };
    push_page(alloc, text, &header, counts)
}

// Adds the objects of the pages of these headers.
fn push_headers(
    alloc: Global,
    text: &mut String,
    all: &Sent,
    headers: &[[u8; 42]],
) -> Result<(), AllocError>
    ensures { OnOk result (string_bytes text.new ≡ string_bytes text.old ++ flat_map (counted_record all.now) headers.now) }
{
    for header in headers {
        push_header(alloc, text, all, header)?;
    }
    Ok(())
}

// Adds the objects of all pages that have a header, by rising page numbers.
fn push_pages(
    alloc: Global,
    text: &mut String,
    all: &Sent,
    slots: &[[u8; 42]],
) -> Result<(), AllocError>
    requires heads { CountsByPage Part.Head slots.now all.now.heads }
    requires rows { CountsByPage Part.Row slots.now all.now.rows }
    requires links { CountsByPage Part.Links slots.now all.now.links }
    ensures { OnOk result (string_bytes text.new ≡ string_bytes text.old ++ page_records slots.now) }
{
    let headers = page_headers(alloc, slots)?;
    push_headers(alloc, text, all, headers.as_slice())
}

// Adds the object of what belongs to no page.
#[tactic(auto, unfolding(crate::specs::Records::rest_members))]
fn push_rest(
    alloc: Global,
    text: &mut String,
    all: &Sent,
    slots: &[[u8; 42]],
) -> Result<(), AllocError>
    requires rows { CountsByPage Part.Row slots.now all.now.rows }
    requires links { CountsByPage Part.Links slots.now all.now.links }
    ensures { OnOk result (string_bytes text.new ≡ string_bytes text.old ++ object_line (rest_members slots.now)) }
{
    let members = [
        word("page", "rest"),
        count("rows", count_of(&all.rows, 0) as u64),
        count("links", count_of(&all.links, 0) as u64),
        count("info", infos(slots) as u64),
        count("other", others(slots) as u64),
        count("empty", blanks(slots) as u64),
        count("unreadable", unreadables(slots) as u64),
        count("corrected", correcteds(slots) as u64),
    ];
    push_object(alloc, text, &members)
}

/// The pages of a cycle and what belongs to no page, as JSON objects with the names and values of the lines of `pages_text`. `Err` if
/// memory runs out.
pub fn pages_records(alloc: Global, slots: &[[u8; 42]]) -> Result<String, AllocError>
    ensures { IfOk result (λ text. string_bytes text ≡ pages_records slots.now) }
{
    let all = all_counts(alloc, slots)?;
    let mut text = String::new(alloc);
    push_pages(alloc, &mut text, &all, slots)?;
    push_rest(alloc, &mut text, &all, slots)?;
    Ok(text)
}
