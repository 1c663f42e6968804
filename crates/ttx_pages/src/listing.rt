//! The lines of all pages.

ghost use Rattle.std.specs.Prelude.{◌≡◌, ◌++◌, ℕ, List, IfOk, OnOk, string_bytes};
ghost use Rattle.std.specs.List.{flat_map};
ghost use Rattle.ttx_pages.specs.Listing.{listed_lines, strays_text, rest_line, pages_text};
ghost use Rattle.ttx_pages.specs.Counting.{CountsByPage, counted_line};

use crate::firsts::page_headers;
use crate::keys::{Part, keys_sent, page_key};
use crate::lines::push_page_line;
use crate::rest::{push_others, push_slots};
use std::alloc::{AllocError, Global};
use std::collections::BTreeMap;
use ttx_header::read_header;
use ttx_tallies::{count_of, tally};

/// How many packets of each part each page has.
#[derive(Drop)]
pub(crate) struct Sent {
    pub heads: BTreeMap<usize, usize>,
    pub rows: BTreeMap<usize, usize>,
    pub links: BTreeMap<usize, usize>,
}

// How many packets of one part each page has.
fn counts_of(
    alloc: Global,
    part: Part,
    slots: &[[u8; 42]],
) -> Result<BTreeMap<usize, usize>, AllocError>
    ensures { IfOk result (λ counts. CountsByPage part slots.now counts) }
{
    let keys = keys_sent(alloc, part, slots)?;
    tally(alloc, keys.as_slice())
}

/// The counts of all pages.
pub(crate) fn all_counts(alloc: Global, slots: &[[u8; 42]]) -> Result<Sent, AllocError>
    ensures { IfOk result (λ all. CountsByPage Part.Head slots.now all.heads × CountsByPage Part.Row slots.now all.rows
        × CountsByPage Part.Links slots.now all.links) }
{
    Ok(Sent {
        heads: counts_of(alloc, Part::Head, slots)?,
        rows: counts_of(alloc, Part::Row, slots)?,
        links: counts_of(alloc, Part::Links, slots)?,
    })
}

// Appends the line of the page of a header.
#[tactic(auto, unfolding(crate::specs::Counting::counted_line))]
fn push_header_line(text: &mut String, all: &Sent, slot: &[u8; 42]) -> Result<(), AllocError>
    ensures { OnOk result (string_bytes text.new ≡ string_bytes text.old ++ counted_line all.now slot.now) }
{
    let Some(header) = read_header(slot) else {
        return Ok(());
    };
    let key = page_key(header.id());
    let times = count_of(&all.heads, key);
    let rows = count_of(&all.rows, key);
    let links = count_of(&all.links, key);
    push_page_line(text, &header, times, rows, links)
}

// Appends the lines of the pages of these headers.
fn push_lines(text: &mut String, all: &Sent, headers: &[[u8; 42]]) -> Result<(), AllocError>
    ensures { OnOk result (string_bytes text.new ≡ string_bytes text.old ++ flat_map (counted_line all.now) headers.now) }
{
    for header in headers {
        push_header_line(text, all, header)?;
    }
    Ok(())
}

// Appends the lines of all pages that have a header, by rising page numbers.
fn push_listed(
    alloc: Global,
    text: &mut String,
    all: &Sent,
    slots: &[[u8; 42]],
) -> Result<(), AllocError>
    requires heads { CountsByPage Part.Head slots.now all.now.heads }
    requires rows { CountsByPage Part.Row slots.now all.now.rows }
    requires links { CountsByPage Part.Links slots.now all.now.links }
    ensures { OnOk result (string_bytes text.new ≡ string_bytes text.old ++ listed_lines slots.now) }
{
    let headers = page_headers(alloc, slots)?;
    push_lines(text, all, headers.as_slice())
}

#[tactic(auto, unfolding(crate::specs::Listing::strays_text))]
fn push_strays(text: &mut String, all: &Sent) -> Result<(), AllocError>
    ensures { OnOk result ((slots : List (List ℕ)) → CountsByPage Part.Row slots all.now.rows → CountsByPage Part.Links slots all.now.links →
        string_bytes text.new ≡ string_bytes text.old ++ strays_text slots) }
{
    let rows = count_of(&all.rows, 0);
    let links = count_of(&all.links, 0);
    write!(text, "rest rows {rows} links {links}")
}

/// The lines of the pages of a cycle, by rising page numbers, and the line for what belongs to no page. `Err` if memory runs out.
pub fn pages_text(alloc: Global, slots: &[[u8; 42]]) -> Result<String, AllocError>
    ensures { IfOk result (λ text. string_bytes text ≡ pages_text slots.now) }
{
    let all = all_counts(alloc, slots)?;
    let mut text = String::new(alloc);
    push_listed(alloc, &mut text, &all, slots)?;
    push_strays(&mut text, &all)?;
    push_others(&mut text, slots)?;
    push_slots(&mut text, slots)?;
    Ok(text)
}
