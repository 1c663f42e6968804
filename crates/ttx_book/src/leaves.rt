//! The pages of a book, and its index.

ghost use Rattle.std.specs.Prelude.{◌≡◌, ◌<◌, ◌++◌, OnOk, length, string_bytes};
ghost use Rattle.ttx_header.specs.Headers.{header_fields_of};
ghost use Rattle.ttx_book.specs.Hearing.{leaf_id};
ghost use Rattle.ttx_book.specs.Books.{name_of, title_char, title_text, title_of, entry_start, entry_end, index_entry, entry_or_none, index_html, full_number, anchor, section_tag, heading, leaf_end, leaf_html, leaves_html};

use crate::packet_index::Index;
use crate::page_views::{leaf_id, page_view};
use std::alloc::AllocError;
use ttx_charset::glyph;
use ttx_digits::{digit, push_byte, push_id};
use ttx_header::{Header, PageId, read_header};
use ttx_picture::{push_escaped, push_figure};

#[tactic(auto, unfolding(crate::specs::Books::name_of))]
fn push_name(text: &mut String, id: PageId) -> Result<(), AllocError>
    ensures { OnOk result (string_bytes text.new ≡ string_bytes text.old ++ name_of id) }
{
    push_id(text, id)
}

fn title_char(option: u8, byte: u8) -> char
    requires { option < 8 }
    ensures { result ≡ title_char option byte }
{
    let code = byte % 128;
    if code < 32 { ' ' } else { glyph(option, code) }
}

// Appends characters under a national option.
fn push_title_text(text: &mut String, option: u8, bytes: &[u8]) -> Result<(), AllocError>
    requires { option < 8 }
    ensures { OnOk result (string_bytes text.new ≡ string_bytes text.old ++ title_text option bytes.now) }
{
    for byte in bytes {
        push_escaped(text, title_char(option, *byte))?;
    }
    Ok(())
}

// Appends the characters of a page header.
#[tactic(auto, unfolding(crate::specs::Books::title_of))]
fn push_title(text: &mut String, header: &Header) -> Result<(), AllocError>
    ensures { OnOk result (string_bytes text.new ≡ string_bytes text.old ++ title_of header.now) }
{
    push_title_text(text, header.control().option(), header.text())
}

// Appends the first part of an entry: the link and its name.
#[tactic(auto, unfolding(crate::specs::Books::entry_start))]
fn push_entry_start(text: &mut String, id: PageId) -> Result<(), AllocError>
    ensures { OnOk result (string_bytes text.new ≡ string_bytes text.old ++ entry_start id) }
{
    text.push_str("<a href=\"#")?;
    push_name(text, id)?;
    text.push_str("\">")?;
    push_name(text, id)
}

// Appends the last part of an entry: the characters of the page header.
#[tactic(auto, unfolding(crate::specs::Books::entry_end))]
fn push_entry_end(text: &mut String, header: &Header) -> Result<(), AllocError>
    ensures { OnOk result (string_bytes text.new ≡ string_bytes text.old ++ entry_end header.now) }
{
    text.push_str("<span>")?;
    push_title(text, header)?;
    text.push_str("</span></a>")
}

fn push_index_entry(text: &mut String, header: &Header, id: PageId) -> Result<(), AllocError>
    ensures { OnOk result (string_bytes text.new ≡ string_bytes text.old ++ index_entry header.now id) }
{
    push_entry_start(text, id)?;
    push_entry_end(text, header)
}

// Appends the entry of a page header, unless it is time-filling.
fn push_entry(text: &mut String, slot: &[u8; 42]) -> Result<(), AllocError>
    ensures { OnOk result (string_bytes text.new ≡ string_bytes text.old ++ entry_or_none (header_fields_of slot.now) (leaf_id slot.now)) }
{
    match (read_header(slot), leaf_id(slot)) {
        (Some(header), Some(id)) => push_index_entry(text, &header, id),
        _ => Ok(()),
    }
}

/// Appends links to the pages of these headers.
pub(crate) fn push_index(text: &mut String, headers: &[[u8; 42]]) -> Result<(), AllocError>
    ensures { OnOk result (string_bytes text.new ≡ string_bytes text.old ++ index_html headers.now) }
{
    for header in headers {
        push_entry(text, header)?;
    }
    Ok(())
}

// Magazine and page number in one number.
fn full_number(id: PageId) -> u32
    ensures { result ≡ full_number id }
{
    u32::from(id.mag()) * 256 + u32::from(id.page())
}

// Appends an anchor with the page number, unless the previous page had the same number.
#[tactic(auto, unfolding(crate::specs::Books::anchor))]
fn push_anchor(text: &mut String, former: u32, id: PageId) -> Result<(), AllocError>
    ensures { OnOk result (string_bytes text.new ≡ string_bytes text.old ++ anchor former id) }
{
    if former == full_number(id) {
        return Ok(());
    }
    text.push_str("<a id=\"")?;
    text.push(digit(id.mag()))?;
    push_byte(text, id.page())?;
    text.push_str("\"></a>")
}

#[tactic(auto, unfolding(crate::specs::Books::section_tag))]
fn push_section_tag(text: &mut String) -> Result<(), AllocError>
    ensures { OnOk result (string_bytes text.new ≡ string_bytes text.old ++ section_tag) }
{
    text.push_str("<section id=\"")
}

#[tactic(auto, unfolding(crate::specs::Books::heading))]
fn push_heading(text: &mut String, id: PageId) -> Result<(), AllocError>
    ensures { OnOk result (string_bytes text.new ≡ string_bytes text.old ++ heading id) }
{
    text.push_str("\"><h2>")?;
    push_name(text, id)?;
    text.push_str("</h2>")
}

#[tactic(auto, unfolding(crate::specs::Books::leaf_end))]
fn push_leaf_end(text: &mut String) -> Result<(), AllocError>
    ensures { OnOk result (string_bytes text.new ≡ string_bytes text.old ++ leaf_end) }
{
    text.push_str("</section>")
}

// Opens the section of a page; `former` is the number of the previous page.
fn push_leaf_start(text: &mut String, former: u32, id: PageId) -> Result<(), AllocError>
    ensures { OnOk result (string_bytes text.new ≡ string_bytes text.old ++ (anchor former id ++ section_tag ++ name_of id ++ heading id)) }
{
    push_anchor(text, former, id)?;
    push_section_tag(text)?;
    push_name(text, id)?;
    push_heading(text, id)
}

// Appends a page; `former` is the number of the previous page.
#[tactic(auto, unfolding(crate::specs::Books::leaf_html))]
fn push_leaf(
    text: &mut String,
    slots: &[[u8; 42]],
    pages: &Index,
    former: u32,
    id: PageId,
) -> Result<(), AllocError>
    requires { length pages.now ≡ length slots.now }
    ensures { OnOk result (string_bytes text.new ≡ string_bytes text.old ++ leaf_html slots.now pages.now former id) }
{
    push_leaf_start(text, former, id)?;
    push_figure(text, false, &page_view(slots, pages, id))?;
    push_leaf_end(text)
}

/// Appends the pages, given the page of each slot.
pub(crate) fn push_leaves(
    text: &mut String,
    slots: &[[u8; 42]],
    pages: &Index,
    ids: &[PageId],
) -> Result<(), AllocError>
    requires { length pages.now ≡ length slots.now }
    ensures { OnOk result (string_bytes text.new ≡ string_bytes text.old ++ leaves_html slots.now pages.now 0 ids.now) }
{
    let mut former = 0;
    for id in ids {
        push_leaf(text, slots, pages, former, *id)?;
        former = full_number(*id);
    }
    Ok(())
}
