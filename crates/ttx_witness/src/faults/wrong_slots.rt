//! Compares pages with the slots that send them.

ghost use Rattle.std.specs.Prelude.{◌≡◌, ◌<◌, ◌/◌, ◌↔◌, ℕ, IsTrue, true, drop, take, map, slice_index};
ghost use Rattle.ttx_code.specs.Words.{odd_byte};
ghost use Rattle.ttx_page.specs.Packets.{packet_of};
ghost use Rattle.ttx_page.specs.Steady.{erases_page, IsLikeHead, RowIsRight, LinksAreRight};
ghost use Rattle.ttx_page.specs.Views.{page_of};
ghost use Rattle.ttx_witness.specs.faults.Comparing.{compared_item, IsWrong};

use crate::sent::packets::{id_in, links_in, row_in};
use ttx_header::Control;
use ttx_links::{Links, Target, links_are_exact};
use ttx_page::{Item, Page, RowNumber};

/// What is compared in the transmissions of an item.
#[derive(Clone, Copy)]
pub enum Check {
    /// The erase bit (C4) of the page's headers.
    EraseBit,
    /// The other control bits and the characters of the page's headers.
    Head,
    /// The characters of a row.
    Row(RowNumber),
    /// The links, of which no byte may need correction.
    Links,
}

impl Check {
    /// The item whose transmissions are compared.
    pub fn item(&self) -> Item
        ensures { result ≡ compared_item self.now }
    {
        match self {
            Check::EraseBit => Item::Head,
            Check::Head => Item::Head,
            Check::Row(row) => Item::Row(*row),
            Check::Links => Item::Links,
        }
    }
}

// The byte that sends a character; bit 7 makes the parity odd.
fn sent_as(character: u8) -> u8
    requires { character < 128 }
    ensures { result ≡ odd_byte character }
{
    let halves = character ^ (character >> 4);
    let quarters = halves ^ (halves >> 2);
    let eighths = quarters ^ (quarters >> 1);
    character | ((!eighths & 1) << 7)
}

// Whether the bytes are those that send the characters.
fn are_sent(bytes: &[u8], characters: &[u8]) -> bool
    requires { (c : ℕ) → slice_index characters.now c < 128 }
    ensures { IsTrue result ↔ (bytes.now ≡ map odd_byte characters.now) }
{
    if bytes.len() != characters.len() {
        return false;
    }
    let mut union = 0;
    for i in 0..bytes.len() {
        union |= bytes[i] ^ sent_as(characters[i]);
    }
    union == 0
}

// Whether the 40 bytes are those that send the characters: the first 32, then the last eight, so that whole vectors are compared.
fn is_row_sent(bytes: &[u8; 40], characters: &[u8; 40]) -> bool
    requires { (c : ℕ) → slice_index characters.now c < 128 }
    ensures { IsTrue result ↔ (bytes.now ≡ map odd_byte characters.now) }
{
    let (block, rest) = bytes.split_at(32);
    let (block_characters, rest_characters) = characters.split_at(32);
    are_sent(block, block_characters) && are_sent(rest, rest_characters)
}

// Whether the slot is a header with the erase bit (C4).
fn erases(slot: &[u8; 42]) -> bool
    ensures { IsTrue result ↔ (erases_page (packet_of slot.now) ≡ true) }
{
    match id_in(slot) {
        Some((_, control)) => control.erases_page(),
        None => false,
    }
}

// Whether all control bits except C4 are equal.
fn same_bits(a: Control, b: Control) -> bool
    ensures { IsTrue result ↔ (a.0 / 2 ≡ b.0 / 2) }
{
    a.0 / 2 == b.0 / 2
}

// Whether a header with these control bits has those of the page, except C4, and its characters.
fn is_headed(page: &Page, control: Control, slot: &[u8; 42]) -> bool
    requires { (c : ℕ) → slice_index (page_of page.now).head c < 128 }
    ensures { IsTrue result ↔ ((control.0 / 2 ≡ (page_of page.now).control / 2)
        × (take 24 (drop 10 slot.now) ≡ map odd_byte (page_of page.now).head)) }
{
    same_bits(control, page.control()) && are_sent(&slot[10..34], page.head())
}

// Whether the slot is a header with the page's control bits, except C4, and its characters.
fn is_like_head(page: &Page, slot: &[u8; 42]) -> bool
    ensures { IsTrue result ↔ IsLikeHead (page_of page.now) (packet_of slot.now) }
{
    ttx_page::laws::pages_keep_their_rules();
    match id_in(slot) {
        Some((_, control)) => is_headed(page, control, slot),
        None => false,
    }
}

// The 40 bytes after the address.
fn text_in(slot: &[u8; 42]) -> &[u8; 40]
    ensures { result.now ≡ drop 2 slot.now }
{
    slot.last_chunk::<40>().unwrap()
}

// Whether the slot is a row with the characters of the page's row `row`.
fn is_row_right(page: &Page, row: RowNumber, slot: &[u8; 42]) -> bool
    ensures { IsTrue result ↔ RowIsRight (page_of page.now) row (packet_of slot.now) }
{
    ttx_page::laws::pages_keep_their_rules();
    match row_in(slot) {
        Some(_) => is_row_sent(text_in(slot), &page.rows()[usize::from(row.number()) - 1]),
        None => false,
    }
}

// Whether two links are the same.
fn same_link(a: Option<Target>, b: Option<Target>) -> bool
    ensures { IsTrue result ↔ (a ≡ b) }
{
    a == b
}

// Whether six links are the same as six others.
fn same_six(a: &[Option<Target>; 6], b: &[Option<Target>; 6]) -> bool
    ensures { IsTrue result ↔ (a.now ≡ b.now) }
{
    for i in 0..6usize {
        if !same_link(a[i], b[i]) {
            return false;
        }
    }
    true
}

/// Whether the links and the row 24 flag are the same. The page CRC is not compared.
pub fn same_links(a: &Links, b: &Links) -> bool
    ensures { IsTrue result ↔ (a.now.set ≡ b.now.set) }
{
    same_six(a.six(), b.six()) && a.show24() == b.show24()
}

// Whether the slot is an X/27/0 with the page's links, and none of its bytes 3 to 39 needs correction.
fn are_links_right(page: &Page, slot: &[u8; 42]) -> bool
    ensures { IsTrue result ↔ LinksAreRight (page_of page.now) slot.now (packet_of slot.now) }
{
    match links_in(slot) {
        Some(at) => links_are_exact(at.mag, slot, page.links()),
        None => false,
    }
}

/// How a slot differs from a page's header: it has the erase bit (C4), or other control bits or characters.
#[derive(Clone, Copy)]
pub struct HeadFaults {
    pub erases: bool,
    pub differs: bool,
}

/// How the slot differs from the page's header.
pub fn head_faults(page: &Page, slot: &[u8; 42]) -> HeadFaults
    ensures erases { IsTrue result.erases ↔ IsWrong (page_of page.now) Check.EraseBit slot.now }
    ensures differs { IsTrue result.differs ↔ IsWrong (page_of page.now) Check.Head slot.now }
{
    ttx_page::laws::pages_keep_their_rules();
    match id_in(slot) {
        Some((_, control)) => HeadFaults {
            erases: control.erases_page(),
            differs: !is_headed(page, control, slot),
        },
        None => HeadFaults {
            erases: false,
            differs: true,
        },
    }
}

/// Whether what the slot sends differs from the page.
#[inline(always)]
pub fn is_wrong(page: &Page, check: &Check, slot: &[u8; 42]) -> bool
    ensures { IsTrue result ↔ IsWrong (page_of page.now) check.now slot.now }
{
    match check {
        Check::EraseBit => erases(slot),
        Check::Head => !is_like_head(page, slot),
        Check::Row(row) => !is_row_right(page, *row, slot),
        Check::Links => !are_links_right(page, slot),
    }
}
