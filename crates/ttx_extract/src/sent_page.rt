//! A page as a cycle sends it first.

ghost use Rattle.std.specs.Prelude.{◌≡◌, ◌≤◌, ◌+◌, ◌*◌, ◌/◌, ◌%◌, ℕ, List, drop, length, option_map, replicate, slice_get, Some, unsigned_abs};
ghost use Rattle.ttx_source.specs.Keys.{bit_at};
ghost use Rattle.ttx_cycle.specs.Cycles.{slots_of};
ghost use Rattle.ttx_page.specs.Pages.{Page};
ghost use Rattle.ttx_page.specs.declared.item.Item.TheVariants.{Row as TheRow};
ghost use Rattle.ttx_witness.specs.sent.AllSent.{AreAllSent};
ghost use Rattle.ttx_extract.specs.Often.{often_for};
ghost use Rattle.ttx_extract.specs.FirstSent.{characters, first_sent, first_slot, links_of_slot, no_links_fields, row_of};
ghost use Rattle.ttx_extract.specs.Drafts.{authored_of, said_control, said_head, said_page, said_rows};

use ttx_cycle::Cycle;
use ttx_header::{Control, Header, PageId};
use ttx_links::{Links, read_links};
use ttx_page::{Item, RowNumber};
use ttx_witness::{Collected, Transmission, header_in};

/// A page: what is sent first of each of its items, and how often it is sent.
#[derive(Clone, Copy)]
pub struct SentPage {
    pub id: PageId,
    pub often: u8,
    pub control: Control,
    pub head: [u8; 24],
    pub rows: [[u8; 40]; 24],
    pub links: Links,
}

/// How often a page with so many headers is sent: the greatest of 1, 2, 4 and 8 that is not more than these.
pub fn often_for(headers: usize) -> u8
    ensures { result ≡ often_for headers }
{
    match headers {
        0 | 1 => 1,
        2 | 3 => 2,
        4..=7 => 4,
        _ => 8,
    }
}

// Stores the characters of bytes, whatever their parity.
fn strip(codes: &mut [u8], bytes: &[u8])
    requires { length codes.old ≡ length bytes.now }
    ensures { codes.new ≡ characters bytes.now }
{
    for i in 0..bytes.len() {
        codes[i] = bytes[i] % 128;
    }
}

// The 40 bytes after the address.
fn text_in(slot: &[u8; 42]) -> &[u8; 40]
    ensures { result.now ≡ drop 2 slot.now }
{
    slot.last_chunk::<40>().unwrap()
}

// The characters of the row in a slot; spaces if there is none.
fn said_row(slot: Option<&[u8; 42]>) -> [u8; 40]
    ensures { result ≡ row_of (option_map (λ s. s.now) slot.entry) }
{
    let mut row = [b' '; 40];
    if let Some(slot) = slot {
        strip(&mut row, text_in(slot));
    }
    row
}

// The slot of a transmission in the period.
fn slot_of(sent: Transmission) -> usize
    ensures { result ≡ unsigned_abs sent.slot }
{
    sent.slot.unsigned_abs() as usize
}

// The slot of the first transmission of a list, if there is one.
fn first_slot<'a>(cycle: &'a Cycle, sent: &[Transmission]) -> Option<&'a [u8; 42]>
    ensures { option_map (λ s. s.now) result ≡ first_slot (slots_of cycle.now) sent.now }
{
    match sent.first() {
        Some(first) => cycle.slots().get(slot_of(*first)),
        None => None,
    }
}

/// The spaces of row 0.
pub fn blank_head() -> [u8; 24]
    ensures { result ≡ replicate 24 32 }
{
    [b' '; 24]
}

/// The spaces of rows 1 to 24.
pub fn blank_rows() -> [[u8; 40]; 24]
    ensures { result ≡ replicate 24 (replicate 40 32) }
{
    [[b' '; 40]; 24]
}

// The row of the page at `index` as it is sent first.
fn sent_row(cycle: &Cycle, collected: &Collected, index: usize, row: RowNumber) -> [u8; 40]
    ensures { (pages : List Page) (lines : ℕ) (p : Page) → AreAllSent (slots_of cycle.now) pages lines collected.now →
        slice_get pages index ≡ Some p → result ≡ row_of (first_sent (slots_of cycle.now) lines p.id (TheRow row)) }
{
    said_row(first_slot(cycle, collected.sent(index, Item::Row(row))))
}

fn row_number(number: u8) -> RowNumber
    requires from { 1 ≤ number }
    requires to { number ≤ 24 }
    ensures { result ≡ number }
{
    RowNumber::new(number).unwrap()
}

// Rows 1 to 24 of the page at `index` as they are sent first.
fn sent_rows(cycle: &Cycle, collected: &Collected, index: usize) -> [[u8; 40]; 24]
    ensures { (pages : List Page) (lines : ℕ) (p : Page) → AreAllSent (slots_of cycle.now) pages lines collected.now →
        slice_get pages index ≡ Some p → result ≡ said_rows (slots_of cycle.now) lines p.id }
{
    let mut rows = blank_rows();
    for i in 0..24u8 {
        rows[usize::from(i)] = sent_row(cycle, collected, index, row_number(i + 1));
    }
    rows
}

// The control bits that a page has of a header: C11 is as the service has it, and C4 is clear.
fn control_of(header: &Header, serial: bool) -> Control
    ensures { result.0 ≡ 2 * (header.now.control / 2 % 64) + bit_at 128 serial + 256 * (header.now.control / 256) }
{
    let control = header.control().0;
    let c11 = if serial { 128 } else { 0 };
    Control(2 * (control / 2 % 64) + c11 + 256 * (control / 256))
}

// The control bits of the header in a slot.
#[tactic(auto, unfolding(crate::specs::Drafts::said_control))]
fn said_control(slot: Option<&[u8; 42]>, serial: bool) -> Control
    ensures { result.0 ≡ said_control serial (option_map (λ s. s.now) slot.entry) }
{
    let Some(slot) = slot else {
        return Control(0);
    };
    ttx_cycle::arrays::is_slot(slot);
    match header_in(slot) {
        Some(header) => control_of(&header, serial),
        None => Control(0),
    }
}

// The characters of the header in a slot.
#[tactic(auto, unfolding(crate::specs::Drafts::said_head))]
fn said_head(slot: Option<&[u8; 42]>) -> [u8; 24]
    ensures { result ≡ said_head (option_map (λ s. s.now) slot.entry) }
{
    let mut head = [b' '; 24];
    let Some(slot) = slot else {
        return head;
    };
    ttx_cycle::arrays::is_slot(slot);
    if let Some(header) = header_in(slot) {
        strip(&mut head, header.text());
    }
    head
}

fn no_links() -> Links
    ensures { result ≡ no_links_fields }
{
    Links::new([None; 6], false, [0; 2])
}

// The links in a slot; none if there is no X/27/0, or one of its bytes 3 to 39 cannot be read.
fn said_links(slot: Option<&[u8; 42]>, mag: u8) -> Links
    requires low { 1 ≤ mag }
    requires high { mag ≤ 8 }
    ensures { result ≡ links_of_slot mag (option_map (λ s. s.now) slot.entry) }
{
    let Some(slot) = slot else {
        return no_links();
    };
    match read_links(mag, slot) {
        Some(links) => links,
        None => no_links(),
    }
}

/// The page at `index` of those whose transmissions are collected: what is sent first of each of its items, and how often it is sent.
/// C11 is `serial`.
pub fn sent_page(
    cycle: &Cycle,
    collected: &Collected,
    index: usize,
    id: PageId,
    serial: bool,
) -> SentPage
    ensures { (pages : List Page) (lines : ℕ) (p : Page) → AreAllSent (slots_of cycle.now) pages lines collected.now →
        slice_get pages index ≡ Some p → p.id ≡ id → authored_of result ≡ said_page (slots_of cycle.now) lines serial id }
{
    let heads = collected.sent(index, Item::Head);
    let links = collected.sent(index, Item::Links);
    let header = first_slot(cycle, heads);
    SentPage {
        id,
        often: often_for(heads.len()),
        control: said_control(header, serial),
        head: said_head(header),
        rows: sent_rows(cycle, collected, index),
        links: said_links(first_slot(cycle, links), id.mag()),
    }
}
