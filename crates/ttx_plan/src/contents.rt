//! The packets of a page.

ghost use Rattle.std.specs.Prelude.{◌≡◌, ℕ, ◌<◌, ◌≤◌, map, slice_index};
ghost use Rattle.ttx_code.specs.Words.{odd_byte};
ghost use Rattle.ttx_page.specs.declared.item.Item.TheVariants.{Row as TheRow, Links as TheLinks};
ghost use Rattle.ttx_page.specs.Views.{page_of};
ghost use Rattle.ttx_plan.specs.Contents.{page_header_bytes, is_sent_to, page_links_bytes, page_row_bytes};

use ttx_code::odd;
use ttx_header::parts::put;
use ttx_header::{Header, write_header};
use ttx_links::write_links;
use ttx_packet::address;
use ttx_page::{Class, Item, Page, RowNumber, is_blank, needed};

// The characters in odd parity.
fn odd_bytes<const N: usize>(codes: &[u8; N]) -> [u8; N]
    requires { (c : ℕ) → slice_index codes.now c < 128 }
    ensures { result ≡ map odd_byte codes.now }
{
    let mut bytes = [0; N];
    for i in 0..N {
        bytes[i] = odd(codes[i]);
    }
    bytes
}

/// The page header. Its clock is spaces.
pub fn header_packet(page: &Page) -> [u8; 42]
    ensures { result ≡ page_header_bytes (page_of page.now) }
{
    let text = odd_bytes(page.head());
    let header = Header::new(page.id(), page.control(), text, [b' '; 8]).unwrap();
    write_header(&header)
}

/// The packet of row 1 to 24.
pub fn row_packet(page: &Page, number: u8) -> [u8; 42]
    requires from { 1 ≤ number }
    requires to { number ≤ 24 }
    ensures { result ≡ page_row_bytes (page_of page.now) number }
{
    let mut bytes = [0; 42];
    put(&mut bytes, 0, &address(page.id().mag(), number));
    put(
        &mut bytes,
        2,
        &odd_bytes(&page.rows()[usize::from(number) - 1]),
    );
    bytes
}

/// Packet X/27/0.
pub fn links_packet(page: &Page) -> [u8; 42]
    ensures { result ≡ page_links_bytes (page_of page.now) }
{
    write_links(page.id().mag(), page.links())
}

/// Whether a row, 1 to 24, is sent to receivers of the class.
pub fn is_row_sent_to(class: Class, page: &Page, number: u8) -> bool
    requires from { 1 ≤ number }
    requires to { number ≤ 24 }
    ensures { result ≡ is_sent_to class (page_of page.now) (TheRow number) }
{
    let row = RowNumber::new(number).unwrap();
    match class {
        Class::Any => needed(page, Item::Row(row)),
        Class::Clearing => needed(page, Item::Row(row)) && !is_blank(page, Item::Row(row)),
    }
}

/// Whether X/27/0 is sent to receivers of the class.
pub fn are_links_sent_to(class: Class, page: &Page) -> bool
    ensures { result ≡ is_sent_to class (page_of page.now) TheLinks }
{
    match class {
        Class::Any => true,
        Class::Clearing => !is_blank(page, Item::Links),
    }
}
