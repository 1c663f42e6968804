//! Writes packets X/27/0, and single links in other packets.

ghost use Rattle.std.specs.Prelude.{◌≡◌, ◌<◌, ◌≤◌, ◌++◌, [], ◌∷◌, map};
ghost use Rattle.ttx_code.specs.Words.{hamming_word};
ghost use Rattle.ttx_packet.specs.Slots.{address_bytes};
ghost use Rattle.ttx_header.specs.Ids.{IsSubcode, id_at};
ghost use Rattle.ttx_links.specs.Sets.{link_numbers, link_bytes, links_bytes, control_byte};

use crate::sets::Links;
use crate::targets::Target;
use ttx_code::{ham, ham_pair};
use ttx_header::parts::put;
use ttx_packet::address;

// The code words of a link; `m` is M1 + 2 M2 + 4 M3.
#[inline(always)]
fn link_words(m: u8, page: u8, sub: u16) -> [u8; 6]
    requires m { m < 8 }
    requires sub { IsSubcode sub }
    ensures { result ≡ map hamming_word (link_numbers m (id_at 8 page sub)) }
{
    let [units, tens] = ham_pair(page);
    let [s1, s2] = ham_pair((sub % 128) as u8 + 128 * (m % 2));
    let [s3, s4] = ham_pair((sub / 256) as u8 + 64 * (m / 2));
    [units, tens, s1, s2, s3, s4]
}

/// The six bytes of a link in a packet of magazine `mag`. No link is sent as page FF, subcode 3F7F, with M1 to M3 zero.
#[inline(always)]
pub fn write_link(mag: u8, link: &Option<Target>) -> [u8; 6]
    requires low { 1 ≤ mag }
    requires high { mag ≤ 8 }
    ensures { result ≡ link_bytes mag link.now }
{
    match link {
        Some(target) => link_words((mag % 8) ^ (target.mag() % 8), target.page(), target.sub()),
        None => link_words(0, 0xff, 0x3f7f),
    }
}

// Bytes 0 to 2: the address and designation 0.
fn front(mag: u8) -> [u8; 3]
    requires low { 1 ≤ mag }
    requires high { mag ≤ 8 }
    ensures { result ≡ address_bytes mag 27 ++ hamming_word 0 ∷ [] }
{
    let [low, high] = address(mag, 27);
    [low, high, ham(0)]
}

// Bytes 39 to 41: the link control and the page CRC.
fn back(links: &Links) -> [u8; 3]
    ensures { result ≡ control_byte links.now.set.show24 ∷ links.now.crc }
{
    let control = if links.show24() { ham(15) } else { ham(7) };
    let [first, second] = links.crc();
    [control, first, second]
}

/// The 42 bytes of a packet X/27/0 of magazine `mag`.
pub fn write_links(mag: u8, links: &Links) -> [u8; 42]
    requires low { 1 ≤ mag }
    requires high { mag ≤ 8 }
    ensures { result ≡ links_bytes mag links.now }
{
    let six = links.six();
    let mut bytes = [0; 42];
    put(&mut bytes, 0, &front(mag));
    for i in 0..6 {
        put(&mut bytes, 3 + 6 * i, &write_link(mag, &six[i]));
    }
    put(&mut bytes, 39, &back(links));
    bytes
}
