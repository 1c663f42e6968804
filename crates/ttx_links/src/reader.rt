//! Reads packets X/27/0, and single links in other packets.

ghost use Rattle.std.specs.Prelude.{◌≡◌, ◌+◌, ◌≤◌, ◌↔◌, true, IsTrue, Some, SomeIff, slice_range, option_map};
ghost use Rattle.ttx_packet.specs.Slots.{are_readable, are_words};
ghost use Rattle.ttx_links.specs.Sets.{is_exact, link_at, links_fields, links_of, set_of};

use crate::laws;
use crate::sets::Links;
use crate::targets::Target;
use crate::writer::write_link;
use ttx_code::{are_words, is_word};
use ttx_header::parts::{is_readable, number_at};

// The link in the six bytes from byte `at` on, if they are readable.
fn link_at(mag: u8, bytes: &[u8; 42], at: usize) -> Option<Target>
    requires low { 1 ≤ mag }
    requires high { mag ≤ 8 }
    requires inside { at + 6 ≤ 42 }
    ensures { result ≡ link_at mag bytes.now at }
{
    let s2 = number_at(bytes, at + 3);
    let s4 = number_at(bytes, at + 5);
    let page = number_at(bytes, at) + 16 * number_at(bytes, at + 1);
    let sub = u16::from(number_at(bytes, at + 2))
        + 16 * u16::from(s2 % 8)
        + 256 * u16::from(number_at(bytes, at + 4))
        + 4096 * u16::from(s4 % 4);
    let other = (mag % 8) ^ (s2 / 8 + 2 * (s4 / 4));
    let target_mag = if other % 8 == 0 { 8 } else { other % 8 };
    Target::new(target_mag, page, sub)
}

/// Reads the link in the six bytes from byte `at` on, in a packet of magazine `mag` (EN 300 706, 9.6.1). `None` if one of the
/// six bytes is unreadable; `Some(None)` if they name page FF with subcode 3F7F, which is no link.
pub fn read_link(mag: u8, bytes: &[u8; 42], at: usize) -> Option<Option<Target>>
    requires low { 1 ≤ mag }
    requires high { mag ≤ 8 }
    requires inside { at + 6 ≤ 42 }
    ensures { SomeIff result (are_readable (slice_range bytes.now at (at + 6)) ≡ true) (link_at mag bytes.now at) }
{
    if is_readable(&bytes[at..at + 6]) {
        Some(link_at(mag, bytes, at))
    } else {
        None
    }
}

fn crc_of(bytes: &[u8; 42]) -> [u8; 2]
    ensures { result ≡ slice_range bytes.now 40 42 }
{
    let mut crc = [0; 2];
    crc.copy_from_slice(&bytes[40..42]);
    crc
}

/// Reads a packet X/27/0 of magazine `mag` from bytes 3 to 41; the first three bytes are not looked at. `None` if one of bytes 3
/// to 39 is unreadable.
#[tactic(auto, unfolding(crate::specs::Sets::links_of))]
pub fn read_links(mag: u8, bytes: &[u8; 42]) -> Option<Links>
    requires low { 1 ≤ mag }
    requires high { mag ≤ 8 }
    ensures fields { SomeIff result (are_readable (slice_range bytes.now 3 40) ≡ true) (links_fields mag bytes.now) }
    ensures set { option_map (λ f. f.set) result ≡ links_of mag bytes.now }
{
    if !is_readable(&bytes[3..40]) {
        return None;
    }
    let six = [
        link_at(mag, bytes, 3),
        link_at(mag, bytes, 9),
        link_at(mag, bytes, 15),
        link_at(mag, bytes, 21),
        link_at(mag, bytes, 27),
        link_at(mag, bytes, 33),
    ];
    let show24 = number_at(bytes, 39) / 8 == 1;
    Some(Links::new(six, show24, crc_of(bytes)))
}

// Whether the six bytes from byte `at` on are code words that send this link.
#[inline(always)]
fn is_link(mag: u8, bytes: &[u8; 42], at: usize, link: &Option<Target>) -> bool
    requires low { 1 ≤ mag }
    requires high { mag ≤ 8 }
    requires inside { at + 6 ≤ 42 }
    ensures { IsTrue result ↔ ((are_words (slice_range bytes.now at (at + 6)) ≡ true) × (link_at mag bytes.now at ≡ link.now)) }
{
    laws::link_leads_to_a_target(link);
    ttx_header::laws::written_words_are_read();
    ttx_header::laws::read_numbers_are_numbers();
    laws::said_link_is_read();
    laws::read_link_is_said();
    ttx_code::laws::words_have_numbers();
    match link {
        // Only the bytes that are written for it send a link that leads somewhere.
        Some(_) => bytes[at..at + 6] == write_link(mag, link)[..],
        None => are_words(&bytes[at..at + 6]) && link_at(mag, bytes, at).is_none(),
    }
}

// Whether bytes 3 to 38 are code words that send these six links.
fn are_six(mag: u8, bytes: &[u8; 42], six: &[Option<Target>; 6]) -> bool
    requires low { 1 ≤ mag }
    requires high { mag ≤ 8 }
    ensures { IsTrue result ↔ ((are_words (slice_range bytes.now 3 39) ≡ true) × ((set_of mag bytes.now).six ≡ six.now)) }
{
    is_link(mag, bytes, 3, &six[0])
        & is_link(mag, bytes, 9, &six[1])
        & is_link(mag, bytes, 15, &six[2])
        & is_link(mag, bytes, 21, &six[3])
        & is_link(mag, bytes, 27, &six[4])
        & is_link(mag, bytes, 33, &six[5])
}

/// Whether bytes 3 to 39 of a packet X/27/0 of magazine `mag` are code words that send these links and their `show24`. The first
/// three bytes and the page CRC are not looked at.
pub fn links_are_exact(mag: u8, bytes: &[u8; 42], links: &Links) -> bool
    requires low { 1 ≤ mag }
    requires high { mag ≤ 8 }
    ensures { IsTrue result ↔ ((is_exact bytes.now ≡ true) × (links_of mag bytes.now ≡ Some links.now.set)) }
{
    ttx_code::laws::words_have_numbers();
    let same_row = (number_at(bytes, 39) / 8 == 1) == links.show24();
    is_word(bytes[39]) & same_row & are_six(mag, bytes, links.six())
}
