//! Laws of packets X/27/0. Calling one does nothing at run time; it gives the caller's proof the law.

ghost use Rattle.ttx_links.specs.Sets.{IsLink, AreLinks};
ghost use Rattle.ttx_links.specs.Laws.{LinksAreKept, SaidLinkIsRead, ReadLinkIsSaid, WrittenLinkIsSaid};
ghost use Rattle.ttx_links.specs.Laws.{SaidLinksAreRead, ReadLinksAreSaid, WrittenLinksAreRead};

use crate::sets::Links;
use crate::targets::Target;

/// A link that leads somewhere leads to a target in range.
pub fn link_leads_to_a_target(link: &Option<Target>)
    ensures { IsLink link.now }
{
    if let Some(target) = link {
        let _mag = target.mag();
    }
}

/// Each of six links leads nowhere or to a target in range.
pub fn links_lead_to_targets(links: &Links)
    ensures { AreLinks links.now.set.six }
{
    let six = links.six();
    for i in 0..6 {
        link_leads_to_a_target(&six[i]);
    }
}

/// One wrong bit in each byte leaves the links and `show24` of a packet X/27/0 unchanged if its bytes 3 to 39 are code words.
pub fn links_are_kept()
    ensures { LinksAreKept }
{
    ttx_code::laws::words_have_numbers();
    ttx_header::laws::words_are_kept();
}

/// Six readable bytes that encode a link are read as that link.
pub fn said_link_is_read()
    ensures { SaidLinkIsRead }
{
    ttx_header::laws::read_numbers_are_numbers();
    ttx_header::laws::read_bytes_are_readable();
}

/// Six readable bytes encode the link that is read from them.
pub fn read_link_is_said()
    ensures { ReadLinkIsSaid }
{
    ttx_header::laws::readable_bytes_have_numbers();
}

/// The bytes written for a link encode that link, wherever they are placed in a packet.
pub fn written_link_is_said()
    ensures { WrittenLinkIsSaid }
{
    ttx_header::laws::written_words_are_read();
}

/// 42 bytes that encode a packet of this magazine are read as that packet.
pub fn said_links_are_read()
    ensures { SaidLinksAreRead }
{
    ttx_header::laws::read_numbers_are_numbers();
    ttx_header::laws::read_bytes_are_readable();
}

/// A packet whose bytes 3 to 39 are readable encodes what is read from it.
pub fn read_links_are_said()
    ensures { ReadLinksAreSaid }
{
    ttx_header::laws::readable_bytes_have_numbers();
}

/// The bytes written for a packet are clean and exact, have the kind links, encode the packet, and are read as the same packet.
pub fn written_links_are_read()
    ensures { WrittenLinksAreRead }
{
    ttx_code::laws::words_are_read();
    ttx_code::laws::words_are_words();
    ttx_packet::laws::address_is_read_back();
    ttx_header::laws::written_words_are_read();
    ttx_header::laws::read_numbers_are_numbers();
    ttx_header::laws::read_bytes_are_readable();
}
