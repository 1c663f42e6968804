//! Laws of packet 8/30 format 1. Calling one does nothing at run time; it gives the caller's proof the law.

ghost use Rattle.ttx_links.specs.Sets.{IsLink};
ghost use Rattle.ttx_info.specs.Laws.{SaidInfosAreRead, ReadInfosAreSaid, WrittenInfosAreRead};

use crate::fields::Info;

/// The initial page of an `Info`, if there is one, is a target in range.
pub fn initial_page_is_a_target(info: &Info)
    ensures { IsLink info.now.initial }
{
    ttx_links::laws::link_leads_to_a_target(info.initial());
}

/// 42 bytes that encode fields are read as these fields.
pub fn said_infos_are_read()
    ensures { SaidInfosAreRead }
{
    ttx_code::laws::odd_bytes_hold_their_codes();
    ttx_links::laws::said_link_is_read();
}

/// 42 bytes that are read as fields encode these fields.
pub fn read_infos_are_said()
    ensures { ReadInfosAreSaid }
{
    ttx_links::laws::read_link_is_said();
}

/// The bytes written for fields are clean, have the kind of packet 8/30, encode the fields, and are read as the same fields.
pub fn written_infos_are_read()
    ensures { WrittenInfosAreRead }
{
    ttx_code::laws::words_are_read();
    ttx_code::laws::odd_bytes_hold_their_codes();
    ttx_packet::laws::address_is_read_back();
    ttx_links::laws::said_link_is_read();
    ttx_links::laws::written_link_is_said();
}
