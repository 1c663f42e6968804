//! The law of cycles that are planned for receivers that show a page late. A call does nothing at run time, and gives the law to the
//! caller's proof.

ghost use Rattle.ttx_plan.specs.Following.{PlannedIsFollowed};

/// In such a cycle each page is followed by another page number: when the cycle repeats, the next header of its magazine after each of
/// its headers has another page number.
pub fn late_cycles_are_followed()
    ensures { PlannedIsFollowed }
{
    ttx_code::laws::words_are_read();
    ttx_code::laws::words_are_words();
    ttx_packet::laws::empty_slots_are_empty();
    ttx_packet::laws::address_is_read_back();
    ttx_header::laws::written_headers_are_read();
    ttx_info::laws::written_infos_are_read();
    ttx_page::laws::each_slot_turns();
}
