//! The laws of planned cycles. A call does nothing at run time, and gives the laws to the caller's proof.

ghost use Rattle.ttx_plan.specs.Laws.{PlannedHeadersAreOwn, PlannedIsClean, PlannedIsSure, PlannedRowsAreOwn};

/// In a cycle that carries a service: no slot turns into another packet if one bit in each byte is wrong; each header is a page's own,
/// with its control bits and characters, or a time-filling one; each row carries the characters of the page whose header is the latest of
/// its magazine; and no receiver may miss a row or an X/27/0 under its header.
pub fn planned_cycles_keep_their_rules()
    ensures clean { PlannedIsClean }
    ensures headers { PlannedHeadersAreOwn }
    ensures rows { PlannedRowsAreOwn }
    ensures sure { PlannedIsSure }
{
    ttx_code::laws::words_are_read();
    ttx_code::laws::words_are_words();
    ttx_packet::laws::empty_slots_are_empty();
    ttx_packet::laws::address_is_read_back();
    ttx_header::laws::written_headers_are_read();
    ttx_info::laws::written_infos_are_read();
    ttx_page::laws::each_slot_turns();
}
