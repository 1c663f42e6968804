//! A law of whole blocks. A call costs nothing and gives the caller's proof the law.

ghost use Rattle.ttx_plan.specs.WholeBlocks.{PlannedBlocksAreWhole};

/// Under each header of a page of a planned cycle comes each item that is sent to receivers of the class, and no receiver may miss it.
pub fn planned_blocks_are_whole()
    ensures { PlannedBlocksAreWhole }
{
    ttx_code::laws::words_are_read();
    ttx_code::laws::words_are_words();
    ttx_packet::laws::empty_slots_are_empty();
    ttx_packet::laws::address_is_read_back();
    ttx_header::laws::written_headers_are_read();
    ttx_info::laws::written_infos_are_read();
    ttx_page::laws::each_slot_turns();
    ttx_links::laws::written_links_are_read();
    crate::laws::planned_cycles_keep_their_rules();
}
