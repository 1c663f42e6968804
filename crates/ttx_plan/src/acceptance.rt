//! The law that planned cycles have accepted certificates. A call does nothing at run time, and gives the law to the caller's proof.

ghost use Rattle.ttx_plan.specs.Acceptance.{PlannedIsAccepted, PlannedIsFound, PlannedIsSteady, PlannedItemsAreSent, PlannedLinksAreOwn};

/// In a planned cycle each X/27/0 carries the links of the page whose header is the latest of its magazine; each page has a header, and
/// each of its items that is sent to the class is transmitted; each page is sent unchanged; for each repeat count some certificate is
/// accepted, and the search finds the least deadline.
pub fn planned_cycles_are_accepted()
    ensures links { PlannedLinksAreOwn }
    ensures sent { PlannedItemsAreSent }
    ensures steady { PlannedIsSteady }
    ensures accepted { PlannedIsAccepted }
    ensures found { PlannedIsFound }
{
    ttx_code::laws::words_are_read();
    ttx_code::laws::words_are_words();
    ttx_packet::laws::empty_slots_are_empty();
    ttx_packet::laws::address_is_read_back();
    ttx_header::laws::written_headers_are_read();
    ttx_info::laws::written_infos_are_read();
    ttx_page::laws::each_slot_turns();
    ttx_links::laws::written_links_are_read();
    ttx_page::laws::steady_sends_its_own();
    ttx_page::laws::blank_is_tested();
    ttx_witness::sure_items::all_sure_have_starts();
    ttx_witness::sure_items::sure_items_are_accepted();
}
