//! Laws of cycles in which each item has a sure run.

ghost use Rattle.ttx_witness.specs.laws.SureItems.{AllSureHaveStarts, SureItemsAreAccepted};

/// An item that is sent, and that a receiver never may miss, has a sure run.
pub fn all_sure_have_starts()
    ensures { AllSureHaveStarts }
{
    ttx_page::laws::each_slot_turns();
    ttx_page::laws::streams_move();
}

/// If all is sent unchanged and each item that a viewer sees has a sure run, some certificate is accepted.
pub fn sure_items_are_accepted()
    ensures { SureItemsAreAccepted }
{
    ttx_page::laws::each_slot_turns();
    ttx_page::laws::streams_move();
    ttx_page::laws::owners_are_near();
}
