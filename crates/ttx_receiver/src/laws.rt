//! Laws of receivers. A call does nothing at run time, and gives the law to the caller's proof.

ghost use Rattle.ttx_receiver.specs.Laws.{StepsKeepMemories, RunHoldsItsItem};
ghost use Rattle.ttx_receiver.specs.Starving.{StarvedStaysWrong, StarvedIsScripted};
ghost use Rattle.ttx_receiver.specs.Staying.{ShownStaysShown};
ghost use Rattle.ttx_receiver.specs.Touching.{StepTouches, IdleStepsTouchNothing};

/// A step turns a memory into a memory: all values stay in their ranges.
pub fn steps_keep_memories()
    ensures { StepsKeepMemories }
{
    ttx_header::laws::headers_have_fields();
}

/// An item that comes between two slots is held from the second slot on.
pub fn run_holds_its_item()
    ensures { RunHoldsItsItem }
{
    ttx_packet::laws::kind_is_kept();
    ttx_packet::laws::rows_are_numbered();
    ttx_header::laws::header_is_kept();
    ttx_links::laws::links_are_kept();
    ttx_code::laws::odd_bytes_under_one_wrong_bit();
    ttx_code::laws::odd_bytes_hold_their_codes();
}

/// If no sure run of an item comes, a receiver that takes every choice never gets the item right.
pub fn starved_stays_wrong()
    ensures { StarvedStaysWrong }
{
    ttx_packet::laws::kind_is_kept();
    ttx_packet::laws::rows_are_numbered();
    ttx_header::laws::header_is_kept();
    ttx_links::laws::links_are_kept();
    ttx_code::laws::odd_bytes_under_one_wrong_bit();
    ttx_code::laws::odd_bytes_hold_their_codes();
    ttx_page::laws::page_is_shown();
    ttx_page::laws::runs_go_on();
}

/// The reception and the choices of such a receiver, as hits and as a script.
pub fn starved_is_scripted()
    ensures { StarvedIsScripted }
{
    ttx_page::laws::choices_are_choices();
}

/// A receiver that shows a page continues to show it if nothing else is sent of the page.
pub fn shown_stays_shown()
    ensures { ShownStaysShown }
{
    ttx_packet::laws::kind_is_kept();
    ttx_packet::laws::rows_are_numbered();
    ttx_header::laws::header_is_kept();
    ttx_links::laws::links_are_kept();
    ttx_code::laws::odd_bytes_under_one_wrong_bit();
    ttx_code::laws::odd_bytes_hold_their_codes();
}

/// A permitted step changes no more of what is shown than its packet may change.
pub fn step_touches()
    ensures { StepTouches }
{}

/// A permitted step after which the receiver is not storing changes nothing of what is shown.
pub fn idle_steps_touch_nothing()
    ensures { IdleStepsTouchNothing }
{}
