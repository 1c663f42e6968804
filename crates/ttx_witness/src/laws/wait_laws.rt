//! Laws of how long viewers wait.

ghost use Rattle.ttx_witness.specs.wait_times.ItemWaits.{PageIsGreatest};
ghost use Rattle.ttx_witness.specs.laws.WaitLaws.{DeadlineIsGreatest, LossesAreTold};

/// If no slot is bad, the deadline of the certificate that is found is the greatest of the pages' deadlines.
pub fn deadline_is_greatest()
    ensures { DeadlineIsGreatest }
{
    ttx_page::laws::each_slot_turns();
    ttx_page::laws::pages_keep_their_rules();
    ttx_page::laws::pages_have_six_links();
    ttx_page::laws::blank_is_tested();
    crate::laws::cycle_laws::sure_starts_are_found();
    crate::laws::cycle_laws::least_limit_is_found();
}

/// The deadline of a page that is sent unchanged is the greatest of its items' deadlines. It has no deadline if and only if one of
/// the items has none.
pub fn page_is_greatest()
    ensures { PageIsGreatest }
{
    ttx_page::laws::each_slot_turns();
    ttx_page::laws::pages_keep_their_rules();
    ttx_page::laws::pages_have_six_links();
    ttx_page::laws::blank_is_tested();
    crate::laws::cycle_laws::sure_starts_are_found();
    crate::laws::cycle_laws::least_limit_is_found();
}

/// A transmission that is counted as near its header, or as cut off, is near or cut off in the stream too.
pub fn losses_are_told()
    ensures { LossesAreTold }
{}
