//! Laws of verdicts. A call does nothing at run time, and gives the law to the caller's proof.

ghost use Rattle.ttx_certify.specs.AllReasons.{ReasonsAreTrue};
ghost use Rattle.ttx_certify.specs.VerdictLaws.{CertifiedIsShown, VerdictsAreOne, SomeVerdictIsRight};

/// After exactly D times L slots a receiver has the View of each page of a cycle that is certified with D fields of L slots, whatever
/// its first slot and former memory.
pub fn certified_is_shown()
    ensures { CertifiedIsShown }
{
    crate::laws::accepted_is_seen();
    ttx_page::laws::memories_are_former();
}

/// For a cycle, pages and a certificate, at most one verdict is right.
pub fn verdicts_are_one()
    ensures { VerdictsAreOne }
{
    ttx_witness::cycle_laws::coverage_is_decided();
    ttx_witness::fault_laws::steady_has_no_fault();
    ttx_witness::judging_laws::items_are_judged();
}

/// For each cycle, pages and certificate, some verdict is right. This does not depend on the memory needed to find it.
pub fn some_verdict_is_right()
    ensures { SomeVerdictIsRight }
{
    ttx_witness::cycle_laws::coverage_is_decided();
    ttx_witness::fault_laws::steady_has_no_fault();
    ttx_witness::judging_laws::items_are_judged();
    ttx_witness::judging_laws::headers_are_judged();
    ttx_witness::judging_laws::transmissions_are_listed();
    ttx_page::laws::each_slot_turns();
    ttx_page::laws::streams_move();
}

/// A page has a first reason exactly if some reason is true of it.
pub fn reasons_are_true()
    ensures { ReasonsAreTrue }
{
    ttx_witness::cycle_laws::coverage_is_decided();
    ttx_witness::fault_laws::steady_has_no_fault();
    ttx_witness::judging_laws::items_are_judged();
}
