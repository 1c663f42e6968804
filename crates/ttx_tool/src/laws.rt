//! Laws of what the commands answer, also where they follow one another. A call costs nothing and gives the caller's proof the law.

ghost use Rattle.ttx_tool.specs.PlannedFiles.{AskedIsCertified, FoundIsCertified, LateIsCertified, PlannedFilesAreFound};
ghost use Rattle.ttx_tool.specs.PlanLaws.{PlannedIsNotTooLong};

/// In a packet file that `plan` writes for the text of a service, `find` finds a deadline for the class of the plan and each
/// repeat count.
pub fn planned_is_found()
    ensures { PlannedFilesAreFound }
{
    ttx_plan::acceptance::planned_cycles_are_accepted();
}

/// To a certificate that `find` finds with a deadline, `certify` says yes.
pub fn found_is_certified()
    ensures { FoundIsCertified }
{
    ttx_witness::certificate_laws::written_texts_are_read();
}

/// To a certificate that `find` gives the deadline that is asked for, `certify` says yes.
pub fn asked_is_certified()
    ensures { AskedIsCertified }
{
    ttx_witness::certificate_laws::written_texts_are_read();
}

/// Where the packet file is one of a plan for receivers that show a page late, `certify --late` says yes to a certificate that `find` finds with
/// a deadline.
pub fn late_is_certified()
    ensures { LateIsCertified }
{
    ttx_plan::late_cycles::late_cycles_are_followed();
    ttx_late::laws::some_gap_is_greatest();
    ttx_late::laws::accepted_is_shown();
    ttx_witness::certificate_laws::written_texts_are_read();
}

/// No text of a service both has a plan and is refused as too long.
pub fn planned_is_not_too_long()
    ensures { PlannedIsNotTooLong }
{}
