//! The laws of the service of a cycle. A call does nothing at run time, and gives the law to the caller's proof.

ghost use Rattle.ttx_extract.specs.OnlyService.{OnlyOneIsSent, BlamedHasNone, AnswersAreOne};

/// Two services that say what a cycle sends first are the same.
pub fn one_service_is_sent()
    ensures { OnlyOneIsSent }
{
    ttx_witness::judging_laws::transmissions_are_listed();
}

/// If a cycle is refused because a page is not sent unchanged, it has no service.
pub fn blamed_cycles_have_no_service()
    ensures { BlamedHasNone }
{
    ttx_witness::judging_laws::transmissions_are_listed();
}

/// Two answers for one cycle are of one kind, except for lack of memory: so each kind is given exactly where its clause holds.
pub fn answers_are_one()
    ensures { AnswersAreOne }
{
    ttx_witness::judging_laws::transmissions_are_listed();
}
