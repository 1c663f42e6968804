//! The laws of an airing. A call costs nothing and gives the caller's proof the law.

ghost use Rattle.ttx_air.specs.Laws.{AirIsSeen, AirIsShown, AiringIsSeen, AiringIsShown, EditionsAreTaken, EndingsAreDecided};

use crate::newsroom::Newsroom;

/// Each page that stays is seen from what went out, a deadline after tuning or after the page came, by each permitted receiver.
pub fn air_is_seen()
    ensures { AirIsSeen }
{
    ttx_page::laws::each_slot_turns();
    ttx_send::laws::timed_is_sent_as();
    ttx_send::laws::air_is_received();
    ttx_playout::laws::sent_so_far_is_seen();
}

/// The same for receivers that show a page late, if the page is followed by another page number in time.
pub fn air_is_shown()
    ensures { AirIsShown }
{
    ttx_page::laws::each_slot_turns();
    ttx_send::laws::timed_is_sent_as();
    ttx_send::laws::air_is_received();
    ttx_playout::laws::sent_so_far_is_shown();
}

/// The same of what a call of `air` has sent.
pub fn airing_is_seen<N: Newsroom>()
    ensures { AiringIsSeen N.gives }
{
    air_is_seen();
}

/// The same for receivers that show a page late, if the call served them.
pub fn airing_is_shown<N: Newsroom>()
    ensures { AiringIsShown N.gives }
{
    air_is_shown();
    editions_are_taken();
    ttx_playout::laws::through_is_while();
    ttx_playout::laws::through_goes_on();
}

/// The later editions of the schedule are those that took over, in their order.
pub fn editions_are_taken()
    ensures { EditionsAreTaken }
{}

/// Which editions take over, and when, follows from what the newsroom answers, where there is memory to judge them.
pub fn endings_are_decided()
    ensures { EndingsAreDecided }
{
    ttx_proof::laws::verdicts_are_one();
}
