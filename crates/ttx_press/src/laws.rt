//! The laws of airings from texts. A call costs nothing and gives the caller's proof the law.

ghost use Rattle.ttx_press.specs.Turns.{TurnsSendTheSame};
ghost use Rattle.ttx_press.specs.Whole.{AiringsAreWhole};

use ttx_air::TextSource;

/// What is sent of a service for late receivers while its author changes it is never mixed: a receiver that shows a page only where it ends shows
/// a page of one edition, whole, however often the pages change.
pub fn airings_are_whole<S: TextSource>()
    ensures { AiringsAreWhole S.reads }
{
    ttx_air::laws::editions_are_taken();
    ttx_change::laws::schedules_are_whole();
}

/// A cycle that begins at another of its slots is the same cycle once it repeats: its slot `i` is the cycle's slot `i + at`.
pub fn turns_send_the_same()
    ensures { TurnsSendTheSame }
{
    ttx_page::laws::each_slot_turns();
}
