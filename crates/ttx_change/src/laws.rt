//! The law of changes. A call costs nothing and gives the caller's proof the law.

ghost use Rattle.ttx_change.specs.OldOrNew.{ChangesAreWhole};
ghost use Rattle.ttx_change.specs.Scheduled.{SchedulesAreWhole};

/// Through an accepted change after which nothing of an old page is still to come, a receiver that is tuned to a page number and shows a
/// page only where it ends shows one of the old or of the new pages of the number, whole, if both cycles send them whole.
pub fn changes_are_whole()
    ensures { ChangesAreWhole }
{
    ttx_subpages::laws::listed_blocks_are_seen();
    ttx_page::laws::each_slot_turns();
    ttx_page::laws::streams_move();
    ttx_page::laws::runs_are_unique();
    ttx_page::laws::steady_sends_its_own();
    ttx_page::laws::owners_are_unique();
    ttx_page::laws::owners_come_first();
    ttx_page::laws::owners_dont_fall();
    ttx_page::laws::owners_are_near();
    ttx_page::laws::cycles_repeat();
}

/// The same through all changes of a schedule: what is shown is a page of one edition, whole.
pub fn schedules_are_whole()
    ensures { SchedulesAreWhole }
{
    ttx_subpages::laws::listed_blocks_are_seen();
    ttx_page::laws::each_slot_turns();
    ttx_page::laws::streams_move();
    ttx_page::laws::runs_are_unique();
    ttx_page::laws::steady_sends_its_own();
    ttx_page::laws::owners_are_unique();
    ttx_page::laws::owners_come_first();
    ttx_page::laws::owners_dont_fall();
    ttx_page::laws::owners_are_near();
    ttx_page::laws::cycles_repeat();
}
