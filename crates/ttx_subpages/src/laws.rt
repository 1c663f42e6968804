//! The laws of subpages. A call costs nothing and gives the caller's proof the law.

ghost use Rattle.ttx_subpages.specs.PlannedSubpages.{PlannedSendWhole, PlannedAreSeen};
ghost use Rattle.ttx_subpages.specs.RepeatTwo.{IsMixed};
ghost use Rattle.ttx_subpages.specs.Laws.{ListedBlocksAreSeen, BlocksAreSeen, AcceptedAreSeen, AcceptedAreSeenAgain};
ghost use Rattle.ttx_subpages.specs.Laws.{BlocksAreHeld, AcceptedAreHeld, StaysAreShown, EachListRunsEnded};

/// In any stream, whose pages may change: from the end of a block of a number on a receiver that shows a page only where it ends shows one
/// of the pages in force since, whole.
pub fn listed_blocks_are_seen()
    ensures { ListedBlocksAreSeen }
{
    ttx_certify::laws::runs_are_seen();
    ttx_packet::laws::kind_is_kept();
    ttx_header::laws::header_is_kept();
    ttx_receiver::laws::steps_keep_memories();
}

/// In any stream: subpages of a number that are sent whole are seen in turn.
pub fn blocks_are_seen()
    ensures { BlocksAreSeen }
{
    ttx_certify::laws::runs_are_seen();
    ttx_packet::laws::kind_is_kept();
    ttx_header::laws::header_is_kept();
    ttx_receiver::laws::steps_keep_memories();
}

/// So are those of an accepted cycle whose pages are followed by other page numbers.
pub fn accepted_are_seen()
    ensures { AcceptedAreSeen }
{
    blocks_are_seen();
    ttx_page::laws::each_slot_turns();
    ttx_page::laws::streams_move();
    ttx_page::laws::runs_are_unique();
    ttx_page::laws::steady_sends_its_own();
}

/// The same for an accepted cycle, within the slots of the subpage's `greatest_interval`, and those to the next header after it.
pub fn accepted_are_seen_again()
    ensures { AcceptedAreSeenAgain }
{
    blocks_are_seen();
    ttx_page::laws::each_slot_turns();
    ttx_page::laws::streams_move();
    ttx_page::laws::runs_are_unique();
    ttx_page::laws::steady_sends_its_own();
}

/// On every permitted receiver a subpage is seen from where its block is whole to the next header of the number, in any stream.
pub fn blocks_are_held()
    ensures { BlocksAreHeld }
{
    ttx_certify::laws::runs_are_seen();
    ttx_receiver::laws::steps_keep_memories();
}

/// The same for an accepted cycle.
pub fn accepted_are_held()
    ensures { AcceptedAreHeld }
{
    blocks_are_held();
    ttx_page::laws::each_slot_turns();
    ttx_page::laws::streams_move();
    ttx_page::laws::runs_are_unique();
    ttx_page::laws::steady_sends_its_own();
}

/// A planned cycle of class any sends each subpage whole.
pub fn planned_send_whole()
    ensures { PlannedSendWhole }
{
    ttx_page::laws::each_slot_turns();
    ttx_plan::laws::planned_cycles_keep_their_rules();
    ttx_plan::whole_blocks::planned_blocks_are_whole();
}

/// So the subpages of a cycle planned with `--late` are seen in turn, if it is accepted.
pub fn planned_are_seen()
    ensures { PlannedAreSeen }
{
    accepted_are_seen();
    planned_send_whole();
}

/// A subpage that is seen in turn is shown from the end of its block for as many slots as the `least_stay` of its number.
pub fn stays_are_shown()
    ensures { StaysAreShown }
{}

/// Each receiver that shows a page only where it ends has a run over each list of slots.
pub fn each_list_runs_ended()
    ensures { EachListRunsEnded }
{}

/// With repeat count 2 what is shown may be a mixture of two subpages: a worked example.
pub fn repeat_two_may_mix()
    ensures { IsMixed }
{
    ttx_page::laws::exact_is_received();
    ttx_render::laws::letter_is_seen();
}
