//! Laws of receivers that show a page late. A call does nothing at run time, and gives the law to the caller's proof.

ghost use Rattle.ttx_late.specs.Laws.{RunsAreShown, FollowedIsWithin, AcceptedIsShown, NeverFollowedIsUnshown, EachListRunsLate};
ghost use Rattle.ttx_late.specs.Laws.{SomeGapIsGreatest};

/// In any stream: if each needed item comes between two slots, the page is shown soon after the second slot.
pub fn runs_are_shown()
    ensures { RunsAreShown }
{
    ttx_certify::laws::runs_are_seen();
    ttx_render::laws::contents_decide();
    ttx_packet::laws::kind_is_kept();
    ttx_header::laws::header_is_kept();
    ttx_page::laws::runs_go_on();
}

/// In the stream of a cycle, the next header of the magazine comes within the length of the cycle.
pub fn followed_is_within()
    ensures { FollowedIsWithin }
{
    ttx_page::laws::cycles_repeat();
}

/// A page of an accepted cycle whose headers are followed by another page number within `gap` slots is shown from `gap` slots after the
/// deadline on.
pub fn accepted_is_shown()
    ensures { AcceptedIsShown }
{
    runs_are_shown();
    ttx_page::laws::each_slot_turns();
    ttx_page::laws::streams_move();
    ttx_page::laws::runs_are_unique();
    ttx_page::laws::steady_sends_its_own();
}

/// If a page is never followed by another page number, some receiver never shows it.
pub fn never_followed_is_unshown()
    ensures { NeverFollowedIsUnshown }
{
    ttx_packet::laws::kind_is_kept();
    ttx_header::laws::header_is_kept();
}

/// Over every list of slots, receivers that show a page late have a run.
pub fn each_list_runs_late()
    ensures { EachListRunsLate }
{}

/// If each page of a cycle is followed by another page number, some gap is the greatest one.
pub fn some_gap_is_greatest()
    ensures { SomeGapIsGreatest }
{
    ttx_page::laws::each_slot_turns();
    ttx_page::laws::streams_move();
}
