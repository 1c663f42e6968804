//! The laws of schedules. A call does nothing at run time, and gives the law to the caller's proof.

ghost use Rattle.ttx_playout.specs.Laws.{SentSoFarIsSeen, HeadEndIsSeen, HandedOnIsSeen, AlwaysSeen, LatestIsSeen, HandedOnIsSeenOnAir, TimedIsSeen};
ghost use Rattle.ttx_playout.specs.Laws.{SentSoFarIsShown, HeadEndIsShown, HandedOnIsShown, HandedOnIsShownOnAir, ThroughIsWhile, ThroughGoesOn};
ghost use Rattle.ttx_playout.specs.Laws.{AcrossIsDecided, CountedIsHandedOn, EachScheduleRuns, MoreIsSame, PastStays};

/// A page of the part of a schedule that a head-end sends, from some slot on and up to now, is seen after a deadline, whatever was sent before.
pub fn sent_so_far_is_seen()
    ensures { SentSoFarIsSeen }
{
    ttx_page::laws::each_slot_turns();
    ttx_proof::laws::agreeing_streams_bring();
    ttx_proof::laws::agreeing_streams_carry();
    ttx_proof::laws::accepted_is_carried();
    ttx_proof::laws::common_is_carried();
    ttx_proof::laws::carried_is_seen();
}

/// The same for all that a head-end has sent.
pub fn head_end_is_seen()
    ensures { HeadEndIsSeen }
{
    sent_so_far_is_seen();
}

/// A page is seen by each permitted receiver as long as it stays, through each change.
pub fn handed_on_is_seen()
    ensures { HandedOnIsSeen }
{
    sent_so_far_is_seen();
}

/// A page of every edition is seen by the deadline after tuning, and from then on.
pub fn always_seen()
    ensures { AlwaysSeen }
{
    handed_on_is_seen();
}

/// Each page of the last edition is seen by the deadline after tuning or after the edition began, and from then on.
pub fn latest_is_seen()
    ensures { LatestIsSeen }
{
    handed_on_is_seen();
}

/// A page is seen from the air as long as it stays, whatever the head-end's clock says.
pub fn handed_on_is_seen_on_air()
    ensures { HandedOnIsSeenOnAir }
{
    ttx_page::laws::each_slot_turns();
    ttx_send::laws::air_is_received();
    handed_on_is_seen();
}

/// The same for what a schedule sends with the time in each slot.
pub fn timed_is_seen()
    ensures { TimedIsSeen }
{
    ttx_page::laws::each_slot_turns();
    ttx_send::laws::timed_is_sent_as();
    handed_on_is_seen_on_air();
}

/// Receivers that show pages late show a page that a head-end sends of a schedule, if another page number follows it in time.
pub fn sent_so_far_is_shown()
    ensures { SentSoFarIsShown }
{
    ttx_late::laws::runs_are_shown();
    ttx_page::laws::each_slot_turns();
    ttx_receiver::laws::steps_keep_memories();
    ttx_proof::laws::agreeing_streams_are_received();
    ttx_proof::laws::agreeing_streams_bring();
    ttx_proof::laws::agreeing_streams_carry();
    ttx_proof::laws::accepted_is_carried();
    ttx_proof::laws::common_is_carried();
}

/// The same for all that a head-end has sent.
pub fn head_end_is_shown()
    ensures { HeadEndIsShown }
{
    sent_so_far_is_shown();
}

/// Receivers that show pages late show a page that stays, if another page number follows each of its headers in time.
pub fn handed_on_is_shown()
    ensures { HandedOnIsShown }
{
    sent_so_far_is_shown();
}

/// The same on the air.
pub fn handed_on_is_shown_on_air()
    ensures { HandedOnIsShownOnAir }
{
    ttx_page::laws::each_slot_turns();
    ttx_send::laws::air_is_received();
    handed_on_is_shown();
}

/// The laws are not empty: each schedule has a reception within the error rule, and each receiver has a run over it.
pub fn each_schedule_runs()
    ensures { EachScheduleRuns }
{
    ttx_page::laws::each_slot_turns();
    ttx_page::laws::each_list_runs();
    ttx_page::laws::exact_is_received();
}

/// One more period of the last edition does not change what is sent.
pub fn more_is_same()
    ensures { MoreIsSame }
{}

/// A further edition does not change what was sent before.
pub fn past_stays()
    ensures { PastStays }
{}

/// The last header of the magazine before a change and the first one after it decide whether a page is followed across the change.
pub fn across_is_decided()
    ensures { AcrossIsDecided }
{}

/// If the late verdict accepts the first edition and each change, each page is followed in time while it stays.
pub fn through_is_while()
    ensures { ThroughIsWhile }
{}

/// After a change to a next edition that it accepts, this still holds.
pub fn through_goes_on()
    ensures { ThroughGoesOn }
{}

/// A schedule stays handed on if each next edition is accepted after the one before has been sent for enough periods.
pub fn counted_is_handed_on()
    ensures { CountedIsHandedOn }
{}
