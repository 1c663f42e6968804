//! Laws of completeness, for receivers of class any. A call does nothing at run time, and gives the law to the caller's proof.

ghost use Rattle.ttx_counter.specs.Completeness.{CoveredOrStarved, StartsAreJudged, StarvedIsNotCovered, StarvedIsUnseen, StarvedHasCounter, StarvesInPeriod};
ghost use Rattle.ttx_counter.specs.Completeness.{StarvingIsCounterRun, CounterIsUnseen, FullestNamesAll, SeenIsCovered, SeenExactlyWhereAccepted};
ghost use Rattle.ttx_counter.specs.Completeness.{FoundIsLeastSeen, NoneFoundIsUnseen};

/// Either its sure runs cover an item, or from some tuning slot on none of them comes in time.
pub fn covered_or_starved()
    ensures { CoveredOrStarved }
{
    ttx_page::laws::each_slot_turns();
    ttx_page::laws::streams_move();
    ttx_page::laws::cycles_repeat();
    ttx_page::laws::owners_are_unique();
    ttx_page::laws::owners_dont_fall();
    ttx_page::laws::runs_rise();
    ttx_witness::cycle_laws::coverage_is_decided();
    ttx_witness::cycle_laws::firsts_are_found();
}

/// If all sure starts of an item are named, one pass over a period finds from which slot on a receiver is starved of it, if any.
pub fn starts_are_judged()
    ensures { StartsAreJudged }
{
    ttx_page::laws::each_slot_turns();
    ttx_page::laws::streams_move();
    ttx_page::laws::cycles_repeat();
    ttx_page::laws::owners_are_unique();
    ttx_page::laws::owners_dont_fall();
    ttx_page::laws::runs_rise();
    ttx_witness::cycle_laws::coverage_is_decided();
    ttx_witness::cycle_laws::firsts_are_found();
}

/// If from some tuning slot on no sure run of an item comes in time, no certificate with these numbers covers it.
pub fn starved_is_not_covered()
    ensures { StarvedIsNotCovered }
{
    ttx_page::laws::each_slot_turns();
    ttx_page::laws::streams_move();
    ttx_page::laws::runs_are_unique();
    ttx_page::laws::steady_sends_its_own();
}

/// A receiver that is starved of an item does not have the page's View.
pub fn starved_is_unseen()
    ensures { StarvedIsUnseen }
{
    ttx_page::laws::page_is_shown();
    ttx_render::laws::wrong_letter_is_seen();
}

/// A steady page of a clean cycle has a counter-run if one of its items does not come in time.
pub fn starved_has_counter()
    ensures { StarvedHasCounter }
{
    ttx_page::laws::each_slot_turns();
    ttx_page::laws::steady_sends_its_own();
    ttx_receiver::laws::starved_stays_wrong();
    starved_is_unseen();
}

/// If no sure run comes in time from some tuning slot on, none does from some slot of the first period on.
pub fn starves_in_period()
    ensures { StarvesInPeriod }
{
    ttx_page::laws::each_slot_turns();
    ttx_page::laws::streams_move();
}

/// The run of a starved receiver is a counter-run.
pub fn starving_is_counter_run()
    ensures { StarvingIsCounterRun }
{
    ttx_page::laws::each_slot_turns();
    ttx_page::laws::steady_sends_its_own();
    ttx_receiver::laws::starved_stays_wrong();
    ttx_receiver::laws::starved_is_scripted();
    starved_is_unseen();
}

/// A counter-run refutes that a page is seen.
pub fn counter_is_unseen()
    ensures { CounterIsUnseen }
{}

/// The fullest certificate names exactly the starts of all sure runs.
pub fn fullest_names_all()
    ensures { FullestNamesAll }
{
    ttx_witness::cycle_laws::sure_starts_are_found();
}

/// If a steady page of a clean cycle is seen, some certificate with these numbers covers it.
pub fn seen_is_covered()
    ensures { SeenIsCovered }
{
    covered_or_starved();
    starved_has_counter();
    counter_is_unseen();
    fullest_names_all();
}

/// If all pages are sent unchanged: all pages are seen if and only if some certificate with these numbers is accepted.
pub fn seen_exactly_where_accepted()
    ensures { SeenExactlyWhereAccepted }
{
    covered_or_starved();
    starved_has_counter();
    counter_is_unseen();
    fullest_names_all();
    ttx_certify::laws::accepted_is_seen();
}

/// The deadline that `find` finds is the least with which all pages are seen.
pub fn found_is_least_seen()
    ensures { FoundIsLeastSeen }
{
    seen_exactly_where_accepted();
    ttx_certify::laws::accepted_is_seen();
}

/// If `find` finds no deadline, there is none with which all pages are seen.
pub fn none_found_is_unseen()
    ensures { NoneFoundIsUnseen }
{
    seen_exactly_where_accepted();
}
