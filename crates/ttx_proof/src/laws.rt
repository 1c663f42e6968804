//! The laws of splices. A call does nothing at run time, and gives the law to the caller's proof.

ghost use Rattle.ttx_proof.specs.Carried.{AgreeingStreamsBring, AgreeingStreamsCarry, AgreeingStreamsAreReceived};
ghost use Rattle.ttx_proof.specs.Carried.{AcceptedIsCarried, CommonIsCarried, CarriedIsSeen};
ghost use Rattle.ttx_proof.specs.Joining.{JoinedAreListed};
ghost use Rattle.ttx_proof.specs.Meaning.{VerdictsMean, SpliceVerdictsAreOne, SomeSpliceVerdictIsRight};
ghost use Rattle.ttx_proof.specs.Seams.{SeamsAreLeft};
ghost use Rattle.ttx_proof.specs.Laws.{BridgedIsSeen, WalksDecide};

/// If both cycles of a splice are accepted, and its common pages have no seam and are bridged, the joined stream is seen.
pub fn bridged_is_seen()
    ensures { BridgedIsSeen }
{
    ttx_receiver::laws::steps_keep_memories();
    ttx_certify::laws::runs_are_seen();
    ttx_page::laws::each_slot_turns();
    ttx_page::laws::streams_move();
    ttx_page::laws::runs_are_unique();
    ttx_page::laws::steady_sends_its_own();
    ttx_page::laws::owners_are_unique();
    ttx_page::laws::owners_come_first();
    ttx_page::laws::owners_dont_fall();
}

/// One walk over the joined stream decides whether an item of a common page is bridged.
pub fn walks_decide()
    ensures { WalksDecide }
{
    ttx_page::laws::each_slot_turns();
    ttx_page::laws::streams_move();
    ttx_page::laws::cycles_repeat();
    ttx_page::laws::runs_are_unique();
    ttx_page::laws::steady_sends_its_own();
    ttx_page::laws::owners_are_unique();
    ttx_page::laws::owners_come_first();
    ttx_page::laws::owners_dont_fall();
    ttx_page::laws::owners_are_near();
}

/// The part of the joined stream that a walk reads follows from the transmissions of one period on either side.
pub fn joined_are_listed()
    ensures { JoinedAreListed }
{
    ttx_page::laws::each_slot_turns();
    ttx_page::laws::streams_move();
    ttx_page::laws::cycles_repeat();
    ttx_page::laws::runs_are_unique();
    ttx_page::laws::steady_sends_its_own();
    ttx_page::laws::owners_are_unique();
    ttx_page::laws::owners_come_first();
    ttx_page::laws::owners_dont_fall();
    ttx_page::laws::owners_are_near();
}

/// `Yes` means that the joined stream is seen; `No` means that `Yes` is not right.
pub fn verdicts_mean()
    ensures { VerdictsMean }
{
    bridged_is_seen();
}

/// A page has a seam only if the latest header of its magazine before slot 0 is its own, and only before the first new header of the
/// magazine.
pub fn seams_are_left()
    ensures { SeamsAreLeft }
{}

/// Two right verdicts on the same splice are equal.
pub fn verdicts_are_one()
    ensures { SpliceVerdictsAreOne }
{
    verdicts_mean();
    ttx_certify::verdict_laws::verdicts_are_one();
}

/// For each splice some verdict is right. This does not depend on the memory needed to find it.
pub fn some_verdict_is_right()
    ensures { SomeSpliceVerdictIsRight }
{
    seams_are_left();
    walks_decide();
    joined_are_listed();
    ttx_certify::verdict_laws::some_verdict_is_right();
    ttx_witness::judging_laws::transmissions_are_listed();
    ttx_witness::judging_laws::first_period_is_listed();
    ttx_page::laws::each_slot_turns();
}

/// If two streams are the same between two slots, one of them some slots later, both bring the same items of a page there.
pub fn agreeing_streams_bring()
    ensures { AgreeingStreamsBring }
{
    ttx_page::laws::owners_are_unique();
    ttx_page::laws::owners_come_first();
    ttx_page::laws::owners_dont_fall();
}

/// If two streams are the same from a slot on, one of them some slots later, both carry the same pages from there on.
pub fn agreeing_streams_carry()
    ensures { AgreeingStreamsCarry }
{
    ttx_page::laws::owners_are_unique();
    ttx_page::laws::owners_come_first();
    ttx_page::laws::owners_dont_fall();
}

/// If two streams are the same up to the end of a reception, a reception of one within the error rule is one of the other.
pub fn agreeing_streams_are_received()
    ensures { AgreeingStreamsAreReceived }
{}

/// An accepted cycle carries each of its pages, from any tuning slot on.
pub fn accepted_is_carried()
    ensures { AcceptedIsCarried }
{
    ttx_page::laws::each_slot_turns();
    ttx_page::laws::streams_move();
    ttx_page::laws::runs_are_unique();
    ttx_page::laws::steady_sends_its_own();
}

/// An accepted splice carries each page that stays, from any tuning slot on.
pub fn common_is_carried()
    ensures { CommonIsCarried }
{
    ttx_page::laws::each_slot_turns();
    ttx_page::laws::streams_move();
    ttx_page::laws::runs_are_unique();
    ttx_page::laws::steady_sends_its_own();
    ttx_page::laws::owners_are_unique();
    ttx_page::laws::owners_come_first();
    ttx_page::laws::owners_dont_fall();
}

/// A page that is carried is seen, whatever was sent before, and whatever comes after what was received.
pub fn carried_is_seen()
    ensures { CarriedIsSeen }
{
    ttx_certify::laws::runs_are_seen();
    ttx_receiver::laws::steps_keep_memories();
    agreeing_streams_carry();
    agreeing_streams_are_received();
}
