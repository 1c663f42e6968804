//! The laws of counter-runs. A call does nothing at run time, and gives the law to the caller's proof.

ghost use Rattle.ttx_counter.specs.CounterReading.{AcceptedCounterTextsAreWritten, WrittenCounterTextsAreRead};
ghost use Rattle.ttx_counter.specs.Laws.{CounterRunsRefute, RefutedIsNotAccepted};
ghost use Rattle.ttx_counter.specs.Sources.{PlainRunsAreCounterRuns, AbsentPagesAreWrong, SteadyPagesStay, PeriodsRepeat};
ghost use Rattle.ttx_counter.specs.Streaks.{StreaksDecide};

/// A counter-run refutes that its page is seen.
pub fn counter_runs_refute()
    ensures { CounterRunsRefute }
{
    ttx_page::laws::scripted_runs();
}

/// Then no certificate of class any with its lines, repeat count and deadline is accepted.
pub fn refuted_is_not_accepted()
    ensures { RefutedIsNotAccepted }
{
    counter_runs_refute();
    ttx_certify::laws::accepted_is_seen();
}

/// Of any k successive transmissions of a text byte one is right, if and only if each streak of wrong ones stays below k.
pub fn streaks_decide()
    ensures { StreaksDecide }
{}

/// A run from slot 0 on, without hits and choices, is a counter-run if it ends in a wrong View.
pub fn plain_runs_are_counter_runs()
    ensures { PlainRunsAreCounterRuns }
{
    ttx_page::laws::exact_is_received();
    ttx_page::laws::each_slot_turns();
}

/// If no header of the page is sent, a receiver that is not storing keeps links that differ from the page's.
pub fn absent_pages_are_wrong()
    ensures { AbsentPagesAreWrong }
{}

/// A page that is sent unchanged stays in the View of a receiver that holds it at first, takes no choice and receives no error.
pub fn steady_pages_stay()
    ensures { SteadyPagesStay }
{
    ttx_page::laws::page_is_shown();
    ttx_page::laws::scripted_runs();
    ttx_page::laws::steady_sends_its_own();
    ttx_receiver::laws::shown_stays_shown();
    ttx_render::laws::showing_is_seeing();
}

/// If a period leaves the memory as it was, any number of periods does.
pub fn periods_repeat()
    ensures { PeriodsRepeat }
{
    ttx_page::laws::cycles_repeat();
}

/// An accepted text is the text that is written for its counter-run. So each counter-run has one text.
pub fn accepted_texts_are_written()
    ensures { AcceptedCounterTextsAreWritten }
{}

/// The text that is written for a counter-run is read back as this counter-run.
pub fn written_texts_are_read()
    ensures { WrittenCounterTextsAreRead }
{}
