//! The laws of the headline, and the law of two readings of one file. A call does nothing at run time, and gives the law to the
//! caller's proof.

ghost use Rattle.ttx_certify.specs.CertifyingPasses.{PassesAreFiles};
ghost use Rattle.ttx_certify.specs.Laws.{RunsAreSeen, AcceptedIsSeen, EachTuningRuns};

/// In any stream: if each item that a viewer needs comes between two slots, the page is seen from the second slot on.
pub fn runs_are_seen()
    ensures { RunsAreSeen }
{
    ttx_receiver::laws::run_holds_its_item();
    ttx_render::laws::showing_is_seeing();
}

/// Each permitted receiver sees the pages of an accepted cycle by the deadline and ever after.
pub fn accepted_is_seen()
    ensures { AcceptedIsSeen }
{
    runs_are_seen();
    ttx_page::laws::each_slot_turns();
    ttx_page::laws::streams_move();
    ttx_page::laws::runs_are_unique();
    ttx_page::laws::steady_sends_its_own();
}

/// From each tuning slot, some reception is within the error rule, and each kind of receiver has a run over it.
pub fn each_tuning_runs()
    ensures { EachTuningRuns }
{
    ttx_page::laws::each_slot_turns();
    ttx_page::laws::each_list_runs();
    ttx_page::laws::exact_is_received();
}

/// If both packet files are the same, the verdict and its line are those that `certify_files` promises for this file.
pub fn passes_are_files()
    ensures { PassesAreFiles }
{}
