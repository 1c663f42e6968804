//! Laws of packet files. Calling one does nothing at run time; it gives the caller's proof the law.

ghost use Rattle.ttx_cycle.specs.ReadingLaws.{FilesAreJudgedOnce, LongestIsNotTooLong};
ghost use Rattle.ttx_cycle.specs.SlotLaws.{NoneIsGiven, OneMoreIsGiven, AllAreGiven, FaultIsTheFiles};

/// Two answers about the same bytes agree, and a file of 65,536 slots is not too long.
pub fn files_are_judged_once()
    ensures once { FilesAreJudgedOnce }
    ensures longest { LongestIsNotTooLong }
{}

/// The slots that a `SlotReader` returns are those of the packet file, and its fault is the fault of the whole file.
pub fn slots_are_given()
    ensures none { NoneIsGiven }
    ensures more { OneMoreIsGiven }
    ensures all { AllAreGiven }
    ensures fault { FaultIsTheFiles }
{}
