//! Laws of the faults of pages.

ghost use Rattle.ttx_witness.specs.faults.Faults.{SteadyHasNoFault};

/// A page has no fault if and only if it is steady.
pub fn steady_has_no_fault()
    ensures { SteadyHasNoFault }
{}
