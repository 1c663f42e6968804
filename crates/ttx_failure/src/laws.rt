//! The choices that are named.

ghost use Rattle.ttx_failure.specs.Permitted.{ArePermitted};

/// Each choice that a receiver of a counter-run takes is one that the rules leave to it: a row or links that it misses are of its page's
/// magazine, at most as many slots behind the latest header of the page as a field has.
pub fn choices_are_permitted()
    ensures { ArePermitted }
{}
