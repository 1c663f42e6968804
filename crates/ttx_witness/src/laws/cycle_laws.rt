//! Laws of certificates over cycles.

ghost use Rattle.ttx_witness.specs.laws.CycleLaws.{CoverageIsDecided, FirstsAreFound, FurtherStartsCover, SureStartsAreFound, LeastLimitIsFound};

/// One pass over a period decides whether the named starts cover an item.
pub fn coverage_is_decided()
    ensures { CoverageIsDecided }
{}

/// The start that a pass reports as bad, and the one that it reports as late, are the first ones.
pub fn firsts_are_found()
    ensures { FirstsAreFound }
{}

/// Naming a further start with a sure run keeps a covered item covered.
pub fn further_starts_cover()
    ensures { FurtherStartsCover }
{}

/// A search finds exactly the starts of sure runs.
pub fn sure_starts_are_found()
    ensures { SureStartsAreFound }
{}

/// A search finds the least limit with which any named starts cover the item.
pub fn least_limit_is_found()
    ensures { LeastLimitIsFound }
{}
