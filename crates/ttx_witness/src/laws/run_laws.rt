//! Laws of repeated transmissions. They depend only on slots, owners and sureness.

ghost use Rattle.ttx_witness.specs.laws.RunLaws.{RunsAreTheStreams, NeighboursDecide, PassDecides, PassFindsTheFirst, SearchIsLeast, MoreStartsCover};

/// The windows of a period's transmissions, taken round the cycle, are the runs of the stream.
pub fn runs_are_the_streams()
    ensures { RunsAreTheStreams }
{}

/// Every tuning slot is served if and only if neighbouring named runs follow one another in time.
pub fn neighbours_decide()
    ensures { NeighboursDecide }
{}

/// One pass over a period decides whether named starts cover an item.
pub fn pass_decides()
    ensures { PassDecides }
{}

/// Naming a further start with a sure run keeps a covered item covered.
pub fn more_starts_cover()
    ensures { MoreStartsCover }
{}

/// The start that a pass reports as bad, and the one that it reports as late, are the first ones.
pub fn pass_finds_the_first()
    ensures { PassFindsTheFirst }
{}

/// A search finds all starts of sure runs, and the least limit with which any starts cover the item.
pub fn search_is_least()
    ensures { SearchIsLeast }
{}
