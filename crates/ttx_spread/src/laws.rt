//! The law of the places of pages. A call costs nothing and gives the caller's proof the law.

ghost use Rattle.ttx_spread.specs.SpreadNumbers.{NumbersAreSpread};

/// With spread places two pages of one page number stand in one round only if each round has a page of the number.
pub fn numbers_are_spread()
    ensures { NumbersAreSpread }
{}
