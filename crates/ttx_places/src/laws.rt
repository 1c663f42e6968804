//! Laws of paths. A call costs nothing and gives the caller's proof the law.

ghost use Rattle.ttx_places.specs.Laws.{PathsAreUnique};

/// A path is that of one list of keys and numbers.
pub fn paths_are_unique()
    ensures { PathsAreUnique }
{}
