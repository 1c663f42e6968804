//! Laws of mistakes. A call costs nothing and gives the caller's proof the law.

ghost use Rattle.ttx_mistakes.specs.Laws.{NoMistakeWhereRead, RefusedAlike};

/// A text has no mistake exactly where it is read as a service, with its promises and its stays.
pub fn no_mistake_where_read()
    ensures { NoMistakeWhereRead }
{}

/// The short report and the long one refuse the same texts.
pub fn refused_alike()
    ensures { RefusedAlike }
{}
