//! Laws of pages as numbers. Calling one does nothing at run time; it gives the caller's proof the law.

ghost use Rattle.ttx_pages.specs.Laws.{PagesAreNumbered, NumbersRise, NumbersAreListed};

/// Two pages have the same number only if they are the same.
pub fn pages_are_numbered()
    ensures { PagesAreNumbered }
{}

/// Numbers rise by magazine, page number and subcode.
pub fn numbers_rise()
    ensures { NumbersRise }
{}

/// The number of each page is one of those that are listed.
pub fn numbers_are_listed()
    ensures { NumbersAreListed }
{}
