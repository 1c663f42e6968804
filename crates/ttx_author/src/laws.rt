//! Laws of authors' texts. A call does nothing at run time, and gives the law to the caller's proof.

ghost use Rattle.ttx_author.specs.Seen.{RowIsSeen, HeadIsSeen};

/// What an author writes into rows 1 to 24 is what the viewers see: in a row that is shown and not hidden, each cell shows the
/// character that stands for it, or these blocks, in the order written. A control code shows a space, or the held mosaic.
pub fn row_is_seen()
    ensures { RowIsSeen }
{}

/// The same for the text in a page header.
pub fn head_is_seen()
    ensures { HeadIsSeen }
{}
