//! Laws of row monitors. A call does nothing at run time, and gives the law to the caller's proof.

ghost use Rattle.ttx_row_monitor.specs.Laws.{WithinIsReceivedByRows, WithinIsSeenByRows, WithinIsShownByRows};

/// A feed within the rule by rows is a reception of this kind for each page.
pub fn within_is_received_by_rows()
    ensures { WithinIsReceivedByRows }
{}

/// If the cycle is accepted and the feed stays within the rule up to the deadline, each receiver that refuses rows shows each page, except
/// perhaps row 0, and row 0 too if the text of the headers arrives.
pub fn within_is_seen_by_rows()
    ensures { WithinIsSeenByRows }
{
    ttx_rows::laws::accepted_is_seen_by_rows();
}

/// The same for those that show pages late, of a page that another page number follows, so many slots after the deadline.
pub fn within_is_shown_by_rows()
    ensures { WithinIsShownByRows }
{
    ttx_rows::laws::accepted_is_shown_by_rows();
}
