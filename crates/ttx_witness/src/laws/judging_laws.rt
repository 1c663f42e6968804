//! Laws of how items are judged from the lists of their transmissions.

ghost use Rattle.ttx_witness.specs.laws.JudgingLaws.{TransmissionsAreListed, FirstPeriodIsListed, ItemsAreJudged, HeadersAreJudged, PagesAreFew};

/// The list of a period's transmissions contains each of them, in order.
pub fn transmissions_are_listed()
    ensures { TransmissionsAreListed }
{}

/// The list of the transmissions in the first period of a cycle after another cycle contains each of them, in order.
pub fn first_period_is_listed()
    ensures { FirstPeriodIsListed }
{}

/// One pass over a period finds the first bad start of an item, or otherwise the first late one.
pub fn items_are_judged()
    ensures { ItemsAreJudged }
{}

/// The list of a page's headers decides whether each header is followed by the next in time.
pub fn headers_are_judged()
    ensures { HeadersAreJudged }
{
    ttx_page::laws::each_slot_turns();
}

/// Fewer than 2^32 pages can have distinct ids.
pub fn pages_are_few()
    ensures { PagesAreFew }
{
    ttx_page::laws::pages_keep_their_rules();
}
