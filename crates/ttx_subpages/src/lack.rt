//! Why subpages are not sent whole.

use ttx_header::PageId;
use ttx_page::Item;

/// A header of a number with several pages that is of none of the pages, or under which not all of its page comes.
#[derive(Clone, Copy)]
pub enum Lack {
    /// Reason 14. Under the page's header in `slot` this item does not come so that no receiver may miss it.
    Unwhole {
        page: PageId,
        item: Item,
        slot: usize,
    },
    /// Reason 15. The header in `slot` has this id, which is of no page of the list.
    Unlisted {
        page: PageId,
        slot: usize,
    },
}
