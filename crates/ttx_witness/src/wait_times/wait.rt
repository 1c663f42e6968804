//! How long viewers wait for pages and items.

use crate::faults::reason::Reason;
use ttx_header::PageId;
use ttx_page::Item;

/// What happens to the transmissions of an item in a period.
#[derive(Clone, Copy)]
pub struct Losses {
    /// How many there are.
    pub sent: usize,
    /// How many are near: in one of the `lines` slots after their header.
    pub near: usize,
    /// How many of the others are cut off by a header of another magazine.
    pub cut: usize,
}

/// How long a viewer of a page waits at most.
#[derive(Clone, Copy)]
pub enum Wait {
    /// The least deadline in fields, and the first item that needs it.
    Fields { fields: u32, item: Item },
    /// The page is not sent unchanged.
    Faulty { reason: Reason },
    /// The first item without a sure run, and what happens to its transmissions.
    Unsure { item: Item, losses: Losses },
}

/// A page, and how long a viewer waits for it.
#[derive(Clone, Copy)]
pub struct PageWait {
    pub page: PageId,
    pub wait: Wait,
}

/// How long a viewer of an item of a page waits at most.
#[derive(Clone, Copy)]
pub enum OwnWait {
    /// The least deadline in fields.
    Least { fields: u32 },
    /// The item has no sure run; what happens to its transmissions.
    Never { losses: Losses },
}

/// An item of a page, and how long a viewer waits for it.
#[derive(Clone, Copy)]
pub struct ItemWait {
    pub item: Item,
    pub wait: OwnWait,
}
