//! The items of a page as numbers, and how many transmissions a run of an item has.

ghost use Rattle.std.specs.Prelude.{◌≡◌, ◌<◌};
ghost use Rattle.ttx_page.specs.Streams.{run_length};
ghost use Rattle.ttx_witness.specs.sent.Collected.{IsItem, item_number};

use ttx_page::{Item, RowNumber};

/// The item with this number: 0 is the header, 1 to 24 are rows, 25 the links.
pub fn item_of(number: u8) -> Item
    requires { number < 26 }
    ensures number { item_number result ≡ number }
    ensures item { IsItem result }
{
    if number == 0 {
        return Item::Head;
    }
    match RowNumber::new(number) {
        Some(row) => Item::Row(row),
        None => Item::Links,
    }
}

/// The number of transmissions in a run of the item: 1 for links, otherwise the repeat count.
pub fn run_length(repeat: u8, item: &Item) -> usize
    ensures { result ≡ run_length repeat item.now }
{
    match item {
        Item::Links => 1,
        _ => usize::from(repeat),
    }
}
