//! The items of a page by their numbers.

ghost use Rattle.std.specs.Prelude.{◌≡◌, true};
ghost use Rattle.ttx_certificate.specs.ItemPlaces.{IsItem, item_number};
ghost use Rattle.ttx_certificate.specs.Entries.{is_item};

use ttx_page::Item;

/// The number of an item in its page: 0 for row 0, 1 to 24 for the rows, 25 for the links.
pub fn item_number(item: &Item) -> u8
    ensures value { result ≡ item_number item.now }
    ensures item { IsItem item.now }
    ensures is { is_item item.now ≡ true }
{
    match item {
        Item::Head => 0,
        Item::Row(row) => row.number(),
        Item::Links => 25,
    }
}
