//! Texts of ids, items and classes.

ghost use Rattle.std.specs.Prelude.{◌≡◌, ◌≤◌, IfOk, string_bytes};
ghost use Rattle.ttx_digits.specs.PageIds.{id_text};
ghost use Rattle.ttx_records.specs.Names.{row_name, item_name, class_name};

use std::alloc::{AllocError, Global};
use ttx_digits::push_id;
use ttx_header::PageId;
use ttx_page::{Class, Item};

/// The id of a page, as in `100/0000`.
pub fn id_text(alloc: Global, page: PageId) -> Result<String, AllocError>
    ensures { IfOk result (λ text. string_bytes text ≡ id_text page) }
{
    let mut text = String::new(alloc);
    push_id(&mut text, page)?;
    Ok(text)
}

// The name of a row.
fn row_name(number: u8) -> &'static str
    requires from { 1 ≤ number }
    requires to { number ≤ 24 }
    ensures { result.now ≡ row_name number }
{
    match number {
        1 => "row 1",
        2 => "row 2",
        3 => "row 3",
        4 => "row 4",
        5 => "row 5",
        6 => "row 6",
        7 => "row 7",
        8 => "row 8",
        9 => "row 9",
        10 => "row 10",
        11 => "row 11",
        12 => "row 12",
        13 => "row 13",
        14 => "row 14",
        15 => "row 15",
        16 => "row 16",
        17 => "row 17",
        18 => "row 18",
        19 => "row 19",
        20 => "row 20",
        21 => "row 21",
        22 => "row 22",
        23 => "row 23",
        _ => "row 24",
    }
}

/// The name of an item.
pub fn item_name(item: Item) -> &'static str
    ensures { result.now ≡ item_name item }
{
    match item {
        Item::Head => "head",
        Item::Row(row) => row_name(row.number()),
        Item::Links => "links",
    }
}

/// The name of a class of receivers.
pub fn class_name(class: Class) -> &'static str
    ensures { result.now ≡ class_name class }
{
    match class {
        Class::Any => "any",
        Class::Clearing => "clearing",
    }
}
