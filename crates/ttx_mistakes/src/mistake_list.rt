//! Finds all mistakes for which a service text is refused.

ghost use Rattle.std.specs.Prelude.{◌≡◌, ◌++◌, ◌≤◌, OnOk, IfOk, length, option_map, [], codes};
ghost use Rattle.toml.specs.Data.{get_member};
ghost use Rattle.toml.specs.View.{table_view, items_view, view};
ghost use Rattle.ttx_mistakes.specs.Mistakes as rule;
ghost use Rattle.ttx_mistakes.specs.MistakeViews.{mistake_views};
ghost use Rattle.ttx_source.specs.Services.{page_tables};

use crate::mistakes::{Mistake, push_fault};
use crate::page_parts::{push_again, push_keys, push_links, push_rows, read_id};
use std::alloc::{AllocError, Global};
use toml::{Table, Value};
use ttx_check::parts::Part;
use ttx_check::unknown_keys::member;
use ttx_header::PageId;
use ttx_source::key_faults::KeyFault;
use ttx_source::keys::Key;
use ttx_source::reader::page_tables;

// The keys of the service, of `info` and of a page that have no parts.
static SERVICE_KEYS: [Key; 2] = [Key::Lines, Key::Serial];

static INFO_KEYS: [Key; 7] = [
    Key::Designation,
    Key::Initial,
    Key::Network,
    Key::Halves,
    Key::Mjd,
    Key::Utc,
    Key::Text,
];

static ID_KEYS: [Key; 2] = [Key::Number, Key::Sub];

static HEAD_KEYS: [Key; 9] = [
    Key::Often,
    Key::Option,
    Key::Newsflash,
    Key::Subtitle,
    Key::Suppress,
    Key::Update,
    Key::Interrupted,
    Key::Inhibit,
    Key::Head,
];

static LINK_KEYS: [Key; 4] = [Key::Row24, Key::Crc, Key::Within, Key::Stays];

#[tactic(auto, unfolding(crate::specs::Mistakes::service_keys))]
fn service_keys() -> &'static [Key]
    ensures { result.now ≡ rule.service_keys }
{
    &SERVICE_KEYS
}

#[tactic(auto, unfolding(crate::specs::Mistakes::info_keys))]
fn info_keys() -> &'static [Key]
    ensures { result.now ≡ rule.info_keys }
{
    &INFO_KEYS
}

#[tactic(auto, unfolding(crate::specs::Mistakes::id_keys))]
fn id_keys() -> &'static [Key]
    ensures { result.now ≡ rule.id_keys }
{
    &ID_KEYS
}

#[tactic(auto, unfolding(crate::specs::Mistakes::head_keys))]
fn head_keys() -> &'static [Key]
    ensures { result.now ≡ rule.head_keys }
{
    &HEAD_KEYS
}

#[tactic(auto, unfolding(crate::specs::Mistakes::link_keys))]
fn link_keys() -> &'static [Key]
    ensures { result.now ≡ rule.link_keys }
{
    &LINK_KEYS
}

// Adds the mistakes in the first keys of a page and in its head.
fn push_front<'a>(
    found: &mut Vec<Mistake<'a>>,
    page: usize,
    earlier: &[PageId],
    table: &'a Table,
) -> Result<(), AllocError>
    ensures { OnOk result (mistake_views found.new.items
        ≡ mistake_views found.old.items ++ rule.front_mistakes page earlier.now (table_view table.now)) }
{
    push_keys(found, page, table, id_keys())?;
    push_again(found, page, earlier, read_id(table))?;
    push_keys(found, page, table, head_keys())
}

// Adds the mistakes in a page.
#[tactic(auto, unfolding(crate::specs::Mistakes::page_mistakes))]
fn push_page<'a>(
    found: &mut Vec<Mistake<'a>>,
    page: usize,
    earlier: &[PageId],
    table: &'a Table,
) -> Result<(), AllocError>
    ensures { OnOk result (mistake_views found.new.items
        ≡ mistake_views found.old.items ++ rule.page_mistakes page earlier.now (table_view table.now)) }
{
    push_front(found, page, earlier, table)?;
    push_rows(found, page, member(table, "rows"))?;
    push_links(found, page, member(table, "links"))?;
    push_keys(found, page, table, link_keys())
}

// Adds the mistakes in a page, if there is its table.
fn push_in<'a>(
    found: &mut Vec<Mistake<'a>>,
    page: usize,
    earlier: &[PageId],
    table: Option<&'a Table>,
) -> Result<(), AllocError>
    ensures { OnOk result (mistake_views found.new.items
        ≡ mistake_views found.old.items ++ rule.mistakes_in page earlier.now (option_map (λ t. table_view t.now) table.entry)) }
{
    match table {
        None => Ok(()),
        Some(table) => push_page(found, page, earlier, table),
    }
}

// Adds the id of a page, if it has one.
fn push_id(earlier: &mut Vec<PageId>, table: Option<&Table>) -> Result<(), AllocError>
    ensures { OnOk result (earlier.new.items ≡ rule.with_id earlier.old.items (rule.id_in (option_map (λ t. table_view t.now) table.entry))) }
{
    let Some(table) = table else {
        return Ok(());
    };
    match read_id(table) {
        None => Ok(()),
        Some(id) => {
            earlier.push(id)?;
            Ok(())
        }
    }
}

// Adds the mistakes in the pages of these values.
fn push_pages<'a>(
    alloc: Global,
    found: &mut Vec<Mistake<'a>>,
    values: &'a [Value],
) -> Result<(), AllocError>
    ensures { OnOk result (mistake_views found.new.items
        ≡ mistake_views found.old.items ++ rule.pages_mistakes 1 [] (items_view values.now)) }
{
    let mut earlier = Vec::new(alloc);
    for (index, value) in values.iter().enumerate() {
        let table = value.as_table();
        push_in(found, index + 1, earlier.as_slice(), table)?;
        push_id(&mut earlier, table)?;
    }
    Ok(())
}

// Adds the mistakes in all pages.
fn push_all<'a>(
    alloc: Global,
    found: &mut Vec<Mistake<'a>>,
    table: &'a Table,
) -> Result<(), AllocError>
    ensures { OnOk result (mistake_views found.new.items
        ≡ mistake_views found.old.items ++ rule.all_pages (page_tables (table_view table.now))) }
{
    match page_tables(table) {
        Ok(values) => push_pages(alloc, found, values),
        Err(fault) => push_fault(found, 0, Part::Key("page"), Some(fault)),
    }
}

// Adds the mistakes in `info`.
fn push_info<'a>(found: &mut Vec<Mistake<'a>>, value: Option<&Value>) -> Result<(), AllocError>
    ensures { OnOk result (mistake_views found.new.items
        ≡ mistake_views found.old.items ++ rule.info_mistakes (option_map (λ v. view v.now) value.entry)) }
{
    let Some(value) = value else {
        return Ok(());
    };
    match value.as_table() {
        Some(table) => push_keys(found, 0, table, info_keys()),
        None => {
            let fault = KeyFault::Kind { key: Key::Info };
            push_fault(found, 0, Part::Key("info"), Some(fault))
        }
    }
}

/// All mistakes for which the text with this table is refused, in the order in which it is read. `Err` if memory runs out.
#[tactic(auto, unfolding(crate::specs::Mistakes::mistakes))]
pub fn all_mistakes<'a>(alloc: Global, table: &'a Table) -> Result<Vec<Mistake<'a>>, AllocError>
    ensures { IfOk result (λ found. mistake_views found.items ≡ rule.mistakes (table_view table.now)) }
{
    let mut found = Vec::new(alloc);
    push_keys(&mut found, 0, table, service_keys())?;
    push_info(&mut found, member(table, "info"))?;
    push_all(alloc, &mut found, table)?;
    Ok(found)
}
