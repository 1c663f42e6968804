//! The table of a service from that of an author.

ghost use Rattle.std.specs.Prelude.{◌≡◌, ◌++◌, ◌<◌, ◌^◌, [], codes, option_map, map, IfOk, OnOk};
ghost use Rattle.toml.specs.Data.{as_table, array};
ghost use Rattle.toml.specs.View.{table_view, array_view, items_view, view};
ghost use Rattle.ttx_desk.specs.Tables.{table_at, array_at};
ghost use Rattle.ttx_desk.specs.Services as rule;

use crate::mistakes::{Mistake, Part};
use crate::pages::{PageTable, page_table, put_text_at};
use crate::tables::{array_at, copy_of, put, table_at, take_out};
use crate::texts::Written;
use std::alloc::{AllocError, Global};
use toml::{Table, Value};
use ttx_author::NationalOption;

// The value of a page, with texts as codes if it is a table.
fn page_value(
    alloc: Global,
    number: usize,
    value: &Value,
    mistakes: &mut Vec<Mistake>,
) -> Result<Value, AllocError>
    ensures value { IfOk result (λ out. view out ≡ rule.page_value (view value.now)) }
    ensures mistakes { OnOk result (mistakes.new.items ≡ mistakes.old.items ++ rule.value_mistakes number (as_table (view value.now))) }
{
    let Some(table) = value.as_table() else {
        let copy = value.clone()?;
        return Ok(copy);
    };
    let page = PageTable { number, table };
    Ok(Value::Table(page_table(alloc, &page, mistakes)?))
}

// The values of pages.
fn page_values(
    alloc: Global,
    values: &[Value],
    mistakes: &mut Vec<Mistake>,
) -> Result<Vec<Value>, AllocError>
    ensures values { IfOk result (λ out. map view out.items ≡ map (λ value. rule.page_value (view value)) values.now) }
    ensures mistakes { OnOk result (mistakes.new.items ≡ mistakes.old.items ++ rule.pages_mistakes 1 (items_view values.now)) }
{
    let mut out = Vec::new(alloc);
    for index in 0..values.len() {
        out.push(page_value(alloc, index + 1, &values[index], mistakes)?)?;
    }
    Ok(out)
}

// The array of pages.
fn page_array(
    alloc: Global,
    values: &[Value],
    mistakes: &mut Vec<Mistake>,
) -> Result<Value, AllocError>
    ensures value { IfOk result (λ out. view out ≡ array (rule.map_items rule.page_value (items_view values.now))) }
    ensures mistakes { OnOk result (mistakes.new.items ≡ mistakes.old.items ++ rule.pages_mistakes 1 (items_view values.now)) }
{
    let out = page_values(alloc, values, mistakes)?;
    Ok(Value::Array(out))
}

// Puts the pages with texts as codes into `out`.
fn put_pages(
    alloc: Global,
    out: &mut Table,
    author: &Table,
    mistakes: &mut Vec<Mistake>,
) -> Result<(), AllocError>
    ensures table { OnOk result (table_view out.new ≡ rule.pages_put (array_at (codes "page") (table_view author.now)) (table_view out.old)) }
    ensures mistakes { OnOk result (mistakes.new.items ≡ mistakes.old.items ++ rule.mistakes_in_pages (array_at (codes "page") (table_view author.now))) }
{
    let Some(pages) = array_at(author, "page") else {
        return Ok(());
    };
    let values = page_array(alloc, pages.as_slice(), mistakes)?;
    put(alloc, out, "page", values)
}

// Puts packet 8/30 with its text as codes into `out`.
fn put_info(
    alloc: Global,
    out: &mut Table,
    author: &Table,
    mistakes: &mut Vec<Mistake>,
) -> Result<(), AllocError>
    ensures table { OnOk result (table_view out.new ≡ rule.info_put (table_at (codes "info") (table_view author.now)) (table_view out.old)) }
    ensures mistakes { OnOk result (mistakes.new.items ≡ mistakes.old.items ++ rule.info_mistakes (table_at (codes "info") (table_view author.now))) }
{
    let Some(table) = table_at(author, "info") else {
        return Ok(());
    };
    let mut info = copy_of(table)?;
    let written = Written {
        key: "text",
        text: &[],
        width: 20,
        option: NationalOption::English,
        page: 0,
        part: Part::Status,
    };
    put_text_at(alloc, &mut info, table, &written, mistakes)?;
    put(alloc, out, "info", Value::Table(info))
}

/// The table of a service, and the mistakes of the author's table that it was made of. A text with a mistake stays as it is.
#[derive(Drop)]
pub struct Translated {
    pub table: Table,
    pub mistakes: Vec<Mistake>,
}

/// The table of the service that an author's table means, and the mistakes.
#[tactic(auto, unfolding(crate::specs::Services::service_table, crate::specs::Services::mistakes))]
pub fn service_of(alloc: Global, author: &Table) -> Result<Translated, AllocError>
    ensures table { IfOk result (λ t. table_view t.table ≡ rule.service_table (table_view author.now)) }
    ensures mistakes { IfOk result (λ t. t.mistakes.items ≡ rule.mistakes (table_view author.now)) }
{
    let mut mistakes = Vec::new(alloc);
    let mut table = copy_of(author)?;
    take_out(&mut table, "author");
    put_info(alloc, &mut table, author, &mut mistakes)?;
    put_pages(alloc, &mut table, author, &mut mistakes)?;
    Ok(Translated { table, mistakes })
}
