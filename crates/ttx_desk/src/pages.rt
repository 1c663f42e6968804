//! The tables of pages.

ghost use Rattle.std.specs.Prelude.{◌≡◌, ◌++◌, pos, codes, option_map, Some, IfOk, OnOk, ◌≤◌};
ghost use Rattle.toml.specs.Data.{get_member, as_integer, as_str};
ghost use Rattle.toml.specs.View.{table_view, view};
ghost use Rattle.ttx_author.specs.Options.{option_number};
ghost use Rattle.ttx_desk.specs.Tables.{table_at, text_at};
ghost use Rattle.ttx_desk.specs.Texts.{text_put, text_mistakes};
ghost use Rattle.ttx_desk.specs.declared.mistakes.Part.TheVariants as part;
ghost use Rattle.ttx_desk.specs.Pages as rule;

use crate::mistakes::{Fault, Mistake, Part};
use crate::rows::rows_table;
use crate::tables::{copy_of, member, put, table_at, text_at};
use crate::texts::{Written, characters, put_text};
use std::alloc::{AllocError, Global};
use toml::{Table, Value};
use ttx_author::NationalOption;

// The national option with a number.
fn option_numbered(number: i64) -> Option<NationalOption>
    ensures { option_map option_number result ≡ rule.option_numbered number }
{
    if number < 0 {
        None
    } else {
        NationalOption::numbered(number as usize)
    }
}

// The national option that a value is.
fn option_of(value: &Value) -> Option<NationalOption>
    ensures { option_map option_number result ≡ rule.option_from (as_integer (view value.now)) (as_str (view value.now)) }
{
    match value.as_integer() {
        Some(number) => option_numbered(number),
        None => match value.as_str() {
            Some(name) => NationalOption::named(name),
            None => None,
        },
    }
}

/// The national option of a page: a number from 0 to 7 or a name, English if it has none.
pub fn option_in(page: &Table) -> Option<NationalOption>
    ensures { option_map option_number result ≡ rule.option_in (get_member (codes "option") (table_view page.now)) }
{
    match member(page, "option") {
        Some(value) => option_of(value),
        None => Some(NationalOption::English),
    }
}

// Puts the number of the option into a page that has one.
fn put_option(
    alloc: Global,
    out: &mut Table,
    page: &Table,
    option: NationalOption,
) -> Result<(), AllocError>
    ensures { OnOk result (table_view out.new
        ≡ rule.option_put (option_number option) (get_member (codes "option") (table_view page.now)) (table_view out.old)) }
{
    if member(page, "option").is_some() {
        put(
            alloc,
            out,
            "option",
            Value::Integer(i64::from(option.number())),
        )?;
    }
    Ok(())
}

/// Puts the codes of the text at a key of a table into `out`, and notes its mistake.
pub fn put_text_at(
    alloc: Global,
    out: &mut Table,
    table: &Table,
    written: &Written<'_>,
    mistakes: &mut Vec<Mistake>,
) -> Result<(), AllocError>
    requires { written.now.width ≤ 40 }
    ensures table { OnOk result (table_view out.new ≡ text_put written.now.width (option_number written.now.option) written.now.key.now
        (rule.chars_in (text_at written.now.key.now (table_view table.now))) (table_view out.old)) }
    ensures mistakes { OnOk result (mistakes.new.items ≡ mistakes.old.items ++ text_mistakes written.now.width (option_number written.now.option)
        written.now.page written.now.part (rule.chars_in (text_at written.now.key.now (table_view table.now)))) }
{
    let Some(text) = text_at(table, written.key) else {
        return Ok(());
    };
    let text = characters(alloc, text)?;
    let written = Written {
        text: text.as_slice(),
        ..*written
    };
    put_text(alloc, out, &written, mistakes)
}

// Puts the codes of the head of a page into `out`, and notes its mistake.
fn put_head(
    alloc: Global,
    out: &mut Table,
    page: &PageTable<'_>,
    option: NationalOption,
    mistakes: &mut Vec<Mistake>,
) -> Result<(), AllocError>
    ensures table { OnOk result (table_view out.new ≡ rule.head_put (option_number option) (table_view page.now.table.now) (table_view out.old)) }
    ensures mistakes { OnOk result (mistakes.new.items ≡ mistakes.old.items ++ text_mistakes 24 (option_number option) page.now.number part.Head
        (rule.chars_in (text_at (codes "head") (table_view page.now.table.now)))) }
{
    let written = Written {
        key: "head",
        text: &[],
        width: 24,
        option,
        page: page.number,
        part: Part::Head,
    };
    put_text_at(alloc, out, page.table, &written, mistakes)
}

// Puts the rows of a page by number into `out`, and notes their mistakes.
fn put_rows(
    alloc: Global,
    out: &mut Table,
    page: &PageTable<'_>,
    option: NationalOption,
    mistakes: &mut Vec<Mistake>,
) -> Result<(), AllocError>
    ensures table { OnOk result (table_view out.new
        ≡ rule.rows_put (option_number option) (table_at (codes "rows") (table_view page.now.table.now)) (table_view out.old)) }
    ensures mistakes { OnOk result (mistakes.new.items ≡ mistakes.old.items
        ++ rule.mistakes_in_rows page.now.number (option_number option) (table_at (codes "rows") (table_view page.now.table.now))) }
{
    let Some(rows) = table_at(page.table, "rows") else {
        return Ok(());
    };
    let rows = rows_table(alloc, page.number, option, rows, mistakes)?;
    put(alloc, out, "rows", Value::Table(rows))
}

/// The table of a page, counted from 1.
#[derive(Clone, Copy)]
pub struct PageTable<'a> {
    pub number: usize,
    pub table: &'a Table,
}

// Notes an option that has no such name.
fn note_name(page: &PageTable<'_>, mistakes: &mut Vec<Mistake>) -> Result<(), AllocError>
    ensures { OnOk result (mistakes.new.items ≡ mistakes.old.items
        ++ rule.name_mistakes page.now.number (text_at (codes "option") (table_view page.now.table.now))) }
{
    if text_at(page.table, "option").is_some() {
        mistakes.push(Mistake {
            page: page.number,
            part: Part::Option,
            place: 0,
            fault: Fault::Name,
        })?;
    }
    Ok(())
}

// The table of a page under its option.
fn page_under(
    alloc: Global,
    page: &PageTable<'_>,
    option: NationalOption,
    mistakes: &mut Vec<Mistake>,
) -> Result<Table, AllocError>
    ensures table { IfOk result (λ out. table_view out ≡ rule.page_under (Some (option_number option)) (table_view page.now.table.now)) }
    ensures mistakes { OnOk result (mistakes.new.items ≡ mistakes.old.items
        ++ rule.mistakes_under page.now.number (Some (option_number option)) (table_view page.now.table.now)) }
{
    let mut out = copy_of(page.table)?;
    put_option(alloc, &mut out, page.table, option)?;
    put_head(alloc, &mut out, page, option, mistakes)?;
    put_rows(alloc, &mut out, page, option, mistakes)?;
    Ok(out)
}

/// The table of a page with texts as codes; its mistakes are noted.
#[tactic(auto, unfolding(crate::specs::Pages::page_table, crate::specs::Pages::page_mistakes))]
pub fn page_table(
    alloc: Global,
    page: &PageTable<'_>,
    mistakes: &mut Vec<Mistake>,
) -> Result<Table, AllocError>
    ensures table { IfOk result (λ out. table_view out ≡ rule.page_table (table_view page.now.table.now)) }
    ensures mistakes { OnOk result (mistakes.new.items ≡ mistakes.old.items ++ rule.page_mistakes page.now.number (table_view page.now.table.now)) }
{
    match option_in(page.table) {
        Some(option) => page_under(alloc, page, option, mistakes),
        None => {
            note_name(page, mistakes)?;
            copy_of(page.table)
        }
    }
}
