//! Keys that no table takes, as notes.

ghost use Rattle.std.specs.Prelude.{◌≡◌, ◌++◌, [], IfOk, OnOk, map, option_map, codes};
ghost use Rattle.std.specs.Prelude.{string_bytes};
ghost use Rattle.toml.specs.View.{table_view, items_view, view};
ghost use Rattle.ttx_places.specs.Paths.{below};
ghost use Rattle.ttx_check.specs.Spots.{page_id};
ghost use Rattle.ttx_mistakes.specs.KeyNotes as rule;
ghost use Rattle.ttx_mistakes.specs.NoteViews.{note_view, note_views};

use crate::notes::Note;
use std::alloc::{AllocError, Global};
use toml::{Table, Value};
use ttx_check::parts::values_at;
use ttx_check::spots::push_page_id;
use ttx_check::unknown_keys::{
    info_names, is_one_of, member, page_names, push_key_words, service_names,
};
use ttx_places::{page_path, push_part};

/// A table: its path, its name, and the keys that it takes.
#[derive(Clone, Copy)]
pub struct Taker<'a> {
    pub path: &'a str,
    pub place: &'a str,
    pub names: &'a [&'a str],
}

// The path of a key.
fn key_path(alloc: Global, path: &str, key: &str) -> Result<String, AllocError>
    ensures { IfOk result (λ text. string_bytes text ≡ below path.now key.now) }
{
    let mut text = String::from_str(alloc, path)?;
    push_part(&mut text, key)?;
    Ok(text)
}

// The warning about a key.
fn key_note(alloc: Global, taker: Taker<'_>, key: &str) -> Result<Note, AllocError>
    ensures { IfOk result (λ note. note_view note ≡ rule.key_note taker.entry.path.now taker.entry.place.now (map (λ n. n.now) taker.entry.names.now) key.now) }
{
    let path = key_path(alloc, taker.path, key)?;
    let mut words = String::from_str(alloc, taker.place)?;
    push_key_words(alloc, &mut words, taker.names, key)?;
    Ok(Note {
        error: false,
        path,
        sign: None,
        words: words.into_bytes(),
    })
}

// Adds the warnings about a table.
fn push_unknown(
    alloc: Global,
    notes: &mut Vec<Note>,
    taker: Taker<'_>,
    table: &Table,
) -> Result<(), AllocError>
    ensures { OnOk result (note_views notes.new.items ≡ note_views notes.old.items
        ++ rule.unknown_notes taker.entry.path.now taker.entry.place.now (map (λ n. n.now) taker.entry.names.now) (table_view table.now)) }
{
    for (key, _value) in table.iter() {
        if !is_one_of(taker.names, key.as_str()) {
            notes.push(key_note(alloc, taker, key.as_str())?)?;
        }
    }
    Ok(())
}

// Adds the warnings about `info`.
fn push_info(alloc: Global, notes: &mut Vec<Note>, value: Option<&Value>) -> Result<(), AllocError>
    ensures { OnOk result (note_views notes.new.items
        ≡ note_views notes.old.items ++ rule.info_notes (option_map (λ v. view v.now) value.entry)) }
{
    let Some(value) = value else {
        return Ok(());
    };
    let taker = Taker {
        path: "/info",
        place: "info",
        names: info_names(),
    };
    match value.as_table() {
        Some(table) => push_unknown(alloc, notes, taker, table),
        None => Ok(()),
    }
}

// The name of a page.
fn page_place(alloc: Global, table: &Table, page: usize) -> Result<String, AllocError>
    ensures { IfOk result (λ place. string_bytes place ≡ codes "page " ++ page_id (table_view table.now) page) }
{
    let mut place = String::from_str(alloc, "page ")?;
    push_page_id(&mut place, table, page)?;
    Ok(place)
}

// Adds the warnings about the table of a page.
fn push_page(
    alloc: Global,
    notes: &mut Vec<Note>,
    page: usize,
    table: Option<&Table>,
) -> Result<(), AllocError>
    ensures { OnOk result (note_views notes.new.items
        ≡ note_views notes.old.items ++ rule.page_notes page (option_map (λ t. table_view t.now) table.entry)) }
{
    let Some(table) = table else {
        return Ok(());
    };
    let path = page_path(alloc, page)?;
    let place = page_place(alloc, table, page)?;
    let taker = Taker {
        path: path.as_str(),
        place: place.as_str(),
        names: page_names(),
    };
    push_unknown(alloc, notes, taker, table)
}

// Adds the warnings about the tables of all pages.
fn push_pages(alloc: Global, notes: &mut Vec<Note>, values: &[Value]) -> Result<(), AllocError>
    ensures { OnOk result (note_views notes.new.items
        ≡ note_views notes.old.items ++ rule.pages_notes 1 (items_view values.now)) }
{
    for (index, value) in values.iter().enumerate() {
        push_page(alloc, notes, index + 1, value.as_table())?;
    }
    Ok(())
}

/// Adds the warnings about the keys of a text that no table takes.
#[tactic(auto, unfolding(crate::specs::KeyNotes::key_notes))]
pub fn push_keys(alloc: Global, notes: &mut Vec<Note>, table: &Table) -> Result<(), AllocError>
    ensures { OnOk result (note_views notes.new.items ≡ note_views notes.old.items ++ rule.key_notes (table_view table.now)) }
{
    let taker = Taker {
        path: "",
        place: "service",
        names: service_names(),
    };
    push_unknown(alloc, notes, taker, table)?;
    push_info(alloc, notes, member(table, "info"))?;
    push_pages(alloc, notes, values_at(table, "page"))
}
