//! Mistakes as notes.

ghost use Rattle.std.specs.Prelude.{◌≡◌, ◌++◌, IfOk, OnOk, option_map, string_bytes, find, position, []};
ghost use Rattle.std.specs.Str.{chars};
ghost use Rattle.toml.specs.Data.{get_item};
ghost use Rattle.toml.specs.View.{table_view, items_view};
ghost use Rattle.ttx_check.specs.Parts as parts;
ghost use Rattle.ttx_check.specs.Parts.{text_in};
ghost use Rattle.ttx_check.specs.Spots.{count_text, is_missing, text_or};
ghost use Rattle.ttx_check.specs.PartViews.{part_view};
ghost use Rattle.ttx_mistakes.specs.MistakeViews.{mistake_view, mistake_views};
ghost use Rattle.ttx_mistakes.specs.NoteViews.{note_view, note_views};
ghost use Rattle.ttx_mistakes.specs.Notes as rule;
ghost use Rattle.ttx_mistakes.specs.Takes.{takes};
ghost use Rattle.ttx_source.specs.KeyFaults.{key_fault_of, key_name};

use crate::mistakes::Mistake;
use crate::notes::Note;
use crate::whys::{why_page, why_subcode};
use std::alloc::{AllocError, Global};
use toml::{Table, Value};
use ttx_check::parts::{Part, text_at, values_at};
use ttx_check::refusals::push_words;
use ttx_check::spots::{
    count_text, inner_text, key_table, page_table, push_page_id, push_part_name, push_part_path,
    push_service_name, text_or, value_at,
};
use ttx_check::unknown_keys::home_of;
use ttx_digits::push_decimal;
use ttx_places::{page_path, push_part};
use ttx_source::key_faults::KeyFault;
use ttx_source::keys::Key;

// The key of a part outside pages.
fn key_of<'a>(part: Part<'a>) -> &'a str
    ensures { result.now ≡ rule.key_of (part_view part.entry) }
{
    match part {
        Part::Key(key) | Part::Row(key) => key,
        Part::Whole | Part::Link(_) => "",
    }
}

fn is_missing(fault: KeyFault) -> bool
    ensures { result ≡ is_missing (key_fault_of fault) }
{
    matches!(fault, KeyFault::Missing { .. })
}

// The path of what is refused, in a page.
fn inside_path(
    alloc: Global,
    page: usize,
    part: Part<'_>,
    fault: KeyFault,
) -> Result<String, AllocError>
    ensures { IfOk result (λ path. string_bytes path ≡ rule.inside_path page (part_view part.entry) (key_fault_of fault)) }
{
    let mut path = page_path(alloc, page)?;
    if is_missing(fault) {
        return Ok(path);
    }
    push_part_path(&mut path, part)?;
    Ok(path)
}

// The path of what is refused, outside pages.
fn outside_path(alloc: Global, key: &str, fault: KeyFault) -> Result<String, AllocError>
    ensures { IfOk result (λ path. string_bytes path ≡ rule.outside_path key.now (key_fault_of fault)) }
{
    let mut path = String::from_str(alloc, key_table(key))?;
    if is_missing(fault) {
        return Ok(path);
    }
    push_part(&mut path, key)?;
    Ok(path)
}

// The path of what is refused.
#[tactic(auto, unfolding(crate::specs::Notes::note_path))]
fn note_path(alloc: Global, mistake: &Mistake<'_>) -> Result<String, AllocError>
    ensures { IfOk result (λ path. string_bytes path
        ≡ rule.note_path mistake.now.page (part_view mistake.now.part) (key_fault_of mistake.now.fault)) }
{
    if mistake.page == 0 {
        outside_path(alloc, key_of(mistake.part), mistake.fault)
    } else {
        inside_path(alloc, mistake.page, mistake.part, mistake.fault)
    }
}

// Adds the id of a page, or its number in the text.
fn push_id(name: &mut String, page: Option<&Table>, order: usize) -> Result<(), AllocError>
    ensures { OnOk result (string_bytes name.new
        ≡ string_bytes name.old ++ rule.id_text_in (option_map (λ t. table_view t.now) page.entry) order) }
{
    match page {
        None => push_decimal(name, order),
        Some(page) => push_page_id(name, page, order),
    }
}

// Adds the name of what is refused, in a page.
fn push_inside_name(
    name: &mut String,
    table: &Table,
    mistake: &Mistake<'_>,
) -> Result<(), AllocError>
    ensures { OnOk result (string_bytes name.new ≡ string_bytes name.old
        ++ rule.inside_name (table_view table.now) mistake.now.page (part_view mistake.now.part) (key_fault_of mistake.now.fault)) }
{
    name.push_str("page ")?;
    push_id(name, page_table(table, mistake.page), mistake.page)?;
    if is_missing(mistake.fault) {
        return Ok(());
    }
    push_part_name(name, mistake.part)
}

// Adds the name of what is refused.
#[tactic(auto, unfolding(crate::specs::Notes::note_name))]
fn push_name(name: &mut String, table: &Table, mistake: &Mistake<'_>) -> Result<(), AllocError>
    ensures { OnOk result (string_bytes name.new ≡ string_bytes name.old
        ++ rule.note_name (table_view table.now) mistake.now.page (part_view mistake.now.part) (key_fault_of mistake.now.fault)) }
{
    if mistake.page == 0 {
        push_service_name(name, key_of(mistake.part))
    } else {
        push_inside_name(name, table, mistake)
    }
}

// The text of the link with a number, from 1; empty if it is none.
fn link_text(page: &Table, number: usize) -> &str
    ensures { result.now ≡ rule.text_of (parts.at_link number) (table_view page.now) }
{
    if number == 0 {
        return value_text(values_at(page, "links"), 0);
    }
    value_text(values_at(page, "links"), number - 1)
}

// The text at an index; empty if there is none.
fn value_text(values: &[Value], index: usize) -> &str
    ensures { result.now ≡ text_or [] (text_in (get_item index (items_view values.now))) }
{
    match value_at(values, index) {
        Some(value) => match value.as_str() {
            Some(text) => text,
            None => "",
        },
        None => "",
    }
}

// The text at a part of a page.
fn text_of<'a>(part: Part<'_>, page: &'a Table) -> &'a str
    ensures { result.now ≡ rule.text_of (part_view part.entry) (table_view page.now) }
{
    match part {
        Part::Whole => "",
        Part::Key(key) => text_or(page, key, ""),
        Part::Row(key) => inner_text(page, "rows", key),
        Part::Link(number) => link_text(page, number),
    }
}

// The text that is refused.
#[tactic(auto, unfolding(crate::specs::Notes::part_text))]
fn part_text<'a>(table: &'a Table, mistake: &Mistake<'_>) -> &'a str
    ensures { result.now ≡ rule.part_text (table_view table.now) mistake.now.page (part_view mistake.now.part) }
{
    if mistake.page == 0 {
        return inner_text(table, "info", key_of(mistake.part));
    }
    match page_table(table, mistake.page) {
        None => "",
        Some(page) => text_of(mistake.part, page),
    }
}

// How many characters fit.
fn most_of(page: usize, part: Part<'_>) -> usize
    ensures { result ≡ rule.most_of page (part_view part.entry) }
{
    match part {
        Part::Row(_) => 40,
        Part::Key(_) if page == 0 => 20,
        _ => 24,
    }
}

// The first character that can't be sent.
fn wide_sign(text: &str) -> Option<char>
    ensures { result ≡ find rule.is_wide (chars text.now) }
{
    text.chars().find(|c| u32::from(*c) >= 128)
}

// Its index.
fn wide_index(text: &str) -> Option<usize>
    ensures { result ≡ position rule.is_wide (chars text.now) }
{
    text.chars().position(|c| u32::from(c) >= 128)
}

// What a key takes.
fn words_taken(key: Key) -> &'static str
    ensures { result.now ≡ takes (key_name key) }
{
    key.takes()
}

// Adds what a key takes.
fn push_takes(text: &mut String, key: Key) -> Result<(), AllocError>
    ensures { OnOk result (string_bytes text.new ≡ string_bytes text.old ++ rule.takes_text (key_name key)) }
{
    text.push_str(": it takes ")?;
    text.push_str(words_taken(key))
}

// Adds what a key takes whose value is of another kind.
fn push_kind(text: &mut String, key: Key) -> Result<(), AllocError>
    ensures { OnOk result (string_bytes text.new ≡ string_bytes text.old ++ rule.kind_detail (key_name key)) }
{
    push_takes(text, key)?;
    if key.name() == "page" {
        return text.push_str("; each page begins with [[page]]");
    }
    Ok(())
}

// Adds what a key takes whose value is out of range, or where the key of a row stands that is none.
fn push_range(text: &mut String, key: Key, part: Part<'_>) -> Result<(), AllocError>
    ensures { OnOk result (string_bytes text.new ≡ string_bytes text.old ++ rule.range_detail (key_name key) (part_view part.entry)) }
{
    let Part::Row(name) = part else {
        return push_takes(text, key);
    };
    let home = home_of(name);
    if home.is_empty() {
        push_takes(text, key)
    } else {
        text.push_str(home)
    }
}

// Adds the character that can't be sent.
fn push_sign(text: &mut String, said: &str) -> Result<(), AllocError>
    ensures { OnOk result (string_bytes text.new ≡ string_bytes text.old ++ rule.sign_text (find rule.is_wide (chars said.now))) }
{
    match wide_sign(said) {
        None => Ok(()),
        Some(c) => {
            text.push_str(": ")?;
            text.push(c)
        }
    }
}

// Adds how many characters a text has.
fn push_count(alloc: Global, text: &mut String, said: &str, most: usize) -> Result<(), AllocError>
    ensures { OnOk result (string_bytes text.new ≡ string_bytes text.old ++ count_text most said.now) }
{
    let count = count_text(alloc, said, most)?;
    text.push_str(count.as_str())
}

// Adds the detail about a fault.
fn push_detail(
    alloc: Global,
    text: &mut String,
    mistake: &Mistake<'_>,
    said: &str,
) -> Result<(), AllocError>
    ensures { OnOk result (string_bytes text.new ≡ string_bytes text.old
        ++ rule.detail (key_fault_of mistake.now.fault) mistake.now.page (part_view mistake.now.part) said.now) }
{
    match mistake.fault {
        KeyFault::Missing { key } => push_takes(text, key),
        KeyFault::Kind { key } => push_kind(text, key),
        KeyFault::Range { key } => push_range(text, key, mistake.part),
        KeyFault::PageNumber => text.push_str(why_page(said)),
        KeyFault::Subcode => text.push_str(why_subcode(said)),
        KeyFault::RowTooLong => push_count(alloc, text, said, most_of(mistake.page, mistake.part)),
        KeyFault::Character => push_sign(text, said),
        KeyFault::Duplicate | KeyFault::Often => Ok(()),
    }
}

// The index of the character that is refused, or of the first one that is too many.
fn sign(mistake: &Mistake<'_>, said: &str) -> Option<usize>
    ensures { result ≡ rule.sign (key_fault_of mistake.now.fault) mistake.now.page (part_view mistake.now.part) said.now }
{
    match mistake.fault {
        KeyFault::RowTooLong => Some(most_of(mistake.page, mistake.part)),
        KeyFault::Character => wide_index(said),
        _ => None,
    }
}

// The name of what is refused, and why. `said` is the text that is refused, as `part_text` has it.
fn error_words(
    alloc: Global,
    table: &Table,
    mistake: &Mistake<'_>,
    said: &str,
) -> Result<String, AllocError>
    ensures { IfOk result (λ words. string_bytes words ≡ rule.error_words (table_view table.now) mistake.now.page
        (part_view mistake.now.part) (key_fault_of mistake.now.fault) said.now) }
{
    let mut words = String::new(alloc);
    push_name(&mut words, table, mistake)?;
    words.push_str(": ")?;
    push_words(&mut words, mistake.fault.source_fault())?;
    push_detail(alloc, &mut words, mistake, said)?;
    Ok(words)
}

// The error that a mistake is.
#[tactic(auto, unfolding(crate::specs::Notes::error_note))]
fn error_note(alloc: Global, table: &Table, mistake: &Mistake<'_>) -> Result<Note, AllocError>
    ensures { IfOk result (λ note. note_view note ≡ rule.error_note (table_view table.now) (mistake_view mistake.now)) }
{
    let said = part_text(table, mistake);
    let path = note_path(alloc, mistake)?;
    let words = error_words(alloc, table, mistake, said)?;
    Ok(Note {
        error: true,
        path,
        sign: sign(mistake, said),
        words: words.into_bytes(),
    })
}

/// Adds the errors that some mistakes are.
pub fn push_errors(
    alloc: Global,
    notes: &mut Vec<Note>,
    table: &Table,
    found: &[Mistake<'_>],
) -> Result<(), AllocError>
    ensures { OnOk result (note_views notes.new.items
        ≡ note_views notes.old.items ++ rule.error_notes (table_view table.now) (mistake_views found.now)) }
{
    for mistake in found {
        notes.push(error_note(alloc, table, mistake)?)?;
    }
    Ok(())
}
