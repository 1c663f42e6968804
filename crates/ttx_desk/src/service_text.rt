//! The text of the table of a service: settings, packet 8/30 and pages, each with the comments before it.

use crate::rows::row_key;
use crate::tables::{array_at, member, put, table_at};
use std::alloc::{AllocError, Global};
use toml::{Table, Value};
use ttx_digits::push_subcode;

// Adds a character of a text: a control code, a quotation mark and a backslash by their escapes.
fn push_sign(text: &mut String, c: char) -> Result<(), AllocError> {
    if c == '"' || c == '\\' {
        text.push('\\')?;
        text.push(c)
    } else if c < ' ' || c == '\u{7f}' {
        text.push_str("\\u")?;
        push_subcode(text, u32::from(c) as u16)
    } else {
        text.push(c)
    }
}

// Adds a line for a plain key and its text.
fn push_text(text: &mut String, key: &str, value: &str) -> Result<(), AllocError> {
    text.push_str(key)?;
    text.push_str(" = \"")?;
    for c in value.chars() {
        push_sign(text, c)?;
    }
    text.push_str("\"\n")
}

// Whether a key is written without quotation marks.
fn is_plain(key: &str) -> bool {
    !key.is_empty()
        && key
            .as_bytes()
            .iter()
            .all(|byte| byte.is_ascii_alphanumeric())
}

// Adds the lines for one key and its value.
fn push_entry(
    alloc: Global,
    text: &mut String,
    key: &str,
    value: &Value,
) -> Result<(), AllocError> {
    if let Some(word) = value.as_str() {
        if is_plain(key) {
            return push_text(text, key, word);
        }
    }
    let mut entry = Table::new(alloc);
    let copy = value.clone()?;
    put(alloc, &mut entry, key, copy)?;
    match toml::table_to_string(alloc, &entry) {
        Ok(lines) => text.push_str(lines.as_str()),
        Err(_) => Err(AllocError),
    }
}

// Adds the lines for a key, if the table has it.
fn push_key(alloc: Global, text: &mut String, table: &Table, key: &str) -> Result<(), AllocError> {
    match member(table, key) {
        Some(value) => push_entry(alloc, text, key, value),
        None => Ok(()),
    }
}

// Whether a value is written below its own header.
fn is_table(value: &Value) -> bool {
    value.as_table().is_some()
}

// Adds the keys of a service that are no tables, then its tables; the pages are left out.
fn push_settings(alloc: Global, text: &mut String, table: &Table) -> Result<(), AllocError> {
    for tables in [false, true] {
        for (key, value) in table.iter() {
            if key.as_str() != "page" && is_table(value) == tables {
                if tables {
                    text.push('\n')?;
                }
                push_entry(alloc, text, key.as_str(), value)?;
            }
        }
    }
    Ok(())
}

// Adds the rows of a page.
fn push_rows(alloc: Global, text: &mut String, rows: &Table) -> Result<(), AllocError> {
    text.push_str("\n[page.rows]\n")?;
    for index in 0..24usize {
        push_key(alloc, text, rows, row_key(index))?;
    }
    Ok(())
}

// Adds the table of a page: its number and its subcode, its other keys, its rows.
fn push_page(alloc: Global, text: &mut String, page: &Table) -> Result<(), AllocError> {
    text.push_str("[[page]]\n")?;
    push_key(alloc, text, page, "number")?;
    push_key(alloc, text, page, "sub")?;
    for (key, value) in page.iter() {
        let key = key.as_str();
        if key != "number" && key != "sub" && key != "rows" {
            push_entry(alloc, text, key, value)?;
        }
    }
    match table_at(page, "rows") {
        Some(rows) => push_rows(alloc, text, rows),
        None => Ok(()),
    }
}

/// Adds the text of the table of a service. `comments` are those before each page.
pub(crate) fn push_service(
    alloc: Global,
    text: &mut String,
    table: &Table,
    comments: &[String],
) -> Result<(), AllocError> {
    push_settings(alloc, text, table)?;
    let Some(pages) = array_at(table, "page") else {
        return Ok(());
    };
    for (index, value) in pages.iter().enumerate() {
        text.push('\n')?;
        if let Some(comment) = comments.get(index) {
            text.push_str(comment.as_str())?;
        }
        match value.as_table() {
            Some(page) => push_page(alloc, text, page)?,
            None => {}
        }
    }
    Ok(())
}
