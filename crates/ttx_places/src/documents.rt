//! Finds places in a whole text.

ghost use Rattle.std.specs.Prelude.{◌≡◌, ◌<◌, ◌≤◌, suc, length, [], IfOk, Some, string_bytes};
ghost use Rattle.toml.specs.Parse.{skip_bom};
ghost use Rattle.toml_parser.specs.Lexical.{first};
ghost use Rattle.ttx_places.specs.Places as rule;
ghost use Rattle.ttx_places.specs.Tables.{tables_of};

use crate::keys::{element_path, header_key, table_path};
use crate::values::{here, pair};
use std::alloc::{AllocError, Global};
use toml_parser::RECURSION_LIMIT;
use toml_parser::text::{byte_at, first, skip, skip_blank};

/// The path of the table of the latest header, and the number of tables `[[page]]` so far.
#[derive(Drop)]
pub struct Tables {
    pub path: String,
    pub pages: usize,
}

// The tables after another table `[[..]]` with this path; those of pages are counted.
fn next_table(alloc: Global, pages: usize, path: String) -> Result<Tables, AllocError>
    ensures { IfOk result (λ tables. tables_of tables ≡ rule.next_table pages (string_bytes path)) }
{
    if path.as_str() != "/page" {
        return Ok(Tables { path, pages });
    }
    match pages.checked_add(1) {
        Some(pages) => Ok(Tables {
            path: element_path(alloc, path.as_str(), pages)?,
            pages,
        }),
        None => Err(AllocError),
    }
}

// The table of a header `[name]` or `[[name]]`, and the text after the header.
#[tactic(auto, unfolding(crate::specs::Places::header))]
fn header<'a>(alloc: Global, pages: usize, s: &'a str) -> Result<(Tables, &'a str), AllocError>
    requires { first s.now ≡ 91 }
    ensures value { IfOk result (λ p. rule.header pages s.now ≡ Some (tables_of p.0, p.1.now)) }
    ensures shorter { IfOk result (λ p. length p.1.now < length s.now) }
{
    if byte_at(s, 1) != b'[' {
        let (key, rest) = header_key(alloc, skip(s, 1))?;
        let path = table_path(alloc, pages, &key)?;
        return Ok((Tables { path, pages }, rest));
    }
    let (key, rest) = header_key(alloc, skip(s, 2))?;
    if first(rest) != b']' {
        return Err(AllocError);
    }
    let path = table_path(alloc, pages, &key)?;
    Ok((next_table(alloc, pages, path)?, skip(rest, 1)))
}

// One line: a header, or a key with its value.
#[tactic(auto, unfolding(crate::specs::Places::line))]
fn line<'a>(
    alloc: Global,
    target: &str,
    tables: &mut Tables,
    s: &'a str,
) -> Result<(Option<usize>, &'a str), AllocError>
    ensures value { IfOk result (λ p. rule.line target.now (tables_of tables.old) s.now ≡ Some ((p.0, tables_of tables.new), p.1.now)) }
    ensures shorter { IfOk result (λ p. length p.1.now < length s.now) }
{
    if first(s) != b'[' {
        let (place, rest) = pair(alloc, target, tables.path.as_str(), s, RECURSION_LIMIT)?;
        return Ok((place, rest));
    }
    let (next, rest) = header(alloc, tables.pages, s)?;
    *tables = next;
    Ok((here(target, tables.path.as_str(), s), rest))
}

// The text after a byte order mark, if there is one.
fn skip_bom(s: &str) -> &str
    ensures rest { result.now ≡ skip_bom s.now }
    ensures within { length result.now ≤ length s.now }
{
    if first(s) == 0xEF && byte_at(s, 1) == 0xBB && byte_at(s, 2) == 0xBF {
        &s[3..]
    } else {
        s
    }
}

// The first place in the lines of a text, as the number of bytes from there to the end.
fn lines(alloc: Global, target: &str, s: &str) -> Result<Option<usize>, AllocError>
    ensures { IfOk result (λ left. rule.lines target.now (suc (length s.now)) ([], 0) s.now ≡ Some left) }
{
    let mut tables = Tables {
        path: String::new(alloc),
        pages: 0,
    };
    let mut rest = s;
    'lines: loop {
        let start = skip_blank(rest, true);
        if start.is_empty() {
            return Ok(None);
        }
        let (place, after) = line(alloc, target, &mut tables, start)?;
        match place {
            Some(left) => return Ok(Some(left)),
            None => rest = after,
        }
    }
}

/// The place of the first value, element or header with a path. `None` if the text has none. `Err` if memory runs out, or if the text
/// is not TOML.
#[tactic(auto, unfolding(crate::specs::Places::place_of))]
pub fn place_of(alloc: Global, text: &str, target: &str) -> Result<Option<usize>, AllocError>
    ensures { IfOk result (λ place. rule.place_of target.now text.now ≡ Some place) }
{
    match lines(alloc, target, skip_bom(text))? {
        Some(left) => Ok(Some(text.len().saturating_sub(left))),
        None => Ok(None),
    }
}
