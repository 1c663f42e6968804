//! Where a key is first given that a TOML text gives twice.

ghost use Rattle.std.specs.Prelude.{◌≡◌, ◌+◌, ◌≤◌, ◌<◌, ◌++◌, ◌∷◌, [], true, IfOk, Option, length, string_bytes, suc, false, option_map, option_copied};
ghost use Rattle.toml.specs.Parse.{skip_bom};
ghost use Rattle.toml_parser.specs.Strings.{key, starts_string};
ghost use Rattle.ttx_mistakes.specs.FirstKeys as rule;
ghost use Rattle.ttx_mistakes.specs.GivenViews.{given_view, given_views};

use std::alloc::{AllocError, Global};
use toml_parser::text::{byte_at, first, skip, skip_blank, skip_ws};
use toml_parser::{ParseError, bytes, dotted_key, quoted, starts_string};
use ttx_places::key_path;

/// The key or the header of an entry: its path, the number of bytes from it to the end of the text, and whether it begins another table
/// of an array.
#[derive(Drop)]
pub struct GivenKey {
    pub path: String,
    pub left: usize,
    pub element: bool,
}

// The text after a string; none if it cannot be read.
fn after_string(alloc: Global, s: &str) -> Result<&str, AllocError>
    requires { starts_string s.now ≡ true }
    ensures { IfOk result (λ rest. rest.now ≡ rule.after_string s.now) }
{
    match quoted(alloc, s) {
        Ok((_text, rest)) => Ok(rest),
        Err(ParseError::OutOfMemory) => Err(AllocError),
        Err(ParseError::At(..)) => Ok(""),
    }
}

// The text after a string, or after another character outside of strings.
fn after_token(alloc: Global, s: &str) -> Result<&str, AllocError>
    ensures { IfOk result (λ rest. rest.now ≡ rule.after_token s.now) }
{
    if starts_string(s) {
        return after_string(alloc, s);
    }
    let byte = first(s);
    if 0 < byte && byte < 128 {
        Ok(skip(s, 1))
    } else {
        Ok("")
    }
}

fn is_opening(byte: u8) -> bool
    ensures { result ≡ rule.is_opening byte }
{
    byte == b'[' || byte == b'{'
}

fn is_closing(byte: u8) -> bool
    ensures { result ≡ rule.is_closing byte }
{
    byte == b']' || byte == b'}'
}

// How many brackets are open after a token that begins so.
fn depth_after(depth: usize, byte: u8) -> Result<usize, AllocError>
    ensures { IfOk result (λ after. after ≡ rule.depth_after depth byte) }
{
    if is_opening(byte) {
        return depth.checked_add(1).ok_or(AllocError);
    }
    if is_closing(byte) {
        Ok(depth.saturating_sub(1))
    } else {
        Ok(depth)
    }
}

// The next token.
fn token_start(depth: usize, s: &str) -> &str
    ensures { result.now ≡ rule.token_start depth s.now }
{
    if depth == 0 { s } else { skip_blank(s, true) }
}

fn ends_entry(inline: bool, s: &str) -> bool
    ensures { result ≡ rule.ends_entry inline s.now }
{
    if inline {
        matches!(first(s), b',' | b'}') || s.is_empty()
    } else {
        s.is_empty() || matches!(first(s), b'#' | b'\n' | b'\r')
    }
}

// Whether no bracket is open, and an entry ends here.
fn ends_here(inline: bool, depth: usize, s: &str) -> bool
    ensures { result ≡ rule.ends_here inline depth s.now }
{
    depth == 0 && ends_entry(inline, s)
}

// The text after an entry.
fn entry_end(alloc: Global, inline: bool, s: &str) -> Result<&str, AllocError>
    ensures { IfOk result (λ rest. rest.now ≡ rule.after_entry inline s.now) }
{
    let mut depth = 0;
    let mut rest = s;
    for _token in 0..s.len() + 1 {
        let start = token_start(depth, rest);
        if ends_here(inline, depth, start) {
            return Ok(start);
        }
        depth = depth_after(depth, first(start))?;
        rest = after_token(alloc, start)?;
    }
    Ok(rest)
}

// The text from the next entry on.
fn entry_start(s: &str) -> &str
    ensures { result.now ≡ rule.entry_start s.now }
{
    if first(s) == b',' {
        skip_blank(skip(s, 1), true)
    } else {
        skip_blank(s, true)
    }
}

// The path of the key that stands here, below another path.
fn path_of(alloc: Global, section: &str, s: &str) -> Result<String, AllocError>
    ensures { IfOk result (λ p. string_bytes p ≡ rule.path_of section.now (key s.now)) }
{
    match dotted_key(alloc, s) {
        Ok((key, _rest)) => key_path(alloc, section, &key),
        Err(ParseError::OutOfMemory) => Err(AllocError),
        Err(ParseError::At(..)) => Ok(String::new(alloc)),
    }
}

fn is_header(s: &str) -> bool
    ensures { result ≡ rule.is_header s.now }
{
    first(s) == b'['
}

fn is_element(s: &str) -> bool
    ensures { result ≡ rule.is_element s.now }
{
    is_header(s) && byte_at(s, 1) == b'['
}

// The path of an entry.
fn entry_path(alloc: Global, section: &str, s: &str) -> Result<String, AllocError>
    ensures { IfOk result (λ p. string_bytes p ≡ rule.entry_path section.now s.now) }
{
    if first(s) != b'[' {
        return path_of(alloc, section, s);
    }
    if byte_at(s, 1) == b'[' {
        path_of(alloc, "", skip_ws(skip(s, 2)))
    } else {
        path_of(alloc, "", skip_ws(skip(s, 1)))
    }
}

// The path of the table of the last header, after an entry with a path.
fn section_after(alloc: Global, section: String, path: &str, s: &str) -> Result<String, AllocError>
    ensures { IfOk result (λ p. string_bytes p ≡ rule.section_after (string_bytes section) path.now s.now) }
{
    if is_header(s) {
        String::from_str(alloc, path)
    } else {
        Ok(section)
    }
}

// The key or the header of an entry.
fn given_key(alloc: Global, section: &str, s: &str) -> Result<GivenKey, AllocError>
    ensures { IfOk result (λ k. given_view k ≡ rule.given_key section.now s.now) }
{
    Ok(GivenKey {
        path: entry_path(alloc, section, s)?,
        left: s.len(),
        element: is_element(s),
    })
}

// The keys and headers of a text, or of an inline table, up to a place.
fn given_keys(
    alloc: Global,
    inline: bool,
    stop: usize,
    s: &str,
) -> Result<Vec<GivenKey>, AllocError>
    ensures { IfOk result (λ keys. given_views keys.items ≡ rule.keys_of inline stop s.now) }
{
    let mut keys = Vec::new(alloc);
    let mut section = String::new(alloc);
    let mut rest = s;
    for _entry in 0..s.len() + 1 {
        let start = entry_start(rest);
        if start.len() < stop {
            return Ok(keys);
        }
        let key = given_key(alloc, section.as_str(), start)?;
        section = section_after(alloc, section, key.path.as_str(), start)?;
        keys.push(key)?;
        rest = entry_end(alloc, inline, start)?;
    }
    Ok(keys)
}

// Whether a path is that of a value in the table with another path.
fn is_below(path: &str, target: &str) -> bool
    ensures { result ≡ rule.is_below path.now target.now }
{
    let target = target.as_bytes();
    target.starts_with(path.as_bytes()) && bytes::byte_at(target, path.len()) == b'/'
}

// The first place of the target so far, after one more key.
fn found_after(target: &str, key: &GivenKey, found: Option<usize>) -> Option<usize>
    ensures { result ≡ rule.found_after target.now (given_view key.now) found }
{
    if key.path.as_str() == target {
        found.or(Some(key.left))
    } else if key.element && is_below(key.path.as_str(), target) {
        None
    } else {
        found
    }
}

// The place of the first key with a path, in the same table.
fn first_given(target: &str, keys: &[GivenKey]) -> Option<usize>
    ensures { result ≡ rule.first_given target.now (given_views keys.now) None }
{
    let mut found = None;
    for key in keys {
        found = found_after(target, key, found);
    }
    found
}

// The key at a place.
fn key_at(stop: usize, keys: &[GivenKey]) -> Option<&GivenKey>
    ensures { option_map (λ k. given_view k.now) result ≡ rule.key_at stop (given_views keys.now) }
{
    for key in keys {
        if key.left == stop {
            return Some(key);
        }
    }
    None
}

// The place where the key at a place is first given, if it is given before.
fn first_left(stop: usize, keys: &[GivenKey]) -> Option<usize>
    ensures { result ≡ rule.first_left stop (given_views keys.now) }
{
    let Some(key) = key_at(stop, keys) else {
        return None;
    };
    match first_given(key.path.as_str(), keys) {
        Some(left) if stop < left => Some(left),
        _ => None,
    }
}

// The text after a byte order mark, if there is one.
fn skip_bom(s: &str) -> &str
    ensures { result.now ≡ skip_bom s.now }
{
    if first(s) == 0xEF && byte_at(s, 1) == 0xBB && byte_at(s, 2) == 0xBF {
        &s[3..]
    } else {
        s
    }
}

// The inside of the brackets that were opened last with so many open, where so many are open after a token.
fn inside_after<'a>(wanted: usize, depth: usize, inside: &'a str, s: &'a str) -> &'a str
    ensures { result.now ≡ rule.inside_after wanted depth inside.now s.now }
{
    let byte = first(s);
    if (byte == b'[' || byte == b'{') && depth == wanted {
        skip(s, 1)
    } else {
        inside
    }
}

// The brackets that are open at a place, and the text after the one that was opened last with so many open.
fn brackets_at(
    alloc: Global,
    wanted: usize,
    stop: usize,
    s: &str,
) -> Result<(usize, &str), AllocError>
    ensures { IfOk result (λ table. (table.0, table.1.now) ≡ rule.brackets_at wanted stop s.now) }
{
    let mut depth = 0;
    let mut inside = s;
    let mut rest = s;
    for _token in 0..s.len() + 1 {
        let start = skip_blank(rest, true);
        if start.len() <= stop {
            return Ok((depth, inside));
        }
        depth = depth_after(depth, first(start))?;
        inside = inside_after(wanted, depth, inside, start);
        rest = after_token(alloc, start)?;
    }
    Ok((depth, inside))
}

// The depth at a place, and the text or the inside of the innermost brackets.
fn table_at(alloc: Global, stop: usize, s: &str) -> Result<(usize, &str), AllocError>
    ensures { IfOk result (λ table. (table.0, table.1.now) ≡ rule.table_at stop s.now) }
{
    let (depth, _inside) = brackets_at(alloc, 0, stop, s)?;
    brackets_at(alloc, depth, stop, s)
}

// The keys of the text or the inline table at a place, up to the place.
fn table_keys(alloc: Global, stop: usize, s: &str) -> Result<Vec<GivenKey>, AllocError>
    ensures { IfOk result (λ keys. given_views keys.items ≡ rule.table_keys stop (rule.table_at stop s.now)) }
{
    let (depth, inside) = table_at(alloc, stop, s)?;
    given_keys(alloc, 0 < depth, stop, inside)
}

/// The place where the key or the header at a place is first given, in the same table. `None` if no key or header stands there, or none
/// with its path before. Paths are those of ttx_places.
#[tactic(auto, unfolding(crate::specs::FirstKeys::first_place))]
pub fn first_place(alloc: Global, text: &str, place: usize) -> Result<Option<usize>, AllocError>
    ensures { IfOk result (λ first. first ≡ rule.first_place text.now place) }
{
    let stop = text.len().saturating_sub(place);
    let keys = table_keys(alloc, stop, skip_bom(text))?;
    match first_left(stop, &keys) {
        Some(left) => Ok(Some(text.len().saturating_sub(left))),
        None => Ok(None),
    }
}
