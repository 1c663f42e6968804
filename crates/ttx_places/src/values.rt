//! Finds places in values.

ghost use Rattle.std.specs.Prelude.{◌≡◌, ℕ, ◌<◌, ◌≤◌, length, IfOk, Some, None};
ghost use Rattle.toml.specs.Parse.{after_element};
ghost use Rattle.ttx_places.specs.Places as rule;

use crate::keys::{element_path, key_equals, key_path};
use std::alloc::{AllocError, Global};
use toml_parser::text::{first, skip, skip_blank};
use toml_parser::{quoted, starts_string, unquoted};

/// The place of the value that begins here, if its path is the target.
pub fn here(target: &str, path: &str, s: &str) -> Option<usize>
    ensures { result ≡ rule.here target.now path.now s.now }
{
    if path == target { Some(s.len()) } else { None }
}

// The text after a string, a number, a boolean or a date.
#[tactic(auto, unfolding(toml::specs::Parse::atom))]
fn after_atom<'a>(alloc: Global, s: &'a str) -> Result<&'a str, AllocError>
    ensures value { IfOk result (λ rest. rule.after_atom s.now ≡ Some rest.now) }
    ensures shorter { IfOk result (λ rest. length rest.now < length s.now) }
{
    if starts_string(s) {
        match quoted(alloc, s) {
            Ok((_text, rest)) => Ok(rest),
            Err(_) => Err(AllocError),
        }
    } else {
        match unquoted(alloc, s) {
            Ok((_scalar, rest)) => Ok(rest),
            Err(_) => Err(AllocError),
        }
    }
}

// After a comma, or at the closing bracket.
#[tactic(auto, unfolding(toml::specs::Parse::after_element))]
fn after_element(s: &str, closing: u8) -> Result<&str, AllocError>
    ensures value { IfOk result (λ rest. after_element closing s.now ≡ Some rest.now) }
    ensures within { IfOk result (λ rest. length rest.now ≤ length s.now) }
{
    let rest = skip_blank(s, true);
    if first(rest) == b',' {
        Ok(skip(rest, 1))
    } else if first(rest) == closing {
        Ok(rest)
    } else {
        Err(AllocError)
    }
}

#[cycle(value)]
fn elements<'a>(
    alloc: Global,
    target: &str,
    path: &str,
    s: &'a str,
    depth: usize,
) -> Result<(Option<usize>, &'a str), AllocError>
    ensures value { IfOk result (λ p. (n : ℕ) → length s.now < n
        → rule.elements (rule.value target.now depth) n 1 path.now None s.now ≡ Some (p.0, p.1.now)) }
    ensures shorter { IfOk result (λ p. length p.1.now < length s.now) }
{
    let mut found = None;
    let mut number = 1usize;
    let mut rest = s;
    'elements: loop {
        let start = skip_blank(rest, true);
        if first(start) == b']' {
            return Ok((found, skip(start, 1)));
        }
        let at = element_path(alloc, path, number)?;
        let (place, after) = value(alloc, target, at.as_str(), start, depth)?;
        found = found.or(place);
        rest = after_element(after, b']')?;
        let Some(next) = number.checked_add(1) else {
            return Err(AllocError);
        };
        number = next;
    }
}

#[cycle(value)]
fn members<'a>(
    alloc: Global,
    target: &str,
    path: &str,
    s: &'a str,
    depth: usize,
) -> Result<(Option<usize>, &'a str), AllocError>
    ensures value { IfOk result (λ p. (n : ℕ) → length s.now < n
        → rule.members (rule.value target.now depth) n path.now None s.now ≡ Some (p.0, p.1.now)) }
    ensures shorter { IfOk result (λ p. length p.1.now < length s.now) }
{
    let mut found = None;
    let mut rest = s;
    'members: loop {
        let start = skip_blank(rest, true);
        if first(start) == b'}' {
            return Ok((found, skip(start, 1)));
        }
        let (place, after) = pair(alloc, target, path, start, depth)?;
        found = found.or(place);
        rest = after_element(after, b'}')?;
    }
}

/// A key with its value. The key extends the path of the value.
#[cycle(value)]
pub fn pair<'a>(
    alloc: Global,
    target: &str,
    path: &str,
    s: &'a str,
    depth: usize,
) -> Result<(Option<usize>, &'a str), AllocError>
    ensures value { IfOk result (λ p. rule.pair (rule.value target.now depth) path.now s.now ≡ Some (p.0, p.1.now)) }
    ensures shorter { IfOk result (λ p. length p.1.now < length s.now) }
{
    let (key, at_value) = key_equals(alloc, s)?;
    let below = key_path(alloc, path, &key)?;
    value(alloc, target, below.as_str(), at_value, depth)
}

/// A value with a path, with arrays and inline tables at most `depth` deep: the place of the target in it, and the text after it.
#[cycle(value)]
pub fn value<'a>(
    alloc: Global,
    target: &str,
    path: &str,
    s: &'a str,
    depth: usize,
) -> Result<(Option<usize>, &'a str), AllocError>
    ensures value { IfOk result (λ p. rule.value target.now depth path.now s.now ≡ Some (p.0, p.1.now)) }
    ensures shorter { IfOk result (λ p. length p.1.now < length s.now) }
{
    let byte = first(s);
    let at = here(target, path, s);
    if byte != b'[' && byte != b'{' {
        return Ok((at, after_atom(alloc, s)?));
    }
    if depth == 0 {
        return Err(AllocError);
    }
    if byte == b'[' {
        let (place, rest) = elements(alloc, target, path, skip(s, 1), depth - 1)?;
        return Ok((at.or(place), rest));
    }
    let (place, rest) = members(alloc, target, path, skip(s, 1), depth - 1)?;
    Ok((at.or(place), rest))
}
