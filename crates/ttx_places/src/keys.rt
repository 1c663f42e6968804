//! Paths, and the keys that extend them.

ghost use Rattle.std.specs.Prelude.{◌≡◌, ◌<◌, ◌++◌, length, map, IfOk, OnOk, Some, string_bytes, encode_utf8};
ghost use Rattle.std.specs.Fmt.{decimal};
ghost use Rattle.toml.specs.Parse.{key_equals, header_key};
ghost use Rattle.toml_parser.specs.Reading.{key_view};
ghost use Rattle.ttx_places.specs.Paths as rule;

use itoa::Buffer;
use std::alloc::{AllocError, Global};
use toml_parser::text::{first, skip, skip_ws};
use toml_parser::{Key, dotted_key};

// Adds a character of a part.
#[tactic(auto, using(crate::proofs::Escapes::plain_character), unfolding(crate::specs::Paths::escaped, std::specs::Prelude::encode_utf8))]
fn push_sign(path: &mut String, sign: char) -> Result<(), AllocError>
    ensures { OnOk result (string_bytes path.new ≡ string_bytes path.old ++ rule.escaped (encode_utf8 sign)) }
{
    match sign {
        '~' => path.push_str("~0"),
        '/' => path.push_str("~1"),
        _ => path.push(sign),
    }
}

/// Adds a part to a path.
pub fn push_part(path: &mut String, part: &str) -> Result<(), AllocError>
    ensures { OnOk result (string_bytes path.new ≡ rule.below (string_bytes path.old) part.now) }
{
    path.push('/')?;
    for sign in part.chars() {
        push_sign(path, sign)?;
    }
    Ok(())
}

/// Adds the number of an element.
pub fn push_number(path: &mut String, number: usize) -> Result<(), AllocError>
    ensures { OnOk result (string_bytes path.new ≡ rule.below (string_bytes path.old) (decimal number)) }
{
    push_part(path, Buffer::new().format(number))
}

/// The path of an element of the array at a path.
pub fn element_path(alloc: Global, path: &str, number: usize) -> Result<String, AllocError>
    ensures { IfOk result (λ p. string_bytes p ≡ rule.below path.now (decimal number)) }
{
    let mut whole = String::from_str(alloc, path)?;
    push_number(&mut whole, number)?;
    Ok(whole)
}

/// The path of a page, counted from 1.
pub fn page_path(alloc: Global, page: usize) -> Result<String, AllocError>
    ensures { IfOk result (λ path. string_bytes path ≡ rule.page_path page) }
{
    element_path(alloc, "/page", page)
}

fn push_parts(path: &mut String, parts: &[String]) -> Result<(), AllocError>
    ensures { OnOk result (string_bytes path.new ≡ rule.under (string_bytes path.old) (map string_bytes parts.now)) }
{
    for part in parts {
        push_part(path, part.as_str())?;
    }
    Ok(())
}

/// The path of the value at a key of the table at a path.
pub fn key_path(alloc: Global, path: &str, key: &Key) -> Result<String, AllocError>
    ensures { IfOk result (λ p. string_bytes p ≡ rule.key_path path.now (key_view key.now)) }
{
    let mut whole = String::from_str(alloc, path)?;
    push_parts(&mut whole, key.path.as_slice())?;
    push_part(&mut whole, key.last.as_str())?;
    Ok(whole)
}

// Adds a part of the name of a table. `page` means the latest of the tables `[[page]]`.
fn push_name(path: &mut String, pages: usize, part: &str) -> Result<(), AllocError>
    ensures { OnOk result (string_bytes path.new ≡ rule.named pages (string_bytes path.old) part.now) }
{
    if path.as_str() == "/page" {
        push_number(path, pages)?;
    }
    push_part(path, part)
}

fn push_names(path: &mut String, pages: usize, parts: &[String]) -> Result<(), AllocError>
    ensures { OnOk result (string_bytes path.new ≡ rule.all_named pages (string_bytes path.old) (map string_bytes parts.now)) }
{
    for part in parts {
        push_name(path, pages, part.as_str())?;
    }
    Ok(())
}

/// The path of the table that a header names, after `pages` tables `[[page]]`.
pub fn table_path(alloc: Global, pages: usize, key: &Key) -> Result<String, AllocError>
    ensures { IfOk result (λ p. string_bytes p ≡ rule.table_path pages (key_view key.now)) }
{
    let mut path = String::new(alloc);
    push_names(&mut path, pages, key.path.as_slice())?;
    push_name(&mut path, pages, key.last.as_str())?;
    Ok(path)
}

/// A key, `=` and the white space after it.
#[tactic(auto, unfolding(toml::specs::Parse::key_equals))]
pub fn key_equals(alloc: Global, s: &str) -> Result<(Key, &str), AllocError>
    ensures value { IfOk result (λ p. key_equals s.now ≡ Some (key_view p.0, p.1.now)) }
    ensures shorter { IfOk result (λ p. length p.1.now < length s.now) }
{
    let Ok((key, rest)) = dotted_key(alloc, s) else {
        return Err(AllocError);
    };
    if first(rest) != b'=' {
        return Err(AllocError);
    }
    Ok((key, skip_ws(skip(rest, 1))))
}

/// The key of a header and its first closing bracket.
#[tactic(auto, unfolding(toml::specs::Parse::header_key))]
pub fn header_key(alloc: Global, s: &str) -> Result<(Key, &str), AllocError>
    ensures value { IfOk result (λ p. header_key s.now ≡ Some (key_view p.0, p.1.now)) }
    ensures shorter { IfOk result (λ p. length p.1.now < length s.now) }
{
    let Ok((key, rest)) = dotted_key(alloc, skip_ws(s)) else {
        return Err(AllocError);
    };
    if first(rest) != b']' {
        return Err(AllocError);
    }
    Ok((key, skip(rest, 1)))
}
