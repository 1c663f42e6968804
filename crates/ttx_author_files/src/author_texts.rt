//! Authors' texts where a service is read.

ghost use Rattle.std.specs.Prelude.{◌≡◌, ◌≤◌, ◌∷◌, [], true, length, codes, None, option_map, option_and_then, IfSome, IfOk, IfErr};
ghost use Rattle.toml.specs.Data.{get_member, as_integer};
ghost use Rattle.toml.specs.Parse.{skip_bom};
ghost use Rattle.toml.specs.View.{table_view, view};
ghost use Rattle.toml_parser.specs.Reading.{key_view};
ghost use Rattle.ttx_cycle.specs.Counters.{inner_of, faults_of};
ghost use Rattle.ttx_files.specs.Devices.{AtService, input, failed_at, IsFirstFailure, IsOf};
ghost use Rattle.ttx_author_files.specs.AuthorTexts as rule;
ghost use Rattle.ttx_source.specs.Documents.{document_of};

use crate::service_text::refusal;
use std::alloc::{AllocError, Global};
use std::io::Read;
use toml::{Table, Value};
use toml_parser::text::{byte_at, first, skip_blank};
use toml_parser::{Key, ParseError, dotted_key};
use ttx_cycle::Counted;
use ttx_desk::compose;
use ttx_files::{FilesFault, read_service_text};
use ttx_source::read_document;

// The text after a byte order mark, if there is one.
fn skip_bom(s: &str) -> &str
    ensures rest { result.now ≡ skip_bom s.now }
    ensures within { length result.now ≤ length s.now }
{
    if first(s) == 0xEF && byte_at(s, 1) == 0xBB && byte_at(s, 2) == 0xBF {
        &s[3..]
    } else {
        s
    }
}

fn is_author_key(key: &Key) -> bool
    ensures { result ≡ rule.is_author_key (key_view key.now) }
{
    key.path.is_empty() && key.last.as_str() == "author"
}

// Whether the first key of a text is `author`.
fn begins_author(alloc: Global, text: &str) -> Result<bool, AllocError>
    ensures { IfOk result (λ is. is ≡ rule.begins_author text.now) }
{
    match dotted_key(alloc, skip_blank(skip_bom(text), true)) {
        Ok((key, _rest)) => Ok(is_author_key(&key)),
        Err(ParseError::OutOfMemory) => Err(AllocError),
        Err(_) => Ok(false),
    }
}

// The value at a key.
fn member<'a>(table: &'a Table, key: &str) -> Option<&'a Value>
    ensures { option_map (λ x. view x.now) result ≡ get_member key.now (table_view table.now) }
{
    table.get(key)
}

// The number at the key `author`.
fn mark_of(table: &Table) -> Option<i64>
    ensures { result ≡ option_and_then as_integer (get_member (codes "author") (table_view table.now)) }
{
    member(table, "author")?.as_integer()
}

// Whether the key `author` has the value 1.
fn is_marked(table: &Table) -> bool
    ensures { result ≡ rule.is_one (option_and_then as_integer (get_member (codes "author") (table_view table.now))) }
{
    match mark_of(table) {
        Some(1) => true,
        _ => false,
    }
}

// The same of the table that bytes are, if they are one.
fn is_marked_text(alloc: Global, bytes: &[u8]) -> Result<bool, AllocError>
    ensures { IfOk result (λ is. is ≡ rule.is_marked (document_of bytes.now)) }
{
    match read_document(alloc, bytes)? {
        Some(document) => Ok(is_marked(&document.table)),
        None => Ok(false),
    }
}

/// Whether bytes are an author's text: a TOML text whose first key is `author`, with the value 1. `Err` if memory runs out.
#[tactic(auto, using(ttx_source::proofs::DocumentTexts::not_utf8))]
pub fn is_author_text(alloc: Global, bytes: &[u8]) -> Result<bool, AllocError>
    ensures { IfOk result (λ is. is ≡ rule.is_author_text bytes.now) }
{
    match std::str::from_utf8(bytes) {
        Ok(text) => Ok(begins_author(alloc, text)? && is_marked_text(alloc, bytes)?),
        Err(_) => Ok(false),
    }
}

/// The service text that a file stands for, or the lines about an author's text that has none.
#[derive(Drop)]
pub enum Standing {
    Text(Vec<u8>),
    Lines(String),
}

// The service text of an author's text, or the lines about what is wrong.
fn author_standing(alloc: Global, name: &str, author: &[u8]) -> Result<Standing, AllocError>
    ensures { IfOk result (rule.IsStandingBy true name.now author.now) }
{
    match compose(alloc, author, name) {
        Ok(composed) => Ok(Standing::Text(composed.text.into_bytes())),
        Err(fault) => Ok(Standing::Lines(refusal(alloc, name, author, &fault)?)),
    }
}

// What bytes stand for.
fn standing_of(alloc: Global, name: &str, bytes: Vec<u8>) -> Result<Standing, AllocError>
    ensures { IfOk result (rule.IsStandingBy (rule.is_author_text bytes.items) name.now bytes.items) }
{
    if is_author_text(alloc, bytes.as_slice())? {
        author_standing(alloc, name, bytes.as_slice())
    } else {
        Ok(Standing::Text(bytes))
    }
}

/// Reads a service text or an author's text, of at most 4,194,304 bytes: the service text that it stands for; or, if an author's text
/// has mistakes, their lines, as `compose` writes them. `name` is the name of the file. Its faults are `Read`, `TooLong` and `NoMemory`.
pub fn read_standing<R: Read>(
    alloc: Global,
    name: &str,
    reader: &mut Counted<R>,
) -> Result<Standing, FilesFault>
    ensures bytes { IfSome (R.remaining (inner_of reader.old)) (λ bytes. rule.ReadsStanding name.now bytes result) }
    ensures own { IfErr result (IsOf (AtService ∷ [])) }
    ensures faults { IsFirstFailure (input AtService None (faults_of reader.old) (faults_of reader.new) ∷ []) (failed_at result) }
{
    let text = read_service_text(alloc, reader)?;
    match standing_of(alloc, name, text) {
        Ok(standing) => Ok(standing),
        Err(_) => Err(FilesFault::NoMemory),
    }
}
