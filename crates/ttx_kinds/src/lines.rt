//! The line about a file of another kind than its place takes.

ghost use Rattle.std.specs.Prelude.{◌≡◌, ◌++◌, OnOk, string_bytes};
ghost use Rattle.ttx_kinds.specs.Lines.{kind_text, place_text, other_line, line_if, told_line};

use crate::kinds::Kind;
use crate::places::{Place, other_kind};
use std::alloc::AllocError;

// What a file is.
fn kind_text(kind: Kind) -> &'static str
    ensures { result.now ≡ kind_text kind }
{
    match kind {
        Kind::Packets => "a packet file",
        Kind::Service => "a service text",
        Kind::Author => "an author's text",
        Kind::Certificate => "a certificate",
        Kind::CounterRun => "a counter-run",
    }
}

// What a place takes.
fn place_text(place: Place) -> &'static str
    ensures { result.now ≡ place_text place }
{
    match place {
        Place::Cycle => "CYCLE takes a packet file",
        Place::Feed => "FEED takes packets",
        Place::Service => "SERVICE takes a service text",
        Place::ServiceOrAuthor => "SERVICE takes a service text or an author's text",
        Place::Author => "AUTHOR takes an author's text",
        Place::Certificate => "CERT takes a certificate",
    }
}

// Appends the line that says what a file is, and what its place takes.
fn push_line(text: &mut String, place: Place, kind: Kind) -> Result<(), AllocError>
    ensures { OnOk result (string_bytes text.new ≡ string_bytes text.old ++ other_line place kind) }
{
    text.push_str("the file is ")?;
    text.push_str(kind_text(kind))?;
    text.push_str("; ")?;
    text.push_str(place_text(place))?;
    text.push('\n')
}

// Appends the line if there is a kind to name.
fn push_found(text: &mut String, place: Place, found: Option<Kind>) -> Result<(), AllocError>
    ensures { OnOk result (string_bytes text.new ≡ string_bytes text.old ++ line_if place found) }
{
    match found {
        Some(kind) => push_line(text, place, kind),
        None => Ok(()),
    }
}

/// Appends a line if a file, of these first bytes, is of a kind that its place does not take, such as
/// `the file is a certificate; SERVICE takes a service text`. Appends nothing if the place takes it, or it is of no kind.
pub fn push_other(text: &mut String, place: Place, bytes: &[u8]) -> Result<(), AllocError>
    ensures { OnOk result (string_bytes text.new ≡ string_bytes text.old ++ told_line place bytes.now) }
{
    push_found(text, place, other_kind(place, bytes))
}
