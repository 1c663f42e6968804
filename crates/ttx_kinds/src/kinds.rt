//! The kinds of files.

ghost use Rattle.std.specs.Prelude.{◌≡◌, take};
ghost use Rattle.ttx_kinds.specs.Kinds.{kind_of, untitled_kind, key_kind, is_author, is_service, is_packets, are_slots};
ghost use Rattle.ttx_recognition.specs.Recognition.{judged};

use crate::texts::{begins_with, has_key, text_of};
use ttx_recognition::recognise;

/// What a file is.
#[derive(Clone, Copy, Debug)]
pub enum Kind {
    Packets,
    Service,
    Author,
    Certificate,
    CounterRun,
}

// The first bytes.
fn first(bytes: &[u8], most: usize) -> &[u8]
    ensures { result.now ≡ take most bytes.now }
{
    &bytes[..most.min(bytes.len())]
}

// The first 64 slots, or all that there is.
fn judged(bytes: &[u8]) -> &[u8]
    ensures { result.now ≡ judged bytes.now }
{
    first(bytes, 2688)
}

// Whether there are eight whole slots or more, and nothing else.
fn are_slots(bytes: &[u8]) -> bool
    ensures { result ≡ are_slots bytes.now }
{
    8 * 42 <= bytes.len() && bytes.len() % 42 == 0
}

// Whether the first bytes are slots of teletext.
fn is_packets(bytes: &[u8]) -> bool
    ensures { result ≡ is_packets bytes.now }
{
    are_slots(judged(bytes)) && recognise(bytes).is_none()
}

// Whether the first key is that of authors' texts.
fn is_author(text: &[u8]) -> bool
    ensures { result ≡ is_author text.now }
{
    has_key(text, "author")
}

// Whether the first key is one of services.
fn is_service(text: &[u8]) -> bool
    ensures { result ≡ is_service text.now }
{
    has_key(text, "lines")
        || has_key(text, "serial")
        || has_key(text, "info")
        || has_key(text, "page")
}

// What a TOML text is by its first key.
fn key_kind(text: &[u8]) -> Option<Kind>
    ensures { result ≡ key_kind text.now }
{
    if is_author(text) {
        Some(Kind::Author)
    } else if is_service(text) {
        Some(Kind::Service)
    } else {
        None
    }
}

// What bytes are that have no title.
fn untitled_kind(bytes: &[u8]) -> Option<Kind>
    ensures { result ≡ untitled_kind bytes.now }
{
    if is_packets(bytes) {
        Some(Kind::Packets)
    } else {
        key_kind(text_of(bytes))
    }
}

/// What a file is by its bytes, of which the first 2,688 are enough, or `None` if it is none of the kinds: a certificate or a counter-run
/// by its title; a packet file if these bytes are whole slots, eight or more, and at least one in ten reads; an author's text or a service
/// text by its first key.
pub fn kind_of(bytes: &[u8]) -> Option<Kind>
    ensures { result ≡ kind_of bytes.now }
{
    if begins_with(bytes, "ttx certificate ") {
        Some(Kind::Certificate)
    } else if begins_with(bytes, "ttx counter ") {
        Some(Kind::CounterRun)
    } else {
        untitled_kind(bytes)
    }
}
