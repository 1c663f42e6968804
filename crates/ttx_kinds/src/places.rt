//! The places of a command's inputs.

ghost use Rattle.std.specs.Prelude.{◌≡◌};
ghost use Rattle.ttx_kinds.specs.Places.{takes, other_kind};

use crate::kinds::{Kind, kind_of};

/// A place among the arguments of a command.
#[derive(Clone, Copy, Debug)]
pub enum Place {
    Cycle,
    Feed,
    Service,
    /// SERVICE of a command that takes an author's text, too.
    ServiceOrAuthor,
    Author,
    Certificate,
}

// Whether a place takes files of a kind.
fn takes(place: Place, kind: Kind) -> bool
    ensures { result ≡ takes place kind }
{
    match place {
        Place::Cycle | Place::Feed => matches!(kind, Kind::Packets),
        Place::Service => matches!(kind, Kind::Service),
        Place::ServiceOrAuthor => matches!(kind, Kind::Service | Kind::Author),
        Place::Author => matches!(kind, Kind::Author),
        Place::Certificate => matches!(kind, Kind::Certificate),
    }
}

/// What a file is by its bytes, if it is of a kind that the place does not take. `None` if the place takes it, or it is of no kind.
pub fn other_kind(place: Place, bytes: &[u8]) -> Option<Kind>
    ensures { result ≡ other_kind place bytes.now }
{
    match kind_of(bytes) {
        Some(kind) if !takes(place, kind) => Some(kind),
        _ => None,
    }
}
