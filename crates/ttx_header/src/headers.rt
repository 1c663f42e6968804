//! Page headers.

ghost use Rattle.std.specs.Prelude.{◌≡◌, SomeIff};
ghost use Rattle.ttx_header.specs.Control.{IsControl};
ghost use Rattle.ttx_header.specs.Fields.{IsHeaderFields, fields_at};

use crate::control::Control;
use crate::ids::PageId;
use std::marker::Model;

/// A page header: the id of the page, its control bits, its 24 characters and the 8 characters of the clock. Both texts are
/// the bytes as they are sent.
#[derive(Clone, Copy, PartialEq, Eq)]
pub struct Header {
    id: PageId,
    control: Control,
    text: [u8; 24],
    clock: [u8; 8],
}

impl Model for Header {
    ghost use Rattle.ttx_header.specs.Fields.{HeaderFields, IsHeaderFields, fields_at};

    ghost Value = { HeaderFields };

    ghost view = { λ h. fields_at h.id h.control.0 h.text h.clock };

    ghost inverse = { λ f. record { id = f.id; control = record { 0 = f.control }; text = f.text; clock = f.clock } };

    ghost invariant = { λ h. IsHeaderFields (fields_at h.id h.control.0 h.text h.clock) };
}

impl Header {
    /// A header of these fields. `None` if a bit above C14 is set in `control`.
    pub fn new(id: PageId, control: Control, text: [u8; 24], clock: [u8; 8]) -> Option<Header>
        ensures { SomeIff result (IsControl control.0) (fields_at id control.0 text clock) }
    {
        if control.0 < 2048 {
            Some(Header {
                id,
                control,
                text,
                clock,
            })
        } else {
            None
        }
    }

    /// The id of the page.
    pub fn id(&self) -> PageId
        ensures value { result ≡ self.now.id }
        ensures ranges { IsHeaderFields self.now }
    {
        self.id
    }

    /// The control bits.
    pub fn control(&self) -> Control
        ensures { result.0 ≡ self.now.control }
    {
        self.control
    }

    /// Bytes 10 to 33 (columns 8 to 31 of row 0), as they are sent.
    pub fn text(&self) -> &[u8; 24]
        ensures { result.now ≡ self.now.text }
    {
        &self.text
    }

    /// Bytes 34 to 41 (the clock), as they are sent.
    pub fn clock(&self) -> &[u8; 8]
        ensures { result.now ≡ self.now.clock }
    {
        &self.clock
    }
}
