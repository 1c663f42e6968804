//! The ids of pages.

ghost use Rattle.std.specs.Prelude.{◌≡◌, SomeIff};
ghost use Rattle.ttx_header.specs.Ids.{IsId, id_at};

use std::marker::Model;

/// The id of a page: its magazine, 1 to 8, its page number as two hexadecimal digits in one byte, and its subcode inside the
/// mask 3F7F.
#[derive(Clone, Copy, PartialEq, Eq, Hash)]
pub struct PageId {
    mag: u8,
    page: u8,
    sub: u16,
}

impl Model for PageId {
    ghost use Rattle.ttx_header.specs.Ids.{Id, IsId, id_at};

    ghost Value = { Id };

    ghost view = { λ p. id_at p.mag p.page p.sub };

    ghost inverse = { λ id. record { mag = id.mag; page = id.page; sub = id.sub } };

    ghost invariant = { λ p. IsId (id_at p.mag p.page p.sub) };
}

impl PageId {
    /// An id of these numbers. `None` if the magazine is not 1 to 8, or the subcode has a bit outside 3F7F.
    pub fn new(mag: u8, page: u8, sub: u16) -> Option<PageId>
        ensures { SomeIff result (IsId (id_at mag page sub)) (id_at mag page sub) }
    {
        if 1 <= mag && mag <= 8 && sub < 0x4000 && sub / 128 % 2 == 0 {
            Some(PageId { mag, page, sub })
        } else {
            None
        }
    }

    /// The magazine, 1 to 8.
    pub fn mag(&self) -> u8
        ensures value { result ≡ self.now.mag }
        ensures ranges { IsId self.now }
    {
        self.mag
    }

    /// The page number within the magazine: two hexadecimal digits.
    pub fn page(&self) -> u8
        ensures { result ≡ self.now.page }
    {
        self.page
    }

    /// The subcode, with no bit outside 3F7F.
    pub fn sub(&self) -> u16
        ensures { result ≡ self.now.sub }
    {
        self.sub
    }
}
