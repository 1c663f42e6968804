//! The targets of links.

ghost use Rattle.std.specs.Prelude.{◌≡◌, SomeIff};
ghost use Rattle.ttx_header.specs.Ids.{id_at};
ghost use Rattle.ttx_links.specs.Sets.{IsTarget};

use std::marker::Model;

/// The page that a link leads to. Subcode 3F7F means any subpage; with page FF the subcode is never 3F7F.
#[derive(Clone, Copy, PartialEq, Eq)]
pub struct Target {
    mag: u8,
    page: u8,
    sub: u16,
}

impl Model for Target {
    ghost use Rattle.ttx_header.specs.Ids.{Id, id_at};
    ghost use Rattle.ttx_links.specs.Sets.{IsTarget};

    ghost Value = { Id };

    ghost view = { λ t. id_at t.mag t.page t.sub };

    ghost inverse = { λ id. record { mag = id.mag; page = id.page; sub = id.sub } };

    ghost invariant = { λ t. IsTarget (id_at t.mag t.page t.sub) };
}

impl Target {
    /// The target with these numbers. `None` if the magazine is not 1 to 8, the subcode has a bit outside 3F7F, or the target would
    /// be page FF with subcode 3F7F, which is no link.
    pub fn new(mag: u8, page: u8, sub: u16) -> Option<Target>
        ensures { SomeIff result (IsTarget (id_at mag page sub)) (id_at mag page sub) }
    {
        if 1 <= mag
            && mag <= 8
            && sub < 0x4000
            && sub / 128 % 2 == 0
            && !(page == 0xff && sub == 0x3f7f)
        {
            Some(Target { mag, page, sub })
        } else {
            None
        }
    }

    /// The magazine, 1 to 8.
    pub fn mag(&self) -> u8
        ensures value { result ≡ self.now.mag }
        ensures ranges { IsTarget self.now }
    {
        self.mag
    }

    /// The page number within the magazine: two hexadecimal digits.
    pub fn page(&self) -> u8
        ensures { result ≡ self.now.page }
    {
        self.page
    }

    /// The subcode. It has no bit outside 3F7F.
    pub fn sub(&self) -> u16
        ensures { result ≡ self.now.sub }
    {
        self.sub
    }
}
