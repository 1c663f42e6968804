//! The links of a page.

ghost use Rattle.std.specs.Prelude.{◌≡◌};
ghost use Rattle.ttx_links.specs.Sets.{IsLinksFields, links_at};

use crate::targets::Target;
use std::marker::Model;

/// The contents of a packet X/27/0: six links, whether row 24 is shown, and the two bytes of the page CRC as they are sent.
#[derive(Clone, Copy, PartialEq, Eq)]
pub struct Links {
    six: [Option<Target>; 6],
    show24: bool,
    crc: [u8; 2],
}

impl Model for Links {
    ghost use Rattle.ttx_links.specs.Sets.{LinksFields, IsLinksFields, links_at};

    ghost Value = { LinksFields };

    ghost view = { λ l. links_at l.six l.show24 l.crc };

    ghost inverse = { λ f. record { six = f.set.six; show24 = f.set.show24; crc = f.crc } };

    ghost invariant = { λ l. IsLinksFields (links_at l.six l.show24 l.crc) };
}

impl Links {
    /// The links with these fields.
    pub fn new(six: [Option<Target>; 6], show24: bool, crc: [u8; 2]) -> Links
        ensures { result ≡ links_at six show24 crc }
    {
        Links { six, show24, crc }
    }

    /// The six links. The first four belong to the coloured keys.
    pub fn six(&self) -> &[Option<Target>; 6]
        ensures value { result.now ≡ self.now.set.six }
        ensures ranges { IsLinksFields self.now }
    {
        &self.six
    }

    /// Whether row 24 is shown (bit D4 of the link control).
    pub fn show24(&self) -> bool
        ensures { result ≡ self.now.set.show24 }
    {
        self.show24
    }

    /// The page CRC: bytes 40 and 41, as they are sent.
    pub fn crc(&self) -> [u8; 2]
        ensures { result ≡ self.now.crc }
    {
        self.crc
    }
}
