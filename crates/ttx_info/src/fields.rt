//! The fields of packet 8/30 format 1.

ghost use Rattle.std.specs.Prelude.{◌≡◌, ◌↔◌, IsTrue, SomeIff, All, ◌<◌};
ghost use Rattle.ttx_info.specs.Infos.{IsInfoRange, IsInfoFields, info_at};

use std::marker::Model;
use ttx_links::Target;

/// The fields of packet 8/30 format 1 (EN 300 706, 9.8.1).
#[derive(Clone, Copy, PartialEq, Eq)]
pub struct Info {
    pub(crate) designation: u8,
    pub(crate) initial: Option<Target>,
    pub(crate) network: [u8; 2],
    pub(crate) halves: u8,
    pub(crate) west: bool,
    pub(crate) mjd: u32,
    pub(crate) utc: u32,
    pub(crate) text: [u8; 20],
}

impl Model for Info {
    ghost use Rattle.ttx_info.specs.Infos.{InfoFields, IsInfoFields, info_at};

    ghost Value = { InfoFields };

    ghost view = { λ i. info_at i.designation i.initial i.network i.halves i.west i.mjd i.utc i.text };

    ghost inverse = { λ f. record {
      designation = f.designation;
      initial = f.initial;
      network = f.network;
      halves = f.halves;
      west = f.west;
      mjd = f.mjd;
      utc = f.utc;
      text = f.text;
    } };

    ghost invariant = { λ i. IsInfoFields (info_at i.designation i.initial i.network i.halves i.west i.mjd i.utc i.text) };
}

// Whether all codes are below 128.
fn are_characters(text: &[u8; 20]) -> bool
    ensures { IsTrue result ↔ All (λ c. c < 128) text.now }
{
    text.iter().all(|c| *c < 128)
}

impl Info {
    /// An `Info` with these fields: the designation, 0 or 1; the initial page; the network code; the local offset in half hours,
    /// 0 to 31, and whether it is negative; the Modified Julian Date, below 100,000; UTC, below 1,000,000, as the six digits
    /// hhmmss; the 20 characters. `None` if one of these ranges is exceeded, or a character is not below 128.
    pub fn new(
        designation: u8,
        initial: Option<Target>,
        network: [u8; 2],
        halves: u8,
        west: bool,
        mjd: u32,
        utc: u32,
        text: [u8; 20],
    ) -> Option<Info>
        ensures { SomeIff result (IsInfoRange (info_at designation initial network halves west mjd utc text))
            (info_at designation initial network halves west mjd utc text) }
    {
        if designation < 2
            && halves < 32
            && mjd < 100_000
            && utc < 1_000_000
            && are_characters(&text)
        {
            Some(Info {
                designation,
                initial,
                network,
                halves,
                west,
                mjd,
                utc,
                text,
            })
        } else {
            None
        }
    }

    /// The designation, 0 or 1.
    pub fn designation(&self) -> u8
        ensures value { result ≡ self.now.designation }
        ensures ranges { IsInfoFields self.now }
    {
        self.designation
    }

    /// The initial page, which a receiver shows first; `None` if there is none.
    pub fn initial(&self) -> &Option<Target>
        ensures { result.now ≡ self.now.initial }
    {
        &self.initial
    }

    /// The two bytes of the network code, as they are sent.
    pub fn network(&self) -> [u8; 2]
        ensures { result ≡ self.now.network }
    {
        self.network
    }

    /// The local offset in half hours, 0 to 31, without its sign.
    pub fn halves(&self) -> u8
        ensures value { result ≡ self.now.halves }
        ensures range { result < 32 }
    {
        self.halves
    }

    /// Whether the local offset is negative (west).
    pub fn west(&self) -> bool
        ensures { result ≡ self.now.west }
    {
        self.west
    }

    /// The Modified Julian Date, five digits.
    pub fn mjd(&self) -> u32
        ensures { result ≡ self.now.mjd }
    {
        self.mjd
    }

    /// UTC as the six digits hhmmss.
    pub fn utc(&self) -> u32
        ensures { result ≡ self.now.utc }
    {
        self.utc
    }

    /// The 20 character codes of the status display.
    pub fn text(&self) -> &[u8; 20]
        ensures { result.now ≡ self.now.text }
    {
        &self.text
    }
}
