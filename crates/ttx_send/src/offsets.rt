//! Local offsets.

ghost use Rattle.std.specs.Prelude.{◌≡◌};
ghost use Rattle.ttx_send.specs.Times.{IsLocalOffset, offset_of};

use std::marker::Model;

/// A local offset as packets 8/30 format 1 show it: half hours, 0 to 31, and whether they are west of Greenwich (EN 300 706, 9.8.1).
#[derive(Clone, Copy)]
pub struct LocalOffset {
    halves: u8,
    west: bool,
}

impl Model for LocalOffset {
    ghost use Rattle.ttx_send.specs.Times.{LocalOffset, IsLocalOffset, offset_at};

    ghost Value = { LocalOffset };

    ghost view = { λ o. offset_at o.halves o.west };

    ghost inverse = { λ o. record { halves = o.halves; west = o.west } };

    ghost invariant = { λ o. IsLocalOffset (offset_at o.halves o.west) };
}

impl LocalOffset {
    /// The offset of a clock that is so many seconds ahead of UTC: its whole half hours, at most 31 (profile).
    pub fn of_seconds(seconds: i32) -> LocalOffset
        ensures { result ≡ offset_of seconds }
    {
        let halves = (seconds.unsigned_abs() / 1_800).min(31) as u8;
        LocalOffset {
            halves,
            west: seconds < 0 && halves > 0,
        }
    }

    /// The half hours, 0 to 31.
    pub fn halves(&self) -> u8
        ensures value { result ≡ self.now.halves }
        ensures range { IsLocalOffset self.now }
    {
        self.halves
    }

    /// Whether they are west of Greenwich.
    pub fn is_west(&self) -> bool
        ensures { result ≡ self.now.west }
    {
        self.west
    }
}
