//! What was lost and wrong in a feed, in all and in a minute.

ghost use Rattle.std.specs.Prelude.{◌≡◌};
ghost use Rattle.ttx_monitor.specs.Wordings.{a_minute, sums_of};

use crate::tally::Tally;

/// The packets that were lost and the bits that were wrong in a feed, in all and in 3,000 fields on average.
#[derive(Clone, Copy)]
pub struct Sums {
    pub lost: u64,
    pub bits: u64,
    pub minute_lost: u64,
    pub minute_bits: u64,
}

// How often something happens in the 3,000 fields of a minute.
fn a_minute(count: u64, slots: u64, lines: u8) -> u64
    ensures { result ≡ a_minute count slots lines }
{
    if slots == 0 {
        return 0;
    }
    let minute = u128::from(count) * (3000 * u128::from(lines)) / u128::from(slots);
    minute.min(u128::from(u64::MAX)) as u64
}

/// The sums of a feed of fields of so many lines.
pub fn sums_of(tally: Tally, lines: u8) -> Sums
    ensures { result ≡ sums_of tally lines }
{
    Sums {
        lost: tally.lost,
        bits: tally.bits,
        minute_lost: a_minute(tally.lost, tally.slots, lines),
        minute_bits: a_minute(tally.bits, tally.slots, lines),
    }
}
