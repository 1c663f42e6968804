//! The warning about a magazine with more than half of all packets.

ghost use Rattle.std.specs.Prelude.{◌≡◌, ◌<◌, ◌^◌, ◌++◌, OnOk};
ghost use Rattle.ttx_check.specs.Entries.{packets_of_magazine, traffic, all_traffic};
ghost use Rattle.ttx_check.specs.Warnings.{is_most, most_to, serial_warnings};

use crate::entries::Entry;
use crate::rows::push_if;
use crate::warning::Warning;
use std::alloc::AllocError;

fn packets_of_magazine(mag: u8, entry: &Entry) -> u32
    ensures { result ≡ packets_of_magazine mag entry.now }
{
    if entry.id.mag() == mag {
        entry.packets
    } else {
        0
    }
}

// The packets of a magazine in a cycle. The sum has 128 bits; one of 64 bits would need a bound.
fn traffic(mag: u8, entries: &[Entry]) -> u128
    ensures value { result ≡ traffic mag entries.now }
    ensures most { result < 2 ^ 127 }
{
    let mut sum: u128 = 0;
    for entry in entries {
        sum += u128::from(packets_of_magazine(mag, entry));
    }
    sum
}

fn all_traffic(entries: &[Entry]) -> u128
    ensures { result ≡ all_traffic entries.now }
{
    let mut sum: u128 = 0;
    for entry in entries {
        sum += u128::from(entry.packets);
    }
    sum
}

// Whether a magazine has more than half of the packets, but not all.
fn is_most(entries: &[Entry], mag: u8) -> bool
    ensures { result ≡ is_most entries.now mag }
{
    let all = all_traffic(entries);
    let own = traffic(mag, entries);
    all < 2 * own && own < all
}

/// Adds the warning about a magazine with most of the packets, in serial transmission.
pub fn push_most(
    found: &mut Vec<Warning>,
    serial: bool,
    entries: &[Entry],
) -> Result<(), AllocError>
    ensures { OnOk result (found.new.items ≡ found.old.items ++ serial_warnings serial entries.now) }
{
    if !serial {
        return Ok(());
    }
    for above in 0..8 {
        push_if(
            found,
            is_most(entries, above + 1),
            Warning::MostTraffic { mag: above + 1 },
        )?;
    }
    Ok(())
}
