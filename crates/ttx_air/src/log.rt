//! The log and the packets of an airing.

ghost use Rattle.std.specs.Prelude.{◌≡◌, ℕ};
ghost use Rattle.std.specs.Fmt.{decimal};
ghost use Rattle.ttx_air.specs.Airings.{written_of};
ghost use Rattle.ttx_air.specs.Entries.{Adds};

use itoa::Buffer;
use std::io::Write;
use ttx_cycle::{Counted, write_bytes};

/// Where the lines of the log and the packets go.
#[derive(Drop)]
pub struct Outputs<L, W> {
    pub log: Counted<L>,
    pub packets: Counted<W>,
}

// Adds bytes to the log, unless a write has failed since its count of faults stood at `started`. A log that fails does not stop the air.
pub(crate) fn put<L: Write>(log: &mut Counted<L>, started: u64, bytes: &[u8])
    ensures { Adds started (written_of L.contents log.old) (written_of L.contents log.new) bytes.now }
{
    if log.faults() == started {
        if let Err(_) = write_bytes(log, bytes) {}
    }
}

// Adds a number in decimal.
pub(crate) fn put_number<L: Write>(log: &mut Counted<L>, started: u64, number: usize)
    ensures { Adds started (written_of L.contents log.old) (written_of L.contents log.new) (decimal number) }
{
    put(log, started, Buffer::new().format(number).as_bytes());
}
