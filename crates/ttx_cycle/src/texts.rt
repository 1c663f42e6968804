//! Reads texts of bounded length.

ghost use Rattle.std.specs.Prelude.{◌≡◌, length, IfSome};
ghost use Rattle.ttx_cycle.specs.Counters.{inner_of, faults_of};
ghost use Rattle.ttx_cycle.specs.Bounded.{ReadsText, CountsText};

use crate::counted::Counted;
use crate::faults::TextFault;
use std::alloc::Global;
use std::io::Read;

/// The most bytes that a service definition, a certificate or a counter-run may have (4 MiB).
pub const MOST_BYTES: usize = 4_194_304;

// A buffer for the bytes that are read at once.
fn piece_of_zeros() -> [u8; 1024]
    ensures { length result ≡ 1024 }
{
    [0; 1024]
}

/// Reads a text of at most `most` bytes to its end. A longer text is `TooLong`; at most 1,024 bytes beyond `most` are read.
pub fn read_text<R: Read>(
    alloc: Global,
    reader: &mut Counted<R>,
    most: usize,
) -> Result<Vec<u8>, TextFault>
    ensures bytes { IfSome (R.remaining (inner_of reader.old)) (λ bytes. ReadsText bytes most result) }
    ensures faults { CountsText result (faults_of reader.old) (faults_of reader.new) }
{
    let mut text = Vec::new(alloc);
    let mut piece = piece_of_zeros();
    while text.len() <= most {
        match reader.read(&mut piece) {
            Ok(0) => return Ok(text),
            Ok(count) => text
                .extend_from_slice(&piece[..count])
                .map_err(|_| TextFault::NoMemory)?,
            Err(_) => return Err(TextFault::Read),
        }
    }
    Err(TextFault::TooLong)
}
