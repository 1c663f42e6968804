//! Where the texts of a service come from.

ghost use Rattle.ttx_air.specs.TextNewsrooms as rule;
ghost use Rattle.ttx_air.specs.TextNewsrooms.{reading_of};

use std::alloc::Global;
use ttx_cycle::TextFault;

/// What holds the text of a service: a file that an author saves, or a list in a test.
///
/// `reads` relates the source before a call, what was read, and the source after the call. A source of which nothing is known beforehand has a
/// relation that always holds.
pub trait TextSource {
    ghost reads: { Self → rule.Reading → Self → Type 0 };

    /// The whole text as it is now, of at most 4,194,304 bytes.
    fn text(&mut self, alloc: Global) -> Result<Vec<u8>, TextFault>
        ensures { reads self.old (reading_of result) self.new };
}
