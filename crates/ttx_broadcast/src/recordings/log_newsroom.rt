//! A newsroom over what a log records.

ghost use Rattle.std.specs.Prelude.{◌≡◌, map};
ghost use Rattle.ttx_archive.specs.Archives.{recorded_of};
ghost use Rattle.ttx_broadcast.specs.LogNewsrooms.{left_of, IsDue};

use crate::recordings::answers::answer;
use std::alloc::Global;
use ttx_air::{News, Newsroom, Press};
use ttx_archive::{Recorded, Told};
use ttx_playout::Edition;

/// A newsroom that answers, before each field, what a log records of it: of a text that took over the press makes an edition again; a text that
/// was kept off is refused with the words of the log. Before a field that the log does not name it has nothing new.
#[derive(Drop)]
pub struct LogNewsroom<'a, P> {
    press: P,
    records: Vec<Recorded<'a>>,
    next: usize,
}

impl<'a, P> LogNewsroom<'a, P> {
    /// A newsroom over these records, in the order of their fields.
    pub fn new(press: P, records: Vec<Recorded<'a>>) -> LogNewsroom<'a, P>
        ensures press { result.press ≡ press }
        ensures left { left_of result ≡ map recorded_of records.entry.items }
    {
        LogNewsroom {
            press,
            records,
            next: 0,
        }
    }

    // What is recorded of this field, once.
    fn due(&mut self, field: usize) -> Option<Told<'a>>
        ensures { IsDue field self.old self.new result }
    {
        if self.next >= self.records.len() {
            return None;
        }
        let of = self.records[self.next].field;
        if of as usize != field {
            return None;
        }
        let told = self.records[self.next].told;
        self.next += 1;
        Some(told)
    }
}

impl<'a, P: Press> Newsroom for LogNewsroom<'a, P> {
    ghost use Rattle.ttx_broadcast.specs.LogNewsrooms.{Recounts};

    ghost gives = { λ old on_air field news new. Recounts P.makes on_air field old new news };

    fn next(&mut self, alloc: Global, on_air: &Edition, field: usize) -> News {
        match self.due(field) {
            Some(told) => answer(alloc, &mut self.press, on_air, told),
            None => News::Nothing,
        }
    }
}
