//! Which blocks follow a time-filling header.

ghost use Rattle.std.specs.Prelude.{◌≡◌, ◌<◌, ◌&&◌, ◌==◌, replicate, slice_index, slice_set};

/// The blocks passed so far, by their headers.
#[derive(Clone, Copy)]
pub struct Fillers {
    /// Whether the cycle is also for receivers that show a page late.
    pub late: bool,
    /// The page number in the latest header of each magazine queue; FF before the first.
    pub latest: [u8; 8],
}

impl Fillers {
    pub fn new(late: bool) -> Fillers
        ensures { result ≡ record { late = late; latest = replicate 8 255 } }
    {
        Fillers {
            late,
            latest: [255; 8],
        }
    }

    /// Passes a block. Returns whether a time-filling header is sent before it: if pages may be shown late, and the latest header of its
    /// magazine has the same page number.
    pub fn pass(&mut self, queue: usize, page: u8) -> bool
        requires { queue < 8 }
        ensures filler { result ≡ (self.old.late && (slice_index self.old.latest queue == page)) }
        ensures passed { self.new ≡ record { late = self.old.late; latest = slice_set self.old.latest queue page } }
    {
        let again = self.latest[queue] == page;
        self.latest[queue] = page;
        self.late && again
    }
}
