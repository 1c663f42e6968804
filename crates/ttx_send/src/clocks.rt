//! The clocks of a head-end.

ghost use Rattle.std.specs.Prelude.{◌≡◌, ℕ};
ghost use Rattle.ttx_send.specs.Times as times;

use crate::moments::Moment;

/// A clock that runs from the start of a transmission on. `shows` gives the moment so many seconds after the start.
pub trait Clock: Copy {
    ghost shows: { Self → ℕ → times.Moment };

    /// The moment so many seconds after the start.
    fn after(&self, seconds: u32) -> Moment
        ensures { result ≡ shows self.now seconds };
}
