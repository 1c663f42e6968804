//! Moments of the air, from instants, ISO times and zones; clocks that show the time of a zone.
#![tactic(auto)]

mod clocks;
mod instants;
mod texts;
mod zones;

pub use clocks::moment_by_clock;
pub use instants::moment_of;
pub use texts::read_instant;
pub use zones::{AirClock, ZoneClock};
