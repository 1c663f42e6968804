//! What a broadcast is asked for.

use ttx_press::Demand;

/// How the clock of a broadcast is named in its log.
#[derive(Clone, Copy)]
pub enum ClockName<'a> {
    /// The time zone of this name.
    Zone(&'a str),
    /// So many seconds ahead of UTC.
    Ahead(i32),
}

/// What a broadcast is asked for, the clock that it shows, and how many fields it sends at most.
#[derive(Clone, Copy)]
pub struct Request<'a, C> {
    pub demand: Demand,
    pub clock: C,
    pub name: ClockName<'a>,
    pub fields: u32,
}
