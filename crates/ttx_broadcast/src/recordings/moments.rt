//! The moment at which a replay begins.

ghost use Rattle.std.specs.Prelude.{◌≡◌, ◌<◌, SomeIff, nat_abs, pos, ◌+ℤ◌, ◌%◌};
ghost use Rattle.ttx_send.specs.Times.{IsMoment, moment_at};
ghost use Rattle.ttx_broadcast.specs.Beginnings.{ahead_of};

use ttx_logbook::Begin;
use ttx_send::Moment;

// How many seconds a clock at this offset is ahead of UTC, within a day.
fn ahead_of(offset: i32) -> u32
    ensures value { result ≡ ahead_of offset }
    ensures range { result < 86400 }
{
    ((i64::from(offset) + 172_800).unsigned_abs() % 86_400) as u32
}

/// The moment at which a log begins, by a clock that is so many seconds ahead of UTC.
pub fn begin_of(begin: &Begin, offset: i32) -> Option<Moment>
    ensures { SomeIff result (IsMoment (moment_at begin.now.mjd begin.now.second (ahead_of offset)))
        (moment_at begin.now.mjd begin.now.second (ahead_of offset)) }
{
    Moment::new(begin.mjd, begin.second, ahead_of(offset))
}
