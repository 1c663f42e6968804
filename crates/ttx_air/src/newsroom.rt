//! Where editions come from.

ghost use Rattle.std.specs.Prelude.{ℕ};
ghost use Rattle.ttx_playout.specs.Schedules as schedule;
ghost use Rattle.ttx_playout.specs.Takeovers.{edition_of};
ghost use Rattle.ttx_air.specs.Newsrooms as offers;
ghost use Rattle.ttx_air.specs.Newsrooms.{news_of};

use crate::candidate::News;
use std::alloc::Global;
use ttx_playout::Edition;

/// What hands out the editions of a service: a file that an author saves, or a list in a test.
///
/// `gives` relates the newsroom before a call, the edition on the air, the field, the answer, and the newsroom after the call. If nothing is
/// known of a newsroom in advance, the relation always holds.
pub trait Newsroom {
    ghost gives: { Self → schedule.Edition → ℕ → offers.News → Self → Type 0 };

    /// What is new before this field, with which the next period of the edition on the air would begin.
    fn next(&mut self, alloc: Global, on_air: &Edition, field: usize) -> News
        ensures { gives self.old (edition_of on_air.now) field (news_of result) self.new };
}
