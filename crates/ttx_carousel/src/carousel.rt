//! The places of the pages of a service, and the receivers that they are for.

ghost use Rattle.std.specs.Prelude.{◌≤◌};

use crate::layout::Standing;
use ttx_plan::Receivers;

/// The places of the pages of a service, and how many turns a cycle has, for these receivers.
#[derive(Drop)]
pub struct Carousel {
    pub receivers: Receivers,
    pub standings: Vec<Standing>,
    pub turns: usize,
    ghost few: { turns ≤ 2001 },
}
