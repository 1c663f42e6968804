//! Shares the time within which viewers have to see a page between the deadline and the gap of receivers that show a page late.

ghost use Rattle.std.specs.Prelude.{◌≡◌, ◌+◌, ◌-◌, ◌*◌, ◌<◌, ◌≤◌, true, IfSome};
ghost use Rattle.ttx_cycle.specs.Cycles.{slots_of};
ghost use Rattle.ttx_plan.specs.Following.{AreFollowed};
ghost use Rattle.ttx_source.specs.Services.{pages_of};
ghost use Rattle.ttx_press.specs.Houses.{viewers_of};
ghost use Rattle.ttx_press.specs.Shares as rule;
ghost use Rattle.ttx_press.specs.Shares.{viewers_in, IsGapInFields, IsHouse, IsSharing};

use crate::demand::Demand;
use crate::house::House;
use crate::planned_service::PlannedService;
use ttx_air::Receivers;
use ttx_late::greatest_gap;

// The receivers that have to be served.
fn receivers_with(late: bool, slots: usize) -> Receivers
    ensures { result ≡ rule.receivers_with late slots }
{
    if late {
        Receivers::Late { gap: slots }
    } else {
        Receivers::AtOnce
    }
}

/// A house whose plans are those of the demand. Its deadline and its gap are not settled.
pub(crate) fn draft(demand: Demand) -> House
    ensures spread { result.spread ≡ demand.spread }
    ensures viewers { viewers_of result ≡ viewers_in demand }
{
    House {
        deadline: demand.within,
        repeat: demand.repeat,
        receivers: receivers_with(demand.late, 0),
        spread: demand.spread,
    }
}

/// The gap of late receivers in fields, rounded up: the most slots from a header to the next one of its magazine. Others have none.
pub(crate) fn gap_in_fields(late: bool, planned: &PlannedService) -> usize
    requires { late ≡ true → AreFollowed (slots_of planned.now.cycle) (pages_of planned.now.service) }
    ensures { IsGapInFields late (slots_of planned.now.cycle) (pages_of planned.now.service) planned.now.service.lines result }
{
    if late {
        let slots = greatest_gap(&planned.cycle, planned.service.pages());
        slots.div_ceil(usize::from(planned.service.lines()))
    } else {
        0
    }
}

// The fields for the gap.
fn gap_share(within: u32, deadline: u32, gap: u32) -> u32
    requires some { 1 ≤ deadline }
    requires enough { deadline + gap ≤ within }
    requires few { within ≤ 1000000 }
    ensures value { result ≡ rule.gap_share within deadline gap }
    ensures room { gap ≤ result }
    ensures rest { deadline + result ≤ within }
{
    (within as u64 * gap as u64 / (deadline + gap) as u64) as u32
}

// The house with so many fields for the gap.
fn house_with(demand: Demand, lines: u8, share: u32) -> House
    requires { share < demand.within }
    ensures { IsHouse demand lines share result }
{
    House {
        deadline: demand.within - share,
        repeat: demand.repeat,
        receivers: receivers_with(demand.late, share as usize * usize::from(lines)),
        spread: demand.spread,
    }
}

/// The house of an air whose first edition needs this deadline and this gap. `None` if they are more than there is.
pub(crate) fn shared(demand: Demand, lines: u8, least: Option<u32>, gap: usize) -> Option<House>
    requires { IfSome least (λ deadline. 1 ≤ deadline) }
    ensures { IsSharing demand lines least gap result }
{
    let deadline = least?;
    if deadline > demand.within || gap > (demand.within - deadline) as usize {
        return None;
    }
    let share = gap_share(demand.within, deadline, gap as u32);
    Some(house_with(demand, lines, share))
}
