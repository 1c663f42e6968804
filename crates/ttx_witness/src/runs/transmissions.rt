//! The transmissions of one item of a page, and their runs.

ghost use Rattle.std.specs.Prelude.{◌≡◌};
ghost use Rattle.std.specs.List.{list_all};
ghost use Rattle.ttx_witness.specs.runs.Transmissions.{run_between, run_of};

/// A transmission. Slots are counted from the first slot of the period and may be negative.
#[derive(Clone, Copy, Default)]
pub struct Transmission {
    /// Its slot.
    pub slot: i32,
    /// The slot of its owner, the page header that it belongs to.
    pub owner: i32,
    /// Whether it is sure: no permitted receiver misses it.
    pub sure: bool,
}

/// A run of successive transmissions.
#[derive(Clone, Copy)]
pub struct Run {
    /// The slot of its first transmission.
    pub start: i32,
    /// The slot of that transmission's owner.
    pub owner: i32,
    /// The slot of its last transmission.
    pub end: i32,
    /// Whether all its transmissions are sure.
    pub sure: bool,
}

/// Whether all transmissions are sure.
pub fn each_sure(transmissions: &[Transmission]) -> bool
    ensures { result ≡ list_all (λ t. t.sure) transmissions.now }
{
    transmissions.iter().all(|t| t.sure)
}

/// The run from one transmission to another.
pub fn run_from(first: Transmission, last: Transmission, sure: bool) -> Run
    ensures { result ≡ run_between first last sure }
{
    Run {
        start: first.slot,
        owner: first.owner,
        end: last.slot,
        sure,
    }
}

/// The run of successive transmissions.
pub fn run_in(transmissions: &[Transmission]) -> Run
    ensures { result ≡ run_of transmissions.now }
{
    let sure = each_sure(transmissions);
    let (Some(first), Some(last)) = (transmissions.first(), transmissions.last()) else {
        return Run {
            start: 0,
            owner: 0,
            end: 0,
            sure: false,
        };
    };
    run_from(*first, *last, sure)
}
