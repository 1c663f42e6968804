//! The scheduler. It lays out the packets of a service in a cycle of eight rounds, in serial or parallel magazine transmission.
#![tactic(auto)]

pub mod acceptance;
mod asked;
mod block;
mod bounds;
mod contents;
mod cursors;
mod cycle;
mod faults;
mod fillers;
pub mod late_cycles;
pub mod laws;
mod order;
mod packet;
mod parallel;
mod ranges;
mod rounds;
mod serial;
mod service_plan;
mod slots;
mod spread;
mod subpage_turns;
pub mod whole_blocks;

pub use asked::Receivers;
pub use faults::PlanFault;
pub use order::plan_in_order;
pub use service_plan::{is_too_long_spread, plan, plan_at, plan_for, plan_spread, plan_with};
pub use spread::spread_places;
