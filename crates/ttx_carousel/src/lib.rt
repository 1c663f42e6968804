//! Carousels: plans in which one page of each number with stays is sent a turn, so that each stays long enough to be read.
#![tactic(auto)]

mod carousel;
mod faults;
mod kept_promises;
mod layout;
mod lines;
mod plans;

pub use faults::{Missed, ShortStay, StayFault};
pub use kept_promises::{judge, short_stays};
pub use lines::{missed_line, stay_lines};
pub use plans::plan_stays;
