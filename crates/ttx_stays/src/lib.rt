//! Warnings about the stays of a service: page numbers whose pages may change before they are read, and stays that no plan keeps.
#![tactic(auto)]

mod short_numbers;
mod unkept_stays;
mod warnings;

pub use short_numbers::push_short;
pub use unkept_stays::push_stay;
pub use warnings::push_stay_warnings;
