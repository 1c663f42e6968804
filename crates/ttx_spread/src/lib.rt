//! Laws of spread plans.
#![tactic(auto)]

pub mod laws;
