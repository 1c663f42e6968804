//! The laws. Each is a public function with an empty body: a call does nothing at run time, and gives the law to the caller's proof.

pub mod cycle_laws;
pub mod fault_laws;
pub mod judging_laws;
pub mod late_laws;
pub mod run_laws;
pub mod sure_items;
pub mod wait_laws;

pub use run_laws::{
    more_starts_cover, neighbours_decide, pass_decides, pass_finds_the_first, runs_are_the_streams,
    search_is_least,
};
